ghost use Rattle.std.specs.Prelude.{◌≡◌, OnOk};
ghost use Rattle.rs_check.specs.Bodies.{twice_wrongs};
ghost use Rattle.rs_check.specs.State.{context, said, with_all};

use crate::body::Checker;
use inc_base::Memory;
use rs_diag::Fault;
use rs_tree::Param;
use rs_types::Local;

impl<'a, 'b> Checker<'a, 'b> {
    /// Declares the parameters, in their order.
    pub(crate) fn params(&mut self, params: &'a [Param]) -> Result<(), Memory>
        ensures { OnOk result (self.new ≡ with_all params.now self.old) }
    {
        for param in params {
            let name = param.name.as_slice();
            self.twice(param)?;
            self.clash(param.at, name)?;
            let local = Local {
                typ: Some(param.typ),
                mutable: false,
            };
            self.declare(param.at, name, local)?;
        }
        Ok(())
    }

    // A parameter with the name of an earlier one: so far the scope has the parameters before it alone.
    fn twice(&mut self, param: &'a Param) -> Result<(), Memory>
        ensures { OnOk result (self.new ≡ said (twice_wrongs (context self.old) param.now) self.old) }
    {
        let name = param.name.as_slice();
        if self.typer.scope.find(name).is_some() {
            return self.typer.say(param.at, Fault::ParamTwice(name));
        }
        Ok(())
    }
}
