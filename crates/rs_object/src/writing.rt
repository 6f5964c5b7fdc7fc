ghost use Rattle.std.specs.Prelude.{◌≡◌, IfOk};
ghost use Rattle.rs_object.specs.Fits.{FitsFields, FitsObject};
ghost use Rattle.rs_object.specs.Forms.{func_form, object_form};
ghost use Rattle.rs_object.specs.Grammar.{InGrammar};

use crate::object::{Func, Object};
use inc_base::{Bytes, List, Memory};
use inc_wire::{Field, put_all, put_number, put_text};

/// The bytes of an object that is in the grammar. `Memory` where there is none for them
/// (docs/FORMATS.md, "Objects").
#[tactic(auto, using(crate::proofs::Fronts::funcs_fit))]
pub fn encode_object(object: &Object) -> Result<Bytes, Memory>
    requires { InGrammar object.now }
    ensures makes { IfOk result (λ b. b ≡ object_form object.now) }
    ensures fits { IfOk result (λ b. FitsObject object.now) }
{
    let mut to = Bytes::new(object.unit.allocator());
    put_number(&mut to, 4, 0x494e_434f)?;
    put_number(&mut to, 2, 1)?;
    put_text(&mut to, object.unit.as_slice())?;
    put_all::<Func>(&mut to, object.funcs.as_slice())?;
    Ok(to)
}

impl Field for Func {
    type Value = Func;

    ghost form = { func_form };

    ghost fits = { FitsFields };

    fn put(value: &Func, to: &mut Bytes) -> Result<(), Memory> {
        put_text(to, value.symbol.as_slice())?;
        put_number(to, 2, u64::from(value.params))?;
        put_number(to, 2, u64::from(value.slots))?;
        put_text(to, value.code.as_slice())?;
        put_all::<(u32, Bytes)>(to, value.relocs.as_slice())
    }
}
