ghost use Rattle.std.specs.Prelude.{◌≡◌, ◌&&◌, ◌∷◌, [], drop, IfOk, OnOk};
ghost use Rattle.rs_diag.specs.Faults.{diag, plain};
ghost use Rattle.rs_types.specs.Types.{compared, first_fits, is_typ, need, need_first, need_same, need_value, operand, same_typ, type_if};
ghost use Rattle.rs_types.specs.State.{said};

use crate::typer::Typer;
use inc_base::Memory;
use rs_diag::{Fault, Want};
use rs_tree::{At, Typ, UnaryOp};

impl<'a, 'b> Typer<'a, 'b> {
    /// Keeps what is wrong at a place.
    pub fn say(&mut self, at: At, fault: Fault<'_>) -> Result<(), Memory>
        ensures { OnOk result (self.new ≡ said (diag at (plain fault.entry) ∷ []) self.old) }
    {
        let diag = fault.at(self.alloc, at)?;
        self.diags.push(diag)
    }

    /// Refuses another type than the wanted one, and tells whether it is the wanted one. What has no type is asked
    /// nothing.
    pub fn need(&mut self, at: At, want: Typ, found: Option<Typ>) -> Result<bool, Memory>
        ensures fits { IfOk result (λ b. b ≡ is_typ want found) }
        ensures said { OnOk result (self.new ≡ said (need at want found) self.old) }
    {
        match found {
            None => Ok(false),
            Some(typ) => {
                if is_same(want, typ) {
                    return Ok(true);
                }
                self.say(at, Fault::Mistyped(Want::Of(want), typ))?;
                Ok(false)
            }
        }
    }

    /// Refuses the type of what has no value.
    pub fn need_value(&mut self, at: At, found: Option<Typ>) -> Result<(), Memory>
        ensures { OnOk result (self.new ≡ said (need_value at found) self.old) }
    {
        match found {
            Some(Typ::Unit) => self.say(at, Fault::Mistyped(Want::Value, Typ::Unit)),
            None | Some(Typ::Int) | Some(Typ::Bool) => Ok(()),
        }
    }

    pub(crate) fn need_same(
        &mut self,
        at: At,
        left: Option<Typ>,
        right: Option<Typ>,
    ) -> Result<(), Memory>
        ensures { OnOk result (self.new ≡ said (need_same at left right) self.old) }
    {
        match left {
            None | Some(Typ::Unit) => Ok(()),
            Some(Typ::Int) => {
                self.need(at, Typ::Int, right)?;
                Ok(())
            }
            Some(Typ::Bool) => {
                self.need(at, Typ::Bool, right)?;
                Ok(())
            }
        }
    }

    pub(crate) fn need_first(
        &mut self,
        at: At,
        wants: &[Typ],
        found: Option<Typ>,
    ) -> Result<bool, Memory>
        ensures fits { IfOk result (λ b. b ≡ first_fits wants.now found) }
        ensures said { OnOk result (self.new ≡ said (need_first at wants.now found) self.old) }
    {
        match wants.first() {
            None => Ok(true),
            Some(want) => self.need(at, *want, found),
        }
    }
}

pub(crate) fn after_first(wants: &[Typ]) -> &[Typ]
    ensures { result.now ≡ drop 1 wants.now }
{
    match wants.split_first() {
        None => wants,
        Some((_, rest)) => rest,
    }
}

fn is_same(a: Typ, b: Typ) -> bool
    ensures { result ≡ same_typ a b }
{
    a == b
}

pub(crate) fn operand(op: UnaryOp) -> Typ
    ensures { result ≡ operand op }
{
    match op {
        UnaryOp::Negate => Typ::Int,
        UnaryOp::Not => Typ::Bool,
    }
}

pub(crate) fn type_if(holds: bool, typ: Typ) -> Option<Typ>
    ensures { result ≡ type_if holds typ }
{
    if holds { Some(typ) } else { None }
}

pub(crate) fn compared(left: Option<Typ>, right: Option<Typ>) -> Option<Typ>
    ensures { result ≡ compared left right }
{
    match (left, right) {
        (Some(Typ::Int), Some(Typ::Int)) => Some(Typ::Bool),
        (Some(Typ::Bool), Some(Typ::Bool)) => Some(Typ::Bool),
        _ => None,
    }
}

pub(crate) fn both(a: bool, b: bool) -> bool
    ensures { result ≡ (a && b) }
{
    a && b
}
