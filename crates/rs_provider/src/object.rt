//! The object of a unit.

ghost use Rattle.std.specs.Prelude.{◌≡◌, ◌++◌, ◌∷◌, [], IfOk};
ghost use Rattle.rs_emit.specs.Objects.{object_of};
ghost use Rattle.rs_object.specs.Forms.{object_form};
ghost use Rattle.rs_plans.specs.Readings.{ir_in};
ghost use Rattle.rs_plans.specs.Steps.{ask_each, query};
ghost use Rattle.rs_provider.specs.Each.{turn_left, turn_of};
ghost use Rattle.rs_provider.specs.Rests.{after, object_by, rest};
ghost use Rattle.rs_provider.specs.declared.state.State.TheVariants as state;

use crate::each::{Turn, turned};
use crate::left::Left;
use crate::reading::{ir_in, places_in};
use crate::state::{Gathering, State};
use inc_base::{Bytes, List, Memory, Meter};
use rs_emit::emit;
use rs_object::encode_object;
use rs_tree::{Ir, Place};

/// With the members that a value is.
pub(crate) fn members_fed(unit: Bytes, value: &Bytes) -> Result<State, Memory>
    ensures { IfOk result (λ s. rest s ≡ after (rest (state.Members unit)) value.now) }
{
    match places_in(value) {
        Err(refused) => {
            drop(unit);
            Err(refused)
        }
        Ok(None) => {
            drop(unit);
            Ok(State::Done(Bytes::new(value.allocator())))
        }
        Ok(Some(places)) => gathered(unit, places),
    }
}

fn gathered(unit: Bytes, places: List<Place>) -> Result<State, Memory>
    ensures { IfOk result (λ s. rest s ≡ ask_each (query 9) (λ p. ir_in) places (object_by unit)) }
{
    let none = List::new(places.allocator());
    match Left::of(places) {
        Err(refused) => {
            drop(unit);
            drop(none);
            Err(refused)
        }
        Ok(left) => gathering(unit, turned(none, left)),
    }
}

fn gathering(unit: Bytes, turn: Turn<Ir>) -> Result<State, Memory>
    ensures { IfOk result (λ s. rest s ≡ turn_left (query 9) (λ p. ir_in) turn (object_by unit)) }
{
    match turn {
        Turn::Next(each) => Ok(State::Object(Gathering { unit, each })),
        Turn::All(members) => {
            let value = object_value(unit.as_slice(), &members);
            drop(unit);
            drop(members);
            Ok(State::Done(value?))
        }
    }
}

// What counts objects counts the answer, and not this.
fn object_value(unit: &[u8], members: &List<(Place, Ir)>) -> Result<Bytes, Memory>
    ensures { IfOk result (λ v. v ≡ object_form (object_of unit.now members.now)) }
{
    let mut meter = Meter::new();
    let object = emit(unit, members, &mut meter)?;
    encode_object(&object)
}

impl Gathering {
    /// With the form that a value is.
    pub(crate) fn fed(self, value: &Bytes) -> Result<State, Memory>
        ensures { IfOk result (λ s. rest s ≡ after (rest (state.Object self)) value.now) }
    {
        match ir_in(value) {
            Err(refused) => {
                drop(self);
                Err(refused)
            }
            Ok(None) => {
                drop(self);
                Ok(State::Done(Bytes::new(value.allocator())))
            }
            Ok(Some(ir)) => self.with(ir),
        }
    }

    fn with(self, ir: Ir) -> Result<State, Memory>
        ensures { IfOk result (λ s. rest s ≡ turn_left (query 9) (λ p. ir_in) (turn_of (self.each.done ++ (self.each.next, ir) ∷ []) self.each.left) (object_by self.unit)) }
    {
        let Gathering { unit, each } = self;
        match each.with(ir) {
            Ok(turn) => gathering(unit, turn),
            Err(refused) => {
                drop(unit);
                Err(refused)
            }
        }
    }
}
