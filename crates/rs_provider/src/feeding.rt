//! How a query goes on by a value.

ghost use Rattle.std.specs.Prelude.{◌≡◌, IfOk};
ghost use Rattle.rs_provider.specs.Rests.{after, rest};
ghost use Rattle.rs_provider.specs.declared.state.State.TheVariants as state;

use crate::desk::Desk;
use crate::object::members_fed;
use crate::sig::sig_fed;
use crate::state::State;
use crate::subject::subject_fed;
use crate::text::{index_value, item_value};
use inc_base::{Bytes, Memory};
use rs_tree::Place;

impl State {
    /// Where it stands after the value that it waits for. One that is done stays.
    pub(crate) fn fed(self, desk: &Desk, value: &Bytes) -> Result<State, Memory>
        ensures { IfOk result (λ s. rest s ≡ after (rest self) value.now) }
    {
        match self {
            State::Done(given) => Ok(State::Done(given)),
            State::Index => Ok(State::Done(index_value(desk, value)?)),
            State::Item(at) => item_fed(desk, at, value),
            State::Sig(at) => sig_fed(desk, at, value),
            State::Subject(at, aim) => subject_fed(desk, at, aim, value),
            State::Resolve(subject) => subject.fed(desk, value),
            State::Search(search) => search.fed(desk, value),
            State::Calls(calling) => calling.fed(value),
            State::Const(settling) => settling.fed(desk, value),
            State::Check(checking) => checking.fed(value),
            State::Value(valuing) => valuing.fed(value),
            State::Form(forming) => forming.fed(value),
            State::Members(unit) => members_fed(unit, value),
            State::Object(gathering) => gathering.fed(value),
        }
    }
}

fn item_fed(desk: &Desk, at: Place, value: &Bytes) -> Result<State, Memory>
    ensures { IfOk result (λ s. rest s ≡ after (rest (state.Item at)) value.now) }
{
    let item = item_value(desk, &at, value);
    drop(at);
    Ok(State::Done(item?))
}
