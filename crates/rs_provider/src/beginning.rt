//! Where a query begins.

ghost use Rattle.std.specs.Prelude.{◌≡◌, ◌∷◌, [], ℕ, IfOk};
ghost use Rattle.rs_plans.specs.Plans.{plan_of, subject};
ghost use Rattle.rs_provider.specs.Rests.{rest};

use crate::state::{Aim, Search, State};
use inc_base::{Bytes, Copied, Memory};
use inc_query::Query;
use rs_tree::Place;
use std::alloc::Global;

impl State {
    /// Where a query stands before its first read, at a level.
    pub(crate) fn start(alloc: Global, level: u8, q: &Query) -> Result<State, Memory>
        ensures { IfOk result (λ s. (version : ℕ) → rest s ≡ plan_of (version ∷ level ∷ []) q.now) }
    {
        if q.kind == 1 {
            return Ok(State::Index);
        }
        if q.kind == 2 {
            let at = subject(q)?;
            return Ok(State::Item(at));
        }
        if q.kind == 3 {
            let at = subject(q)?;
            return Ok(State::Sig(at));
        }
        if q.kind == 4 {
            let at = subject(q)?;
            return Ok(State::Subject(at, Aim::Const));
        }
        if q.kind == 5 {
            let at = subject(q)?;
            return Ok(State::Subject(at, Aim::Check));
        }
        if q.kind == 6 {
            let at = subject(q)?;
            return Ok(State::Subject(at, Aim::Calls));
        }
        if q.kind == 7 {
            return Ok(State::Search(Search::Dead));
        }
        if q.kind == 8 {
            let unit = q.module.copy()?;
            return Ok(State::Search(Search::Members(unit)));
        }
        if q.kind == 9 {
            let at = subject(q)?;
            return Ok(State::Subject(at, Aim::Form(level)));
        }
        if q.kind == 10 {
            let unit = q.module.copy()?;
            return Ok(State::Members(unit));
        }
        Ok(State::Done(Bytes::new(alloc)))
    }
}

fn subject(q: &Query) -> Result<Place, Memory>
    ensures { IfOk result (λ at. at ≡ subject q.now) }
{
    Ok(Place {
        module: q.module.copy()?,
        name: q.name.copy()?,
    })
}
