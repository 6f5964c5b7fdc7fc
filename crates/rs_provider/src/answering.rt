//! What a query on its way says.

ghost use Rattle.std.specs.Prelude.{◌≡◌, [], IfOk};
ghost use Rattle.rs_plans.specs.Plans.{use_query};
ghost use Rattle.rs_plans.specs.Steps.{query, whole};
ghost use Rattle.rs_provider.specs.Rests.{answer_of, members_query, rest};

use crate::state::{Forming, State};
use crate::using::is_constant_at;
use inc_base::{Bytes, Copied, Memory};
use inc_query::{Answer, Query};
use rs_tree::Place;
use std::alloc::Global;

impl State {
    /// The read that it waits for, or its value.
    pub(crate) fn answer(&self, alloc: Global) -> Result<Answer, Memory>
        ensures { IfOk result (λ a. a ≡ answer_of (rest self.now)) }
    {
        match self {
            State::Done(value) => Ok(Answer::Value(value.copy()?)),
            State::Index => Ok(Answer::Read(whole(alloc, 0))),
            State::Item(_) => Ok(Answer::Read(whole(alloc, 0))),
            State::Sig(at) => Ok(Answer::Read(query(2, at)?)),
            State::Subject(at, _) => Ok(Answer::Read(query(2, at)?)),
            State::Resolve(_) => Ok(Answer::Read(whole(alloc, 1))),
            State::Search(_) => Ok(Answer::Read(whole(alloc, 1))),
            State::Calls(calling) => Ok(Answer::Read(query(6, &calling.wanted)?)),
            State::Const(settling) => Ok(Answer::Read(query(2, &settling.next)?)),
            State::Check(checking) => Ok(Answer::Read(query(3, &checking.each.next)?)),
            State::Value(valuing) => Ok(Answer::Read(query(4, &valuing.of.at)?)),
            State::Form(forming) => Ok(Answer::Read(use_query(forming)?)),
            State::Members(unit) => Ok(Answer::Read(members_query(alloc, unit)?)),
            State::Object(gathering) => Ok(Answer::Read(query(9, &gathering.each.next)?)),
        }
    }
}

fn whole(alloc: Global, kind: u8) -> Query
    ensures { result ≡ whole kind }
{
    Query {
        kind,
        module: Bytes::new(alloc),
        name: Bytes::new(alloc),
    }
}

fn query(kind: u8, at: &Place) -> Result<Query, Memory>
    ensures { IfOk result (λ q. q ≡ query kind at.now) }
{
    Ok(Query {
        kind,
        module: at.module.copy()?,
        name: at.name.copy()?,
    })
}

fn use_query(forming: &Forming) -> Result<Query, Memory>
    ensures { IfOk result (λ q. q ≡ use_query forming.now.of.index.value forming.now.each.next) }
{
    let at = &forming.each.next;
    if is_constant_at(forming.of.index.as_ref(), at) {
        query(4, at)
    } else {
        query(3, at)
    }
}

fn members_query(alloc: Global, unit: &Bytes) -> Result<Query, Memory>
    ensures { IfOk result (λ q. q ≡ members_query unit.now) }
{
    Ok(Query {
        kind: 8,
        module: unit.copy()?,
        name: Bytes::new(alloc),
    })
}
