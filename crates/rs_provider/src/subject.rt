//! An item that was read, and the index by which its paths are resolved.

ghost use Rattle.std.specs.Prelude.{◌≡◌, [], IfOk};
ghost use Rattle.rs_plans.specs.Plans.{answers, calls_by, is_constant, named_items};
ghost use Rattle.rs_answers.specs.Forms.{places_form};
ghost use Rattle.rs_tree.specs.Plain.{definition};
ghost use Rattle.rs_provider.specs.Rests.{after, from_index, from_item, is_made, rest};
ghost use Rattle.rs_provider.specs.declared.state.State.TheVariants as state;

use crate::check::check_of;
use crate::constants::const_of;
use crate::desk::Desk;
use crate::form::form_of;
use crate::indexed::Indexed;
use crate::sig::is_constant;
use crate::state::{Aim, Resolved, State, Subject};
use inc_base::{Bytes, List, Memory};
use rs_answers::places_bytes;
use rs_names::resolve_in;
use rs_tree::{Found, Item, Place};
use std::alloc::Global;
use std::rc::Rc;

/// What is made of the item that a value is.
pub(crate) fn subject_fed(desk: &Desk, at: Place, aim: Aim, value: &Bytes) -> Result<State, Memory>
    ensures { IfOk result (λ s. rest s ≡ after (rest (state.Subject at aim)) value.now) }
{
    match desk.item(&at, value) {
        Err(refused) => {
            drop(at);
            Err(refused)
        }
        Ok(None) => {
            drop(at);
            Ok(State::Done(Bytes::new(value.allocator())))
        }
        Ok(Some(item)) => Ok(begun(value.allocator(), Subject { at, item, aim })),
    }
}

fn begun(alloc: Global, subject: Subject) -> State
    ensures { rest result ≡ from_item subject.aim subject.at subject.item.value }
{
    if is_made(subject.aim, is_constant(subject.item.as_ref())) {
        State::Resolve(subject)
    } else {
        drop(subject);
        State::Done(Bytes::new(alloc))
    }
}

fn is_made(aim: Aim, constant: bool) -> bool
    ensures { result ≡ is_made aim constant }
{
    match aim {
        Aim::Const => constant,
        Aim::Check => true,
        Aim::Calls => true,
        Aim::Form(_) => !constant,
    }
}

impl Subject {
    /// What is made of it, with the index that a value is.
    pub(crate) fn fed(self, desk: &Desk, value: &Bytes) -> Result<State, Memory>
        ensures { IfOk result (λ s. rest s ≡ after (rest (state.Resolve self)) value.now) }
    {
        match desk.index(value) {
            Err(refused) => {
                drop(self);
                Err(refused)
            }
            Ok(None) => {
                drop(self);
                Ok(State::Done(Bytes::new(value.allocator())))
            }
            Ok(Some(index)) => self.resolved(index),
        }
    }

    fn resolved(self, index: Rc<Indexed>) -> Result<State, Memory>
        ensures { IfOk result (λ s. rest s ≡ from_index self.aim self.at self.item.value index.value) }
    {
        match answers(&self.at, self.item.as_ref(), index.as_ref()) {
            Err(refused) => {
                drop(self);
                drop(index);
                Err(refused)
            }
            Ok(found) => {
                let Subject { at, item, aim } = self;
                Resolved {
                    at,
                    item,
                    index,
                    found,
                }
                .made(aim)
            }
        }
    }
}

/// What the paths of an item lead to.
pub(crate) fn answers(at: &Place, item: &Item, index: &Indexed) -> Result<List<Found>, Memory>
    ensures { IfOk result (λ fs. fs ≡ answers index.now at.now item.now) }
{
    let names = index.names();
    resolve_in(item.tokens.allocator(), item, at.module.as_slice(), &names)
}

impl Resolved {
    fn made(self, aim: Aim) -> Result<State, Memory>
        requires { self.found ≡ answers self.index.value self.at self.item.value }
        ensures { IfOk result (λ s. rest s ≡ from_index aim self.at self.item.value self.index.value) }
    {
        match aim {
            Aim::Const => const_of(self),
            Aim::Check => check_of(self),
            Aim::Calls => calls_made(self),
            Aim::Form(level) => form_of(level, self),
        }
    }

    fn calls(&self) -> Result<Bytes, Memory>
        requires { self.now.found ≡ answers self.now.index.value self.now.at self.now.item.value }
        ensures { IfOk result (λ v. v ≡ places_form (calls_by self.now.at self.now.item.value self.now.index.value)) }
    {
        let callees = self.index.as_ref().callees()?;
        let alloc = self.found.allocator();
        let places = callees.calls_of(alloc, self.item.as_ref(), self.found.as_slice())?;
        places_bytes(&places)
    }
}

/// The functions that an item calls.
fn calls_made(of: Resolved) -> Result<State, Memory>
    requires { of.found ≡ answers of.index.value of.at of.item.value }
    ensures { IfOk result (λ s. s ≡ state.Done (places_form (calls_by of.at of.item.value of.index.value))) }
{
    let value = of.calls();
    drop(of);
    Ok(State::Done(value?))
}
