//! Searches by calls: the functions that are never used, and the members of a unit.
//!
//! A search goes on where it stood, so the calls of one more function cost a look-up for each that it calls.

ghost use Rattle.std.specs.Prelude.{◌≡◌, ◌++◌, ◌∷◌, [], List, length, option_and_then, IfOk};
ghost use Rattle.rs_tree.specs.declared.index.Index.{Index};
ghost use Rattle.rs_tree.specs.declared.place.Place.{Place};
ghost use Rattle.rs_answers.specs.Forms.{places_form};
ghost use Rattle.rs_units.specs.Members.{place_numbered};
ghost use Rattle.rs_provider.specs.Rests.{after, rest, searching};
ghost use Rattle.rs_provider.specs.Searches.{IsAsking, IsThere, found_by, next_by};
ghost use Rattle.rs_provider.specs.declared.state.Search.{Search};
ghost use Rattle.rs_provider.specs.declared.state.State.TheVariants as state;

use crate::desk::Desk;
use crate::indexed::Indexed;
use crate::reading::places_in;
use crate::state::{Calling, Search, State};
use crate::walk::Walk;
use inc_base::{Bytes, List, Memory};
use rs_answers::places_bytes;
use rs_reach::place_of;
use rs_tree::{Index, IndexItem, Place};
use std::rc::Rc;

impl Search {
    /// With the index that a value is.
    pub(crate) fn fed(self, desk: &Desk, value: &Bytes) -> Result<State, Memory>
        ensures { IfOk result (λ s. rest s ≡ after (rest (state.Search self)) value.now) }
    {
        match desk.index(value) {
            Err(refused) => {
                drop(self);
                Err(refused)
            }
            Ok(None) => {
                drop(self);
                Ok(State::Done(Bytes::new(value.allocator())))
            }
            Ok(Some(index)) => self.begun(index),
        }
    }

    fn begun(self, index: Rc<Indexed>) -> Result<State, Memory>
        ensures { IfOk result (λ s. rest s ≡ searching self index.value [] (length index.value.items)) }
    {
        match self.walk(index.as_ref().index()) {
            Err(refused) => {
                drop(self);
                drop(index);
                Err(refused)
            }
            Ok(walk) => {
                let left = index.as_ref().index().items.len();
                let calls = List::new(index.as_ref().index().items.allocator());
                searching(self, index, calls, walk, left)
            }
        }
    }

    // Before any calls are known.
    fn walk(&self, index: &Index) -> Result<Walk, Memory>
        ensures { IfOk result (λ w. IsThere self.now index.now.items [] w) }
    {
        let alloc = index.items.allocator();
        let may = self.marks(alloc, index.items.as_slice())?;
        let roots = self.roots(alloc, index.items.as_slice())?;
        Walk::new(alloc, &may, roots)
    }

    fn value(&self, index: &Index, walk: &Walk) -> Result<Bytes, Memory>
        ensures { IfOk result (λ v. (calls : List (Place × List Place)) → ∥ IsThere self.now index.now.items calls walk.now ∥₁ → v ≡ places_form (found_by self.now index.now calls)) }
    {
        let places = self.found(index, walk)?;
        places_bytes(&places)
    }
}

// The function whose calls are wanted, where one is and one more may be asked for.
fn next(index: &Index, walk: &Walk, left: usize) -> Result<Option<Place>, Memory>
    ensures { IfOk result (λ p. (search : Search) (calls : List (Place × List Place)) → ∥ IsThere search index.now.items calls walk.now ∥₁ → p ≡ next_by search index.now calls left) }
{
    if left == 0 {
        return Ok(None);
    }
    place_at(index.items.as_slice(), walk.next())
}

fn place_at(items: &[IndexItem], number: Option<usize>) -> Result<Option<Place>, Memory>
    ensures { IfOk result (λ p. p ≡ option_and_then (place_numbered items.now) number) }
{
    let Some(number) = number else {
        return Ok(None);
    };
    match items.get(number) {
        Some(item) => Ok(Some(place_of(item)?)),
        None => Ok(None),
    }
}

fn searching(
    search: Search,
    index: Rc<Indexed>,
    calls: List<(Place, List<Place>)>,
    walk: Walk,
    left: usize,
) -> Result<State, Memory>
    requires { ∥ IsThere search index.value.items calls walk ∥₁ }
    ensures { IfOk result (λ s. rest s ≡ searching search index.value calls left) }
{
    match next(index.as_ref().index(), &walk, left) {
        Err(refused) => {
            drop(search);
            drop(index);
            drop(calls);
            drop(walk);
            Err(refused)
        }
        Ok(None) => {
            let value = search.value(index.as_ref().index(), &walk);
            drop(search);
            drop(index);
            drop(calls);
            drop(walk);
            Ok(State::Done(value?))
        }
        Ok(Some(wanted)) => Ok(State::Calls(Calling {
            search,
            index,
            calls,
            walk,
            wanted,
            left: left - 1,
        })),
    }
}

// With the calls of the one that is wanted.
fn walked(index: &Indexed, walk: Walk, called: &List<Place>) -> Result<Walk, Memory>
    ensures { IfOk result (λ w. (search : Search) (calls : List (Place × List Place)) (wanted : Place) → IsAsking search index.now calls walk wanted → IsThere search index.now.items (calls ++ (wanted, called.now) ∷ []) w) }
{
    let places = index.places();
    walk.with_calls(index.index().items.allocator(), &places, called.as_slice())
}

impl Calling {
    /// With the calls that a value is.
    pub(crate) fn fed(self, value: &Bytes) -> Result<State, Memory>
        ensures { IfOk result (λ s. rest s ≡ after (rest (state.Calls self)) value.now) }
    {
        match places_in(value) {
            Err(refused) => {
                drop(self);
                Err(refused)
            }
            Ok(None) => {
                drop(self);
                Ok(State::Done(Bytes::new(value.allocator())))
            }
            Ok(Some(places)) => self.with(places),
        }
    }

    fn with(self, places: List<Place>) -> Result<State, Memory>
        ensures { IfOk result (λ s. rest s ≡ searching self.search self.index.value (self.calls ++ (self.wanted, places) ∷ []) self.left) }
    {
        let Calling {
            search,
            index,
            calls,
            walk,
            wanted,
            left,
        } = self;
        match walked(index.as_ref(), walk, &places) {
            Err(refused) => {
                drop(search);
                drop(index);
                drop(calls);
                drop(wanted);
                drop(places);
                Err(refused)
            }
            Ok(walk) => {
                let mut calls = calls;
                match calls.push((wanted, places)) {
                    Ok(()) => searching(search, index, calls, walk, left),
                    Err(refused) => {
                        drop(search);
                        drop(index);
                        drop(calls);
                        drop(walk);
                        Err(refused)
                    }
                }
            }
        }
    }
}
