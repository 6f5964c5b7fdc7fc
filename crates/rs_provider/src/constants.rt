//! The value of a constant, by the constants that it reaches.

ghost use Rattle.std.specs.Prelude.{◌≡◌, ◌++◌, ◌∷◌, [], length, filter, IfOk, OnOk};
ghost use Rattle.std.specs.Option.{option_map};
ghost use Rattle.rs_plans.specs.Plans.{answers, const_from, constants_in, is_constant_at};
ghost use Rattle.rs_reach.specs.Calls.{with_item};
ghost use Rattle.rs_provider.specs.Rests.{after, next_constant, rest, settled, settling};
ghost use Rattle.rs_provider.specs.declared.state.State.TheVariants as state;

use crate::desk::Desk;
use crate::indexed::Indexed;
use crate::known::Known;
use crate::left::Left;
use crate::state::{Resolved, Settling, State};
use crate::subject::answers;
use crate::using::is_constant_at;
use crate::worth::value_of;
use inc_base::{Bytes, Copied, List, Memory};
use rs_const::Entry;
use rs_tree::{Found, Item, Place};
use std::rc::Rc;

/// The value of a constant, which begins with its item and the constants that it names.
pub(crate) fn const_of(of: Resolved) -> Result<State, Memory>
    requires { of.found ≡ answers of.index.value of.at of.item.value }
    ensures { IfOk result (λ s. rest s ≡ const_from of.at of.item.value of.index.value) }
{
    match named(&of) {
        Err(refused) => {
            drop(of);
            Err(refused)
        }
        Ok(more) => match begun(&of) {
            Err(refused) => {
                drop(of);
                drop(more);
                Err(refused)
            }
            Ok(known) => {
                let left = of.index.as_ref().index().items.len();
                let Resolved {
                    at,
                    item,
                    index,
                    found,
                } = of;
                drop(item);
                drop(found);
                settling(at, index, known, more, left)
            }
        },
    }
}

fn named(of: &Resolved) -> Result<Left, Memory>
    ensures { IfOk result (λ more. more ≡ constants_in of.now.index.value of.now.found) }
{
    let constants = constants_in(of.index.as_ref(), of.found.as_slice())?;
    Left::of(constants)
}

fn begun(of: &Resolved) -> Result<Known, Memory>
    ensures { IfOk result (λ known. known ≡ (of.now.at, of.now.item.value, of.now.found) ∷ []) }
{
    let entry = entry(of)?;
    Known::new(of.found.allocator()).with(entry)
}

fn entry(of: &Resolved) -> Result<Entry, Memory>
    ensures { IfOk result (λ e. e ≡ (of.now.at, of.now.item.value, of.now.found)) }
{
    let at = of.at.copy()?;
    let found = of.found.copy()?;
    let item = of.item.as_ref().copy()?;
    Ok((at, item, found))
}

// The constants that these lead to, in order.
fn constants_in(index: &Indexed, found: &[Found]) -> Result<List<Place>, Memory>
    ensures { IfOk result (λ places. places ≡ constants_in index.now found.now) }
{
    let mut places = List::new(index.index().items.allocator());
    for one in found {
        push_constant(&mut places, index, one)?;
    }
    Ok(places)
}

fn push_constant(places: &mut List<Place>, index: &Indexed, found: &Found) -> Result<(), Memory>
    ensures { OnOk result (places.new ≡ places.old ++ filter (is_constant_at index.now) (with_item found.now [])) }
{
    match found {
        Found::Item(place) => {
            if !is_constant_at(index, place) {
                return Ok(());
            }
            places.push(place.copy()?)
        }
        Found::Local => Ok(()),
        Found::Private => Ok(()),
        Found::Absent => Ok(()),
    }
}

// The first of those left that isn't known, where one more may be asked for.
fn next(known: &Known, more: &mut Left, left: usize) -> Option<Place>
    ensures { option_map (λ p. (p, more.new)) result ≡ next_constant known.now more.old left }
{
    if left == 0 {
        return None;
    }
    more.next_new(known)
}

fn settling(
    at: Place,
    index: Rc<Indexed>,
    known: Known,
    more: Left,
    left: usize,
) -> Result<State, Memory>
    ensures { IfOk result (λ s. rest s ≡ settling at index.value known more left) }
{
    let mut more = more;
    match next(&known, &mut more, left) {
        Some(next) => Ok(State::Const(Settling {
            at,
            index,
            known,
            next,
            more,
            left: left - 1,
        })),
        None => {
            let value = value_of(&at, known.as_slice());
            drop(at);
            drop(index);
            drop(known);
            drop(more);
            Ok(State::Done(value?))
        }
    }
}

impl Settling {
    /// With the item that a value is.
    pub(crate) fn fed(self, desk: &Desk, value: &Bytes) -> Result<State, Memory>
        ensures { IfOk result (λ s. rest s ≡ after (rest (state.Const self)) value.now) }
    {
        match desk.item(&self.next, value) {
            Err(refused) => {
                drop(self);
                Err(refused)
            }
            Ok(None) => {
                drop(self);
                Ok(State::Done(Bytes::new(value.allocator())))
            }
            Ok(Some(item)) => match item.as_ref().copy() {
                Err(refused) => {
                    drop(self);
                    drop(item);
                    Err(refused)
                }
                Ok(copy) => {
                    drop(item);
                    self.read(copy)
                }
            },
        }
    }

    fn read(self, item: Item) -> Result<State, Memory>
        ensures { IfOk result (λ s. rest s ≡ settled self.at self.index.value self.known self.next self.more self.left item) }
    {
        match answers(&self.next, &item, self.index.as_ref()) {
            Err(refused) => {
                drop(self);
                drop(item);
                Err(refused)
            }
            Ok(found) => match constants_in(self.index.as_ref(), found.as_slice()) {
                Err(refused) => {
                    drop(self);
                    drop(item);
                    drop(found);
                    Err(refused)
                }
                Ok(constants) => self.with(item, found, constants),
            },
        }
    }

    fn with(self, item: Item, found: List<Found>, constants: List<Place>) -> Result<State, Memory>
        ensures { IfOk result (λ s. rest s ≡ settling self.at self.index.value (self.known ++ (self.next, item, found) ∷ []) (constants ++ self.more) self.left) }
    {
        let Settling {
            at,
            index,
            known,
            next,
            more,
            left,
        } = self;
        let mut more = more;
        match known.with((next, item, found)) {
            Err(refused) => {
                drop(at);
                drop(index);
                drop(more);
                drop(constants);
                Err(refused)
            }
            Ok(known) => match more.put_front(constants) {
                Err(refused) => {
                    drop(at);
                    drop(index);
                    drop(known);
                    drop(more);
                    Err(refused)
                }
                Ok(()) => settling(at, index, known, more, left),
            },
        }
    }
}
