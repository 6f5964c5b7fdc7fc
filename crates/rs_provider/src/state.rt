//! Where a query on its way stands.

ghost use Rattle.rs_provider.specs.Searches.{IsAsking};

use crate::each::Each;
use crate::indexed::Indexed;
use crate::known::Known;
use crate::left::Left;
use crate::using::Use;
use crate::walk::Walk;
use inc_base::{Bytes, List};
use rs_tree::{Found, Ir, Item, Place, Sig};
use std::rc::Rc;

/// What is made of an item and of what its paths lead to.
#[derive(Clone, Copy, Debug)]
pub enum Aim {
    /// The value of a constant.
    Const,
    /// What is wrong with it.
    Check,
    /// The functions that it calls.
    Calls,
    /// The intermediate form of a function, at this level.
    Form(u8),
}

/// What functions are searched for.
#[derive(Debug, Drop)]
pub enum Search {
    /// Those that are never used.
    Dead,
    /// The members of the unit of this module.
    Members(Bytes),
}

/// An item, its place, and what is made of it.
#[derive(Drop)]
pub struct Subject {
    pub at: Place,
    pub item: Rc<Item>,
    pub aim: Aim,
}

/// An item, its place, the index, and what each of its paths leads to.
#[derive(Drop)]
pub struct Resolved {
    pub at: Place,
    pub item: Rc<Item>,
    pub index: Rc<Indexed>,
    pub found: List<Found>,
}

/// A search: the calls that are known, how far it has come by them, the function whose calls are wanted, and how many more
/// may be asked for.
#[derive(Drop)]
pub struct Calling {
    pub search: Search,
    pub index: Rc<Indexed>,
    pub calls: List<(Place, List<Place>)>,
    pub walk: Walk,
    pub wanted: Place,
    pub left: usize,
    pub ghost is: { ∥ IsAsking search index.value calls walk wanted ∥₁ },
}

/// A constant: those that it reaches and that are known, the next, those that are left, and how many more may be asked for.
#[derive(Drop)]
pub struct Settling {
    pub at: Place,
    pub index: Rc<Indexed>,
    pub known: Known,
    pub next: Place,
    pub more: Left,
    pub left: usize,
}

/// The check of an item, which reads the signatures of the items that its paths lead to.
#[derive(Drop)]
pub struct Checking {
    pub of: Resolved,
    pub each: Each<Sig>,
}

/// The check of a constant whose value is missing.
#[derive(Drop)]
pub struct Valuing {
    pub of: Resolved,
    pub sigs: List<(Place, Sig)>,
}

/// The form of a function, which reads what its paths lead to.
#[derive(Drop)]
pub struct Forming {
    pub of: Resolved,
    pub level: u8,
    pub each: Each<Use>,
}

/// The object of a unit, which reads the forms of its members.
#[derive(Drop)]
pub struct Gathering {
    pub unit: Bytes,
    pub each: Each<Ir>,
}

/// A query on its way: the value that it waits for, or its own.
#[derive(Drop)]
pub enum State {
    Done(Bytes),
    /// It waits for the text, for its index.
    Index,
    /// It waits for the text, for the item at a place.
    Item(Place),
    /// It waits for the item, for its signature.
    Sig(Place),
    /// It waits for the item.
    Subject(Place, Aim),
    /// It waits for the index, by which the item is resolved.
    Resolve(Subject),
    /// It waits for the index, whose functions it searches.
    Search(Search),
    /// It waits for the calls of a function.
    Calls(Calling),
    /// It waits for the item of a constant.
    Const(Settling),
    /// It waits for a signature.
    Check(Checking),
    /// It waits for a constant's value.
    Value(Valuing),
    /// It waits for a signature, or for a constant's value.
    Form(Forming),
    /// It waits for the members of a unit.
    Members(Bytes),
    /// It waits for the form of a member.
    Object(Gathering),
}
