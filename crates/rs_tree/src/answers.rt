ghost use Rattle.std.proofs.Common.{rules};

use crate::place::{At, Place};
use inc_base::{Bytes, Copied};

/// A diagnostic: its place, its number (101 for E101, 201 for W201) and its text. Diagnostics are ordered by
/// these, in this order.
#[derive(Clone, Debug, Drop, PartialEq, Eq, PartialOrd, Ord)]
pub struct Diag {
    pub at: At,
    pub code: u16,
    pub text: Bytes,
}

impl Copied for Diag {
    ghost same = { Prim.search rules };
}

/// What a path leads to.
#[derive(Clone, Debug, Drop, PartialEq, Eq)]
pub enum Found {
    /// A variable or a parameter.
    Local,
    /// An item that may be used here.
    Item(Place),
    /// An item of another module that isn't public.
    Private,
    /// Nothing.
    Absent,
}

impl Copied for Found {
    ghost same = { Prim.search rules };
}

/// What a constant's expression gives.
#[derive(Clone, Copy, Debug, PartialEq, Eq)]
pub enum Const {
    Int(i64),
    Bool(bool),
    /// It needs itself.
    Cycle,
    /// A result leaves the numbers of 64 bits.
    Overflow,
    DivZero,
    /// Its expression has an error, or needs a constant without a value.
    Bad,
}

impl Copied for Const {
    ghost same = { Prim.search rules };
}
