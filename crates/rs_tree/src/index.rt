ghost use Rattle.std.proofs.Common.{rules};

use crate::place::At;
use crate::tree::Typ;
use inc_base::{Bytes, Copied, List};

/// The modules and items of a text, in order of the text.
#[derive(Clone, Debug, Drop)]
pub struct Index {
    pub modules: List<Bytes>,
    pub items: List<IndexItem>,
}

impl Copied for Index {
    ghost same = { Prim.search rules };
}

/// An item as the index has it. The module of the root is empty. The kind is 0 for a constant, 1 for a
/// function and 2 for one with `#[inline]`; `main` of the root is always 1.
#[derive(Clone, Debug, Drop)]
pub struct IndexItem {
    pub module: Bytes,
    pub name: Bytes,
    pub kind: u8,
    pub public: bool,
}

impl Copied for IndexItem {
    ghost same = { Prim.search rules };
}

/// What a text with a fault has in place of an index: the place of the fault in the text, which fault it is, and
/// the name that is there twice, or no byte where it is another fault.
#[derive(Clone, Debug, Drop)]
pub struct IndexFault {
    pub at: At,
    pub code: TextFault,
    pub name: Bytes,
}

impl Copied for IndexFault {
    ghost same = { Prim.search rules };
}

/// The faults of a whole text.
#[derive(Clone, Copy, Debug, PartialEq, Eq)]
pub enum TextFault {
    /// A byte at which no token begins.
    Byte,
    /// A bracket with which too many are open.
    Nesting,
    /// A token, or the end, that can't stand there.
    Syntax,
    /// A name that an earlier item of the module, or an earlier module, has.
    Twice,
}

impl Copied for TextFault {
    ghost same = { Prim.search rules };
}

/// What the uses of an item need to know of it: its kind as in the index, the types of its parameters,
/// and the type that it has or gives.
#[derive(Clone, Debug, Drop, PartialEq, Eq)]
pub struct Sig {
    pub kind: u8,
    pub public: bool,
    pub params: List<Typ>,
    pub gives: Typ,
}

impl Copied for Sig {
    ghost same = { Prim.search rules };
}
