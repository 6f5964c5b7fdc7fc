ghost use Rattle.std.proofs.Common.{rules};

use inc_base::{Bytes, Copied};

/// A place in a text: a line and a column, which count from 1.
///
/// In an item, and in what it holds, a place is relative to the item: the line is the number of lines
/// after the item's first, and the column counts from 0 at the item's first byte on its first line, and
/// is the plain column, from 1, on later lines (docs/FORMATS.md, "Queries").
#[derive(Clone, Copy, Debug, PartialEq, Eq, PartialOrd, Ord)]
pub struct At {
    pub line: u32,
    pub column: u32,
}

impl Copied for At {
    ghost same = { Prim.search rules };
}

/// The place of an item: its module, which is empty for the root, and its name. Places are ordered by these,
/// each by its bytes.
#[derive(Clone, Debug, Drop, PartialEq, Eq, PartialOrd, Ord)]
pub struct Place {
    pub module: Bytes,
    pub name: Bytes,
}

impl Copied for Place {
    ghost same = { Prim.search rules };
}
