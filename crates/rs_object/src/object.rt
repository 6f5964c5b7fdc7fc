ghost use Rattle.std.proofs.Common.{rules};

use inc_base::{Bytes, Copied, List};

/// A function of an object (docs/FORMATS.md, "Objects").
#[derive(Clone, Debug, Drop)]
pub struct Func {
    /// The text that other functions call it by.
    pub symbol: Bytes,
    pub params: u16,
    /// How many slots it has, its parameters among them.
    pub slots: u16,
    pub code: Bytes,
    /// At which offsets of the code a linker writes the number of which symbol's function.
    pub relocs: List<(u32, Bytes)>,
}

impl Copied for Func {
    ghost same = { Prim.search rules };
}

/// The functions of a unit, in member order, and the unit's text (docs/FORMATS.md, "Objects").
#[derive(Clone, Debug, Drop)]
pub struct Object {
    pub unit: Bytes,
    pub funcs: List<Func>,
}

impl Copied for Object {
    ghost same = { Prim.search rules };
}
