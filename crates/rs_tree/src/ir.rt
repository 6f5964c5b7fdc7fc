ghost use Rattle.std.proofs.Common.{rules};

use crate::place::Place;
use inc_base::{Copied, List};

/// The intermediate form of a function: whether it has `#[inline]`, how many parameters and slots it
/// has, and its instructions.
#[derive(Clone, Debug, Drop)]
pub struct Ir {
    pub inline: bool,
    pub params: u16,
    pub slots: u16,
    pub code: List<Instr>,
}

impl Copied for Ir {
    ghost same = { Prim.search rules };
}

/// An instruction (docs/FORMATS.md, "Intermediate form").
#[derive(Clone, Debug, Drop)]
pub enum Instr {
    Push(i64),
    /// A slot.
    Load(u16),
    /// A slot.
    Store(u16),
    /// An instruction without an operand, by its code.
    Plain(u8),
    /// A jump, by its code, and the number of the label that it leads to.
    Jump(u8, u16),
    /// The place of the label with this number.
    Label(u16),
    /// Whether the function has `#[inline]`, and which it is.
    Call(bool, Place),
}

impl Copied for Instr {
    ghost same = { Prim.search rules };
}
