//! A text that is read once.

ghost use Rattle.std.specs.Prelude.{◌≡◌, IfOk};
ghost use Rattle.rs_queries.specs.Reading.{IsReading};

use inc_base::Memory;
use rs_text::{TextFault, read_text};
use rs_tree::Crate;
use std::alloc::Global;

/// A text as it was read: its tree, or the first of its faults (docs/LANGUAGE.md, "Faults").
#[derive(Drop)]
pub enum Reading {
    Tree(Crate),
    /// Never want of memory, where it is the reading of a text.
    Fault(TextFault),
}

/// The reading of a text. `Memory` where there is none for its tokens or its tree.
pub fn read(alloc: Global, text: &[u8]) -> Result<Reading, Memory>
    ensures { IfOk result (IsReading text.now) }
{
    match read_text(alloc, text) {
        Ok(tree) => Ok(Reading::Tree(tree)),
        Err(TextFault::Memory) => Err(Memory),
        Err(fault) => Ok(Reading::Fault(fault)),
    }
}
