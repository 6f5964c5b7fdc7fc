//! What a text is answered.

use inc_base::Bytes;
use rs_text::{TextFault, read_text};
use rs_tree::Crate;
use std::alloc::Global;

/// A text is a tree, or has a fault at a line and a column.
#[derive(Clone, Copy, Debug, PartialEq, Eq)]
pub enum Answer {
    Tree,
    Lexing(u32, u32),
    Nesting(u32, u32),
    Syntax(u32, u32),
    Twice(u32, u32),
    Memory,
}

fn of_fault(fault: &TextFault) -> Answer {
    match fault {
        TextFault::Byte(at) => Answer::Lexing(at.line, at.column),
        TextFault::Nesting(at) => Answer::Nesting(at.line, at.column),
        TextFault::Syntax(at) => Answer::Syntax(at.line, at.column),
        TextFault::Twice(at, _) => Answer::Twice(at.line, at.column),
        TextFault::Memory => Answer::Memory,
    }
}

/// The tree of a text, or its fault.
pub fn tree_of(alloc: Global, text: &str) -> Result<Crate, Answer> {
    match read_text(alloc, text.as_bytes()) {
        Ok(tree) => Ok(tree),
        Err(fault) => Err(of_fault(&fault)),
    }
}

/// What a text is answered.
pub fn answer_of(alloc: Global, text: &str) -> Answer {
    match tree_of(alloc, text) {
        Ok(_) => Answer::Tree,
        Err(fault) => fault,
    }
}

/// The name that a text defines twice.
pub fn name_twice(alloc: Global, text: &str) -> Option<Bytes> {
    match read_text(alloc, text.as_bytes()) {
        Err(TextFault::Twice(_, name)) => Some(name),
        _ => None,
    }
}
