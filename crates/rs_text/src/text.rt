//! The reading of a text.

ghost use Rattle.std.specs.Prelude.{◌≡◌, IfOk, IfErr, Ok};
ghost use Rattle.rs_text.specs.Text.{IsTextRefusal, text_of};

use crate::fault::{TextFault, fault_of};
use rs_lex::{LexFault, end_of, lex};
use rs_parse::parse;
use rs_tree::Crate;
use std::alloc::Global;

/// The tree of a text, or the first of its faults (docs/LANGUAGE.md, "Faults"): a byte at which nothing begins,
/// nesting over 64, syntax, a name defined twice. `Memory` is that of `lex` and of `parse`.
pub fn read_text(alloc: Global, text: &[u8]) -> Result<Crate, TextFault>
    ensures tree { IfOk result (λ tree. text_of text.now ≡ Ok tree) }
    ensures fault { IfErr result (IsTextRefusal text.now) }
{
    let tokens = match lex(alloc, text) {
        Ok(tokens) => tokens,
        Err(LexFault::At(at)) => return Err(TextFault::Byte(at)),
        Err(LexFault::Memory) => return Err(TextFault::Memory),
    };
    let end = end_of(text)?;
    match parse(alloc, tokens.as_slice(), end) {
        Ok(tree) => Ok(tree),
        Err(fault) => Err(fault_of(fault)),
    }
}
