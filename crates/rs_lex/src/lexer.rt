//! The lexer.

ghost use Rattle.std.specs.Prelude.{◌≡◌, ◌++◌, IfOk, IfErr, OnOk};
ghost use Rattle.rs_lex.specs.Faults.{IsLexRefusal};
ghost use Rattle.rs_lex.specs.Ranges.{AreInRange};
ghost use Rattle.rs_lex.specs.Steps.{added};
ghost use Rattle.rs_lex.specs.Tokens.{HasTokens};

use crate::fault::LexFault;
use crate::place::{FIRST, place_after};
use crate::step::next_step;
use inc_base::{Bytes, List, MOST, Memory};
use rs_tree::{At, Token};
use std::alloc::Global;

/// The tokens of a text, with their places, or its first fault (docs/LANGUAGE.md, "Tokens").
///
/// `At` is the place of the first byte at which no token, separator or comment begins. `Memory` comes for want
/// of memory, also where the text is too long for a list.
pub fn lex(alloc: Global, text: &[u8]) -> Result<List<Token>, LexFault>
    ensures tokens { IfOk result (HasTokens text.now) }
    ensures ranges { IfOk result AreInRange }
    ensures fault { IfErr result (IsLexRefusal text.now) }
{
    if text.len() >= MOST {
        return Err(LexFault::Memory);
    }
    let mut tokens = List::new(alloc);
    let mut at = FIRST;
    let mut rest = text;
    while !rest.is_empty() {
        let Some(step) = next_step(rest) else {
            return Err(LexFault::At(at));
        };
        let (front, after) = rest.split_at(step.length);
        if keep(&mut tokens, at, front, step.token).is_err() {
            return Err(LexFault::Memory);
        }
        at = place_after(at, front);
        rest = after;
    }
    Ok(tokens)
}

/// Adds a piece of the text, where it is a token.
fn keep(tokens: &mut List<Token>, at: At, text: &[u8], token: bool) -> Result<(), Memory>
    ensures { OnOk result (tokens.new ≡ tokens.old ++ added token at text.now) }
{
    if !token {
        return Ok(());
    }
    let text = Bytes::of(tokens.allocator(), text)?;
    tokens.push(Token { at, text })
}
