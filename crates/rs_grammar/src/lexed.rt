//! Tokens as the lexer gives them, and places in an item and in its text.

ghost use Rattle.std.specs.Prelude.{◌≡◌, ◌↔◌, IsTrue, IfSome, IfNone, ◌<◌, ◌^◌};
ghost use Rattle.rs_grammar.specs.Lexed.{IsBefore, IsLexed, absolute};

use rs_tree::{At, Token, is_token};

/// Whether a place is before another: on an earlier line, or before it on the same line.
fn is_before(a: At, b: At) -> bool
    ensures { IsTrue result ↔ IsBefore a b }
{
    a.line < b.line || (a.line == b.line && a.column < b.column)
}

/// Whether these can be the tokens of a text that ends at `end`: the text of each is a token, and each begins
/// before the next, the last one before the end (docs/LANGUAGE.md, "Tokens").
pub fn are_lexed(tokens: &[Token], end: At) -> bool
    ensures { IsTrue result ↔ IsLexed tokens.now end }
{
    let mut rest = tokens;
    while let Some((token, after)) = rest.split_first() {
        let next = after.first().map_or(end, |first| first.at);
        if !is_token(token.text.as_slice()) || !is_before(token.at, next) {
            return false;
        }
        rest = after;
    }
    true
}

/// The place in a text that is seen from `base` as this one. None exactly where its line or its column
/// is past `u32`, which no place of a text is.
pub fn absolute(base: At, at: At) -> Option<At>
    ensures some { IfSome result (λ place. place ≡ absolute base at) }
    ensures none { IfNone result ((absolute base at).line < 2 ^ 32 → (absolute base at).column < 2 ^ 32 → ⊥) }
{
    let column = if at.line == 0 {
        base.column.checked_add(at.column)?
    } else {
        at.column
    };
    Some(At {
        line: base.line.checked_add(at.line)?,
        column,
    })
}
