//! How deep brackets nest.

ghost use Rattle.std.specs.Prelude.{◌≡◌, ◌≤◌, MatchOption};
ghost use Rattle.rs_grammar.specs.Lexeme.{lexemes, token_kinds};
ghost use Rattle.rs_grammar.specs.Nesting.{IsShallow, IsTooDeep, open_after};

use rs_tree::{At, Kind, Token};

/// How many brackets may be open at once (docs/LANGUAGE.md, "Faults").
pub const DEEPEST: u32 = 64;

/// The place of the first `(` or `{` with which more than `DEEPEST` are open, or None where none is. A closing bracket
/// of either kind closes one that is open, where there is one (docs/LANGUAGE.md, "Faults").
pub fn first_too_deep(tokens: &[Token], kinds: &[Kind]) -> Option<At>
    requires { kinds.now ≡ token_kinds tokens.now }
    ensures { MatchOption result (IsShallow (lexemes tokens.now)) (IsTooDeep (lexemes tokens.now)) }
{
    let mut open = 0;
    for (i, kind) in kinds.iter().enumerate() {
        open = open_after(open, *kind);
        if open > DEEPEST {
            return Some(tokens[i].at);
        }
    }
    None
}

/// How many brackets are open after a token.
fn open_after(count: u32, kind: Kind) -> u32
    requires { count ≤ 64 }
    ensures { result ≡ open_after count kind }
{
    match kind {
        Kind::LeftParen | Kind::LeftBrace => count + 1,
        Kind::RightParen | Kind::RightBrace => count.saturating_sub(1),
        _ => count,
    }
}
