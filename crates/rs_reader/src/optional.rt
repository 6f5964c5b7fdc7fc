//! A token that may be left out.

ghost use Rattle.std.specs.Prelude.{Ok};
ghost use Rattle.rs_grammar.specs.Grammar.{Opt, Tok};
ghost use Rattle.rs_reader.specs.Reading.{Reading};

use crate::lexeme::Lexeme;
use crate::tokens::Tokens;
use rs_tree::Kind;

/// The next token, where it is of this kind.
pub fn optional_token<'a>(tokens: &mut Tokens<'a>, kind: Kind) -> Option<Lexeme<'a>>
    ensures { Reading (Opt (Tok kind)) tokens.old (Ok result) tokens.new }
{
    if !tokens.sees(kind) {
        return None;
    }
    let token = tokens.take(kind);
    Some(token)
}
