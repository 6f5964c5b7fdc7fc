//! Types where the text names them.

ghost use Rattle.rs_grammar.specs.Grammar.{Nt, Opt, TypeName, Typing, Gives};
ghost use Rattle.rs_reader.specs.Reading.{Reading};

use crate::fault::Fault;
use crate::tokens::Tokens;
use rs_tree::{Kind, Typ};

/// A type. `Syntax` where none comes next.
pub fn type_name(tokens: &mut Tokens<'_>) -> Result<Typ, Fault>
    ensures { Reading (Nt TypeName) tokens.old result tokens.new }
{
    if tokens.sees(Kind::Int) {
        tokens.take(Kind::Int);
        return Ok(Typ::Int);
    }
    tokens.expect(Kind::Bool)?;
    Ok(Typ::Bool)
}

fn typing(tokens: &mut Tokens<'_>) -> Result<Typ, Fault>
    ensures { Reading (Nt Typing) tokens.old result tokens.new }
{
    tokens.expect(Kind::Colon)?;
    type_name(tokens)
}

/// The type of a variable with its `:`, where it is given. `Syntax` where a `:` is followed by no type.
pub fn optional_typing(tokens: &mut Tokens<'_>) -> Result<Option<Typ>, Fault>
    ensures { Reading (Opt (Nt Typing)) tokens.old result tokens.new }
{
    if !tokens.sees(Kind::Colon) {
        return Ok(None);
    }
    let typ = typing(tokens)?;
    Ok(Some(typ))
}

fn gives(tokens: &mut Tokens<'_>) -> Result<Typ, Fault>
    ensures { Reading (Nt Gives) tokens.old result tokens.new }
{
    tokens.expect(Kind::Arrow)?;
    type_name(tokens)
}

/// The type of a function's value with its `->`, where it has one. `Syntax` where a `->` is followed by no type.
pub fn optional_gives(tokens: &mut Tokens<'_>) -> Result<Option<Typ>, Fault>
    ensures { Reading (Opt (Nt Gives)) tokens.old result tokens.new }
{
    if !tokens.sees(Kind::Arrow) {
        return Ok(None);
    }
    let typ = gives(tokens)?;
    Ok(Some(typ))
}
