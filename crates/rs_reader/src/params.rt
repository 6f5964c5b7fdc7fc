//! The parameters of a function.

ghost use Rattle.std.specs.Prelude.{◌≡◌, ◌∷◌, IfOk};
ghost use Rattle.rs_grammar.specs.Lexeme.{Lexeme};
ghost use Rattle.rs_grammar.specs.Grammar as grammar;
ghost use Rattle.rs_grammar.specs.Grammar.{Nt, OtherParams, Params, Parameters, Opt, made};
ghost use Rattle.rs_reader.specs.Reading.{Reading, ReadingAs};

use crate::fault::Fault;
use crate::lexeme::Lexeme;
use crate::tokens::Tokens;
use crate::typing::type_name;
use inc_base::{List, Memory};
use rs_tree::{Kind, Param, Typ};
use std::alloc::Global;

fn named(name: &Lexeme<'_>, typ: Typ) -> Result<Param, Memory>
    ensures { IfOk result (λ p. (colon : Lexeme) → p ≡ made grammar.Param (name.now, (colon, typ))) }
{
    Ok(Param {
        at: name.at(),
        name: name.text()?,
        typ,
    })
}

fn param(tokens: &mut Tokens<'_>) -> Result<Param, Fault>
    ensures { Reading (Nt grammar.Param) tokens.old result tokens.new }
{
    let name = tokens.expect(Kind::Name)?;
    tokens.expect(Kind::Colon)?;
    let typ = type_name(tokens)?;
    Ok(named(&name, typ)?)
}

/// The first, which was read, and the parameters after it. A comma may end them.
fn with_others(alloc: Global, first: Param, tokens: &mut Tokens<'_>) -> Result<List<Param>, Fault>
    ensures { ReadingAs (Nt OtherParams) (λ more. first ∷ more) tokens.old result tokens.new }
{
    let mut found = List::new(alloc);
    found.push(first)?;
    'turns: while tokens.sees(Kind::Comma) {
        tokens.take(Kind::Comma);
        if !tokens.sees(Kind::Name) {
            return Ok(found);
        }
        found.push(param(tokens)?)?;
    }
    Ok(found)
}

fn params(alloc: Global, tokens: &mut Tokens<'_>) -> Result<List<Param>, Fault>
    ensures { Reading (Nt Params) tokens.old result tokens.new }
{
    let first = param(tokens)?;
    let found = with_others(alloc, first, tokens)?;
    Ok(found)
}

fn optional_params(alloc: Global, tokens: &mut Tokens<'_>) -> Result<Option<List<Param>>, Fault>
    ensures { Reading (Opt (Nt Params)) tokens.old result tokens.new }
{
    if !tokens.sees(Kind::Name) {
        return Ok(None);
    }
    let found = params(alloc, tokens)?;
    Ok(Some(found))
}

fn found_params(alloc: Global, found: Option<List<Param>>) -> List<Param>
    ensures { (left right : Lexeme) → result ≡ made Parameters (left, (found, right)) }
{
    match found {
        None => List::new(alloc),
        Some(found) => found,
    }
}

/// The parameters in their parentheses. `Syntax` at the first token that can't stand there, which isn't taken;
/// `Memory` for want of memory.
pub fn parameters(alloc: Global, tokens: &mut Tokens<'_>) -> Result<List<Param>, Fault>
    ensures { Reading (Nt Parameters) tokens.old result tokens.new }
{
    tokens.expect(Kind::LeftParen)?;
    let found = optional_params(alloc, tokens)?;
    tokens.expect(Kind::RightParen)?;
    let params = found_params(alloc, found);
    Ok(params)
}
