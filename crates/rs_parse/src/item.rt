//! Items: constants and functions.

ghost use Rattle.std.specs.Prelude.{◌≡◌, IfOk, Option, List};
ghost use Rattle.std.proofs.Common.{inl};
ghost use Rattle.rs_parse.specs.Blocks.{public_constant};
ghost use Rattle.rs_grammar.specs.Grammar.{Constant, Definition, Function, Marker, Nt, Opt, made, public};
ghost use Rattle.rs_grammar.specs.Lexeme.{Lexeme};
ghost use Rattle.rs_reader.specs.Reading.{Reading, ReadingAs};

use crate::body::braced;
use crate::expression::expression;
use inc_base::{List, Memory};
use rs_reader::{
    Fault, Lexeme, Tokens, fitted, optional_gives, optional_token, parameters, type_name,
};
use rs_tree::{Body, Expr, Item, Kind, Param, Stmt, Typ};
use sqlite_items::Items;
use std::alloc::Global;

fn marker(tokens: &mut Tokens<'_>) -> Result<(), Fault>
    ensures { Reading (Nt Marker) tokens.old result tokens.new }
{
    tokens.expect(Kind::Hash)?;
    tokens.expect(Kind::LeftBracket)?;
    tokens.expect(Kind::Inline)?;
    tokens.expect(Kind::RightBracket)?;
    Ok(())
}

fn optional_marker(tokens: &mut Tokens<'_>) -> Result<Option<()>, Fault>
    ensures { Reading (Opt (Nt Marker)) tokens.old result tokens.new }
{
    if !tokens.sees(Kind::Hash) {
        return Ok(None);
    }
    marker(tokens)?;
    Ok(Some(()))
}

fn constant_of(alloc: Global, name: &Lexeme<'_>, typ: Typ, value: Expr) -> Result<Item, Memory>
    ensures { IfOk result
        (λ i. (a b c : Lexeme) → i ≡ made Constant (name.now, (a, (typ, (b, (value, c)))))) }
{
    Ok(Item {
        public: false,
        name: name.text()?,
        at: name.at(),
        tokens: List::new(alloc),
        body: Body::Const { typ, value },
    })
}

/// What follows `const`.
fn constant(alloc: Global, tokens: &mut Tokens<'_>) -> Result<Item, Fault>
    ensures { Reading (Nt Constant) tokens.old result tokens.new }
{
    let name = tokens.expect(Kind::Name)?;
    tokens.expect(Kind::Colon)?;
    let typ = type_name(tokens)?;
    tokens.expect(Kind::Assign)?;
    let value = expression(alloc, tokens)?;
    tokens.expect(Kind::Semicolon)?;
    Ok(constant_of(alloc, &name, typ, value)?)
}

fn function_of(
    alloc: Global,
    marker: Option<()>,
    public: &Option<Lexeme<'_>>,
    name: &Lexeme<'_>,
    params: List<Param>,
    gives: Option<Typ>,
    inner: (Items<Stmt>, Option<Expr>),
) -> Result<Item, Memory>
    ensures { IfOk result
        (λ i. (word : Lexeme) → i ≡ made Function (marker, (public.now, (word, (name.now, (params, (gives, inner))))))) }
{
    let (stmts, tail) = inner;
    let stmts = fitted(alloc, stmts)?;
    Ok(Item {
        public: public.is_some(),
        name: name.text()?,
        at: name.at(),
        tokens: List::new(alloc),
        body: Body::Func {
            inline: marker.is_some(),
            params,
            gives: gives.unwrap_or(Typ::Unit),
            stmts,
            tail,
        },
    })
}

fn function(alloc: Global, tokens: &mut Tokens<'_>) -> Result<Item, Fault>
    ensures { Reading (Nt Function) tokens.old result tokens.new }
{
    let marker = optional_marker(tokens)?;
    let public = optional_token(tokens, Kind::Pub);
    tokens.expect(Kind::Fn)?;
    let name = tokens.expect(Kind::Name)?;
    let params = parameters(alloc, tokens)?;
    let gives = optional_gives(tokens)?;
    let inner = braced(alloc, tokens)?;
    Ok(function_of(alloc, marker, &public, &name, params, gives, inner)?)
}

fn published(mut item: Item) -> Item
    ensures { result ≡ public item }
{
    item.public = true;
    item
}

fn public_constant(alloc: Global, tokens: &mut Tokens<'_>) -> Result<Item, Fault>
    ensures { ReadingAs public_constant (λ v. made Definition (inl v)) tokens.old result tokens.new }
{
    tokens.expect(Kind::Pub)?;
    tokens.expect(Kind::Const)?;
    let item = constant(alloc, tokens)?;
    Ok(published(item))
}

/// An item, without its tokens.
pub(crate) fn definition(alloc: Global, tokens: &mut Tokens<'_>) -> Result<Item, Fault>
    ensures { Reading (Nt Definition) tokens.old result tokens.new }
{
    if tokens.sees_pub_const() {
        return public_constant(alloc, tokens);
    }
    if tokens.sees(Kind::Const) {
        tokens.take(Kind::Const);
        return constant(alloc, tokens);
    }
    function(alloc, tokens)
}
