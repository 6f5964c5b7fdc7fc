//! The body of a function.

ghost use Rattle.rs_parse.specs.Blocks.{ReadsOne};
ghost use Rattle.rs_grammar.specs.Grammar.{Body, Braced, Nt};
ghost use Rattle.rs_reader.specs.Reading.{Reading};

use crate::expression::expression;
use crate::statement::{assignment, worded};
use rs_reader::{Fault, Tokens};
use rs_tree::{Expr, Kind, Stmt};
use sqlite_items::Items;
use std::alloc::Global;

/// A turn of a body: a statement, or the expression at its end.
#[derive(Drop)]
pub(crate) enum Turn {
    Whole(Stmt),
    Last(Expr),
}

fn one_more(alloc: Global, tokens: &mut Tokens<'_>) -> Result<Turn, Fault>
    ensures { ReadsOne tokens.old result tokens.new }
{
    if tokens.sees_worded() {
        let found = worded(alloc, tokens)?;
        return Ok(Turn::Whole(found));
    }
    if tokens.sees_assignment() {
        let found = assignment(alloc, tokens)?;
        return Ok(Turn::Whole(found));
    }
    let value = expression(alloc, tokens)?;
    if !tokens.sees(Kind::Semicolon) {
        return Ok(Turn::Last(value));
    }
    tokens.take(Kind::Semicolon);
    Ok(Turn::Whole(Stmt::Eval(value)))
}

fn body(alloc: Global, tokens: &mut Tokens<'_>) -> Result<(Items<Stmt>, Option<Expr>), Fault>
    ensures { Reading (Nt Body) tokens.old result tokens.new }
{
    let mut found = Items::new(alloc);
    'turns: while tokens.sees_statement() {
        match one_more(alloc, tokens)? {
            Turn::Whole(stmt) => found.push(stmt)?,
            Turn::Last(tail) => return Ok((found, Some(tail))),
        }
    }
    Ok((found, None))
}

/// The body in its braces.
pub(crate) fn braced(
    alloc: Global,
    tokens: &mut Tokens<'_>,
) -> Result<(Items<Stmt>, Option<Expr>), Fault>
    ensures { Reading (Nt Braced) tokens.old result tokens.new }
{
    tokens.expect(Kind::LeftBrace)?;
    let found = body(alloc, tokens)?;
    tokens.expect(Kind::RightBrace)?;
    Ok(found)
}
