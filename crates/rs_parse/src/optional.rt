//! An expression that may be left out.

ghost use Rattle.rs_grammar.specs.Grammar.{Nt, Opt, Expression};
ghost use Rattle.rs_reader.specs.Reading.{Reading};

use crate::expression::expression;
use rs_reader::{Fault, Tokens};
use rs_tree::Expr;
use std::alloc::Global;

/// An expression, where one begins here.
pub(crate) fn optional_expression(
    alloc: Global,
    tokens: &mut Tokens<'_>,
) -> Result<Option<Expr>, Fault>
    ensures { Reading (Opt (Nt Expression)) tokens.old result tokens.new }
{
    if !tokens.sees_expression() {
        return Ok(None);
    }
    let value = expression(alloc, tokens)?;
    Ok(Some(value))
}
