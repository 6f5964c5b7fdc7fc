//! Expressions: a function for each form.

ghost use Rattle.rs_grammar.specs.Grammar.{AndNext, Args, Arguments, Comparison, Conjunction, Expression, Group, Nt, Opt, OrNext, OtherArgs, Primary, Product, ProductNext, Rep, Sum, SumNext, Unary, Use};
ghost use Rattle.rs_reader.specs.Reading.{Reading};

use rs_reader::{
    Fault, Tokens, all_of, and_of, arith_of, call_of, cmp_sign, compared, grouped, literal,
    or_none, or_of, path_of, product_sign, route, signed, sum_sign, unary_sign,
};
use rs_tree::{ArithOp, Expr, Kind};
use sqlite_items::Items;
use std::alloc::Global;

/// An expression.
#[cycle(expression)]
pub(crate) fn expression(alloc: Global, tokens: &mut Tokens<'_>) -> Result<Expr, Fault>
    ensures { Reading (Nt Expression) tokens.old result tokens.new }
{
    let first = conjunction(alloc, tokens)?;
    let more = or_nexts(alloc, tokens)?;
    let e = or_of(alloc, first, more)?;
    Ok(e)
}

#[cycle(expression)]
fn or_nexts(alloc: Global, tokens: &mut Tokens<'_>) -> Result<Items<Expr>, Fault>
    ensures { Reading (Rep (Nt OrNext)) tokens.old result tokens.new }
{
    let mut more = Items::new(alloc);
    'turns: while tokens.sees(Kind::Or) {
        tokens.take(Kind::Or);
        let next = conjunction(alloc, tokens)?;
        more.push(next)?;
    }
    Ok(more)
}

#[cycle(expression)]
fn conjunction(alloc: Global, tokens: &mut Tokens<'_>) -> Result<Expr, Fault>
    ensures { Reading (Nt Conjunction) tokens.old result tokens.new }
{
    let first = comparison(alloc, tokens)?;
    let more = and_nexts(alloc, tokens)?;
    let e = and_of(alloc, first, more)?;
    Ok(e)
}

#[cycle(expression)]
fn and_nexts(alloc: Global, tokens: &mut Tokens<'_>) -> Result<Items<Expr>, Fault>
    ensures { Reading (Rep (Nt AndNext)) tokens.old result tokens.new }
{
    let mut more = Items::new(alloc);
    'turns: while tokens.sees(Kind::And) {
        tokens.take(Kind::And);
        let next = comparison(alloc, tokens)?;
        more.push(next)?;
    }
    Ok(more)
}

#[cycle(expression)]
fn comparison(alloc: Global, tokens: &mut Tokens<'_>) -> Result<Expr, Fault>
    ensures { Reading (Nt Comparison) tokens.old result tokens.new }
{
    let left = sum(alloc, tokens)?;
    if !tokens.sees_comparison() {
        return Ok(left);
    }
    let sign = cmp_sign(tokens)?;
    let right = sum(alloc, tokens)?;
    let e = compared(alloc, left, sign, right)?;
    Ok(e)
}

#[cycle(expression)]
fn sum(alloc: Global, tokens: &mut Tokens<'_>) -> Result<Expr, Fault>
    ensures { Reading (Nt Sum) tokens.old result tokens.new }
{
    let first = product(alloc, tokens)?;
    let more = sum_nexts(alloc, tokens)?;
    let e = arith_of(alloc, first, more)?;
    Ok(e)
}

#[cycle(expression)]
fn sum_nexts(alloc: Global, tokens: &mut Tokens<'_>) -> Result<Items<(ArithOp, Expr)>, Fault>
    ensures { Reading (Rep (Nt SumNext)) tokens.old result tokens.new }
{
    let mut more = Items::new(alloc);
    'turns: while tokens.sees_sum_sign() {
        let sign = sum_sign(tokens)?;
        let next = product(alloc, tokens)?;
        more.push((sign, next))?;
    }
    Ok(more)
}

#[cycle(expression)]
fn product(alloc: Global, tokens: &mut Tokens<'_>) -> Result<Expr, Fault>
    ensures { Reading (Nt Product) tokens.old result tokens.new }
{
    let first = unary(alloc, tokens)?;
    let more = product_nexts(alloc, tokens)?;
    let e = arith_of(alloc, first, more)?;
    Ok(e)
}

#[cycle(expression)]
fn product_nexts(alloc: Global, tokens: &mut Tokens<'_>) -> Result<Items<(ArithOp, Expr)>, Fault>
    ensures { Reading (Rep (Nt ProductNext)) tokens.old result tokens.new }
{
    let mut more = Items::new(alloc);
    'turns: while tokens.sees_product_sign() {
        let sign = product_sign(tokens)?;
        let next = unary(alloc, tokens)?;
        more.push((sign, next))?;
    }
    Ok(more)
}

#[cycle(expression)]
fn unary(alloc: Global, tokens: &mut Tokens<'_>) -> Result<Expr, Fault>
    ensures { Reading (Nt Unary) tokens.old result tokens.new }
{
    if !tokens.sees_unary_sign() {
        let operand = primary(alloc, tokens)?;
        return Ok(operand);
    }
    let sign = unary_sign(tokens)?;
    let operand = primary(alloc, tokens)?;
    let e = signed(alloc, sign, operand)?;
    Ok(e)
}

#[cycle(expression)]
fn primary(alloc: Global, tokens: &mut Tokens<'_>) -> Result<Expr, Fault>
    ensures { Reading (Nt Primary) tokens.old result tokens.new }
{
    if tokens.sees_literal() {
        let value = literal(tokens)?;
        return Ok(value);
    }
    if tokens.sees_path() {
        let value = path_use(alloc, tokens)?;
        return Ok(value);
    }
    let value = group(alloc, tokens)?;
    Ok(value)
}

// A path, or a call.
#[cycle(expression)]
fn path_use(alloc: Global, tokens: &mut Tokens<'_>) -> Result<Expr, Fault>
    ensures { Reading (Nt Use) tokens.old result tokens.new }
{
    let path = route(tokens)?;
    if !tokens.sees(Kind::LeftParen) {
        return Ok(path_of(path));
    }
    let args = arguments(alloc, tokens)?;
    let e = call_of(path, args);
    Ok(e)
}

#[cycle(expression)]
fn arguments(alloc: Global, tokens: &mut Tokens<'_>) -> Result<Items<Expr>, Fault>
    ensures { Reading (Nt Arguments) tokens.old result tokens.new }
{
    tokens.expect(Kind::LeftParen)?;
    let found = given(alloc, tokens)?;
    tokens.expect(Kind::RightParen)?;
    let all = or_none(alloc, found);
    Ok(all)
}

#[cycle(expression)]
fn given(alloc: Global, tokens: &mut Tokens<'_>) -> Result<Option<Items<Expr>>, Fault>
    ensures { Reading (Opt (Nt Args)) tokens.old result tokens.new }
{
    if !tokens.sees_expression() {
        return Ok(None);
    }
    let found = args(alloc, tokens)?;
    Ok(Some(found))
}

#[cycle(expression)]
fn args(alloc: Global, tokens: &mut Tokens<'_>) -> Result<Items<Expr>, Fault>
    ensures { Reading (Nt Args) tokens.old result tokens.new }
{
    let first = expression(alloc, tokens)?;
    let more = other_args(alloc, tokens)?;
    let all = all_of(alloc, first, more)?;
    Ok(all)
}

// The arguments after the first. A comma may end them.
#[cycle(expression)]
fn other_args(alloc: Global, tokens: &mut Tokens<'_>) -> Result<Items<Expr>, Fault>
    ensures { Reading (Nt OtherArgs) tokens.old result tokens.new }
{
    let mut more = Items::new(alloc);
    'turns: while tokens.sees(Kind::Comma) {
        tokens.take(Kind::Comma);
        if !tokens.sees_expression() {
            return Ok(more);
        }
        let next = expression(alloc, tokens)?;
        more.push(next)?;
    }
    Ok(more)
}

#[cycle(expression)]
fn group(alloc: Global, tokens: &mut Tokens<'_>) -> Result<Expr, Fault>
    ensures { Reading (Nt Group) tokens.old result tokens.new }
{
    let left = tokens.expect(Kind::LeftParen)?;
    let inner = expression(alloc, tokens)?;
    tokens.expect(Kind::RightParen)?;
    let e = grouped(alloc, &left, inner)?;
    Ok(e)
}
