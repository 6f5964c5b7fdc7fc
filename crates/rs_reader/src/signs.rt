//! The signs of operands, and literals.

ghost use Rattle.rs_grammar.specs.Grammar.{CmpSign, Literal, Nt, ProductSign, SumSign, UnarySign};
ghost use Rattle.rs_reader.specs.Reading.{Reading};

use crate::fault::Fault;
use crate::forms::{number_of, truth_of};
use crate::tokens::Tokens;
use rs_tree::{ArithOp, At, CmpOp, Expr, Kind, UnaryOp};

/// The sign of a comparison. `Syntax` where none comes next.
pub fn cmp_sign(tokens: &mut Tokens<'_>) -> Result<CmpOp, Fault>
    ensures { Reading (Nt CmpSign) tokens.old result tokens.new }
{
    if tokens.sees(Kind::Equal) {
        tokens.take(Kind::Equal);
        return Ok(CmpOp::Equal);
    }
    if tokens.sees(Kind::NotEqual) {
        tokens.take(Kind::NotEqual);
        return Ok(CmpOp::NotEqual);
    }
    if tokens.sees(Kind::Less) {
        tokens.take(Kind::Less);
        return Ok(CmpOp::Less);
    }
    if tokens.sees(Kind::Greater) {
        tokens.take(Kind::Greater);
        return Ok(CmpOp::Greater);
    }
    if tokens.sees(Kind::AtMost) {
        tokens.take(Kind::AtMost);
        return Ok(CmpOp::AtMost);
    }
    tokens.expect(Kind::AtLeast)?;
    Ok(CmpOp::AtLeast)
}

/// The sign between two parts of a sum. `Syntax` where none comes next.
pub fn sum_sign(tokens: &mut Tokens<'_>) -> Result<ArithOp, Fault>
    ensures { Reading (Nt SumSign) tokens.old result tokens.new }
{
    if tokens.sees(Kind::Plus) {
        tokens.take(Kind::Plus);
        return Ok(ArithOp::Add);
    }
    tokens.expect(Kind::Minus)?;
    Ok(ArithOp::Sub)
}

/// The sign between two parts of a product. `Syntax` where none comes next.
pub fn product_sign(tokens: &mut Tokens<'_>) -> Result<ArithOp, Fault>
    ensures { Reading (Nt ProductSign) tokens.old result tokens.new }
{
    if tokens.sees(Kind::Star) {
        tokens.take(Kind::Star);
        return Ok(ArithOp::Mul);
    }
    if tokens.sees(Kind::Slash) {
        tokens.take(Kind::Slash);
        return Ok(ArithOp::Div);
    }
    tokens.expect(Kind::Percent)?;
    Ok(ArithOp::Rem)
}

/// The sign before an operand, with its place. `Syntax` where none comes next.
pub fn unary_sign(tokens: &mut Tokens<'_>) -> Result<(At, UnaryOp), Fault>
    ensures { Reading (Nt UnarySign) tokens.old result tokens.new }
{
    if tokens.sees(Kind::Minus) {
        let sign = tokens.take(Kind::Minus);
        return Ok((sign.at(), UnaryOp::Negate));
    }
    let sign = tokens.expect(Kind::Not)?;
    Ok((sign.at(), UnaryOp::Not))
}

/// A number, `true` or `false`. `Syntax` where none comes next.
pub fn literal(tokens: &mut Tokens<'_>) -> Result<Expr, Fault>
    ensures { Reading (Nt Literal) tokens.old result tokens.new }
{
    if tokens.sees(Kind::Number) {
        let number = tokens.take(Kind::Number);
        return Ok(number_of(&number));
    }
    if tokens.sees(Kind::True) {
        let word = tokens.take(Kind::True);
        return Ok(truth_of(&word, true));
    }
    let word = tokens.expect(Kind::False)?;
    Ok(truth_of(&word, false))
}
