ghost use Rattle.std.specs.Prelude.{◌≡◌, Ok};
ghost use Rattle.rs_value.specs.Value.{and_then, arithmetic as arithmetic_of, unary as unary_of, holds, number_of, given};
ghost use Rattle.rs_value.specs.Chains.{also, either};

use crate::trap::Trap;
use rs_tree::{ArithOp, CmpOp, UnaryOp};

/// The value of a path that has this value, or `NoValue` where it has none.
pub fn given(value: Option<i64>) -> Result<i64, Trap>
    ensures { result ≡ given value }
{
    match value {
        None => Err(Trap::NoValue),
        Some(v) => Ok(v),
    }
}

pub(crate) fn truth(holds: bool) -> i64
    ensures { result ≡ number_of holds }
{
    if holds { 1 } else { 0 }
}

/// What an operator gives of what its operand comes to: `!` of 0 is 1 and of any other number 0, `-` may give `Overflow`, and a fault
/// stays (docs/LANGUAGE.md, "Values").
pub fn unary(op: UnaryOp, x: Result<i64, Trap>) -> Result<i64, Trap>
    ensures { result ≡ and_then x (unary_of op) }
{
    match x {
        Err(trap) => Err(trap),
        Ok(x) => match op {
            UnaryOp::Negate => x.checked_neg().ok_or(Trap::Overflow),
            UnaryOp::Not => Ok(truth(x == 0)),
        },
    }
}

/// What a comparison gives, 1 where it holds and else 0, or the first fault of its two sides.
pub fn compare(op: CmpOp, x: Result<i64, Trap>, y: Result<i64, Trap>) -> Result<i64, Trap>
    ensures { result ≡ and_then x (λ a. and_then y (λ b. Ok (number_of (holds op a b)))) }
{
    match (x, y) {
        (Err(trap), _) => Err(trap),
        (Ok(_), Err(trap)) => Err(trap),
        (Ok(x), Ok(y)) => Ok(truth(is_so(op, x, y))),
    }
}

fn is_so(op: CmpOp, x: i64, y: i64) -> bool
    ensures { result ≡ holds op x y }
{
    match op {
        CmpOp::Equal => x == y,
        CmpOp::NotEqual => x != y,
        CmpOp::Less => x < y,
        CmpOp::Greater => x > y,
        CmpOp::AtMost => x <= y,
        CmpOp::AtLeast => x >= y,
    }
}

/// What arithmetic gives: the first fault of its two sides, else the number; `DivZero` of a division or a remainder by 0, `Overflow`
/// where the number, or of a remainder the division, leaves the numbers of 64 bits (docs/LANGUAGE.md, "Values").
pub fn combine(op: ArithOp, x: Result<i64, Trap>, y: Result<i64, Trap>) -> Result<i64, Trap>
    ensures { result ≡ and_then x (λ a. and_then y (arithmetic_of op a)) }
{
    match (x, y) {
        (Err(trap), _) => Err(trap),
        (Ok(_), Err(trap)) => Err(trap),
        (Ok(x), Ok(y)) => arithmetic(op, x, y),
    }
}

fn arithmetic(op: ArithOp, x: i64, y: i64) -> Result<i64, Trap>
    ensures { result ≡ arithmetic_of op x y }
{
    match op {
        ArithOp::Add => x.checked_add(y).ok_or(Trap::Overflow),
        ArithOp::Sub => x.checked_sub(y).ok_or(Trap::Overflow),
        ArithOp::Mul => x.checked_mul(y).ok_or(Trap::Overflow),
        ArithOp::Div => {
            if y == 0 {
                return Err(Trap::DivZero);
            }
            x.checked_div(y).ok_or(Trap::Overflow)
        }
        ArithOp::Rem => {
            if y == 0 {
                return Err(Trap::DivZero);
            }
            x.checked_rem(y).ok_or(Trap::Overflow)
        }
    }
}

// What stands so far in a chain of `&&`, and one part more.
pub(crate) fn also(so_far: Result<i64, Trap>, next: Result<i64, Trap>) -> Result<i64, Trap>
    ensures { result ≡ also so_far next }
{
    match (so_far, next) {
        (Err(trap), _) => Err(trap),
        (Ok(0), _) => Ok(0),
        (Ok(_), Err(trap)) => Err(trap),
        (Ok(_), Ok(v)) => Ok(truth(v != 0)),
    }
}

// The same for `||`.
pub(crate) fn either(so_far: Result<i64, Trap>, next: Result<i64, Trap>) -> Result<i64, Trap>
    ensures { result ≡ either so_far next }
{
    match (so_far, next) {
        (Err(trap), _) => Err(trap),
        (Ok(0), Err(trap)) => Err(trap),
        (Ok(0), Ok(v)) => Ok(truth(v != 0)),
        (Ok(_), _) => Ok(1),
    }
}
