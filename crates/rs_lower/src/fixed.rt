//! What expressions without locals and calls come to.

ghost use Rattle.std.specs.Prelude.{◌≡◌};
ghost use Rattle.std.specs.Option.{option_copied};
ghost use Rattle.rs_value.specs.Value.{and_then};
ghost use Rattle.rs_lower.specs.Fixed.{also, as_truth, combined, compared, joined, shown, truth_of, unary_fixed};
ghost use Rattle.rs_lower.specs.Reduced.{number_in, value_in};

use rs_tree::{ArithOp, CmpOp, Const, UnaryOp};
use rs_value::Trap;

/// What an expression without locals and calls comes to, a truth value as 1 or 0: its value, or the first fault that is met. None of
/// other expressions.
pub(crate) type Fixed = Option<Result<i64, Trap>>;

/// A constant's value as a number.
pub(crate) fn number_in(value: Option<&Const>) -> Option<i64>
    ensures { result ≡ number_in (option_copied value.entry) }
{
    match value {
        Some(Const::Int(v)) => Some(*v),
        Some(Const::Bool(b)) => Some(i64::from(*b)),
        Some(Const::Cycle) => None,
        Some(Const::Overflow) => None,
        Some(Const::DivZero) => None,
        Some(Const::Bad) => None,
        None => None,
    }
}

/// The value, where there is one.
pub(crate) fn value_in(fixed: Fixed) -> Option<i64>
    ensures { result ≡ value_in fixed }
{
    match fixed {
        None => None,
        Some(Err(_)) => None,
        Some(Ok(v)) => Some(v),
    }
}

/// A value as it is pushed.
pub(crate) fn shown(truth: bool, v: i64) -> i64
    ensures { result ≡ shown truth v }
{
    if truth { i64::from(v != 0) } else { v }
}

pub(crate) fn unary(op: UnaryOp, x: Fixed) -> Fixed
    ensures { result ≡ unary_fixed op x }
{
    match x {
        None => None,
        Some(x) => Some(rs_value::unary(op, x)),
    }
}

pub(crate) fn combine(op: ArithOp, x: Fixed, y: Fixed) -> Fixed
    ensures { result ≡ combined op x y }
{
    match (x, y) {
        (None, _) => x,
        (Some(_), None) => None,
        (Some(x), Some(y)) => Some(rs_value::combine(op, x, y)),
    }
}

pub(crate) fn compare(op: CmpOp, x: Fixed, y: Fixed) -> Fixed
    ensures { result ≡ compared op x y }
{
    match (x, y) {
        (None, _) => None,
        (Some(_), None) => None,
        (Some(x), Some(y)) => Some(rs_value::compare(op, x, y)),
    }
}

/// A chain of `&&`, or where `either` of `||`, one part on.
pub(crate) fn also(either: bool, x: Fixed, y: Fixed) -> Fixed
    ensures { result ≡ also either x y }
{
    match (x, y) {
        (None, _) => None,
        (Some(_), None) => None,
        (Some(a), Some(b)) => Some(join(either, a, truth(b))),
    }
}

fn join(either: bool, x: Result<i64, Trap>, rest: Result<i64, Trap>) -> Result<i64, Trap>
    ensures { result ≡ joined either x rest }
{
    match x {
        Err(trap) => Err(trap),
        Ok(v) => {
            if (v != 0) == either {
                Ok(i64::from(either))
            } else {
                rest
            }
        }
    }
}

fn truth(x: Result<i64, Trap>) -> Result<i64, Trap>
    ensures { result ≡ and_then x truth_of }
{
    match x {
        Err(trap) => Err(trap),
        Ok(v) => Ok(i64::from(v != 0)),
    }
}

/// What stands so far as a truth value.
pub(crate) fn as_truth(x: Fixed) -> Fixed
    ensures { result ≡ as_truth x }
{
    match x {
        None => None,
        Some(x) => Some(truth(x)),
    }
}
