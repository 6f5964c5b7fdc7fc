ghost use Rattle.std.specs.Prelude.{◌≡◌, ◌||◌, IfOk, is_none, map};
ghost use Rattle.std.specs.List.{list_any};
ghost use Rattle.rs_tree.specs.Plain.{exp, definition};
ghost use Rattle.rs_const.specs.Constants.{const_of, const_wrongs, given_by, is_some_wrong, number, worth};
ghost use Rattle.rs_const.specs.State.{number_at};

use crate::known::named;
use inc_base::{List, Memory};
use rs_lookup::{Places, Scope};
use rs_tree::{Body, Const, Expr, Found, Typ};
use rs_types::{Answers, Sigs, Typer};
use rs_value::{Trap, value_of};
use std::alloc::Global;

// The value of a constant, where these are the values of what its paths lead to.
pub(crate) fn worth<'a>(
    alloc: Global,
    sigs: &Sigs<'a>,
    body: &'a Body,
    found: &'a [Found],
    given: &[Option<i64>],
) -> Result<Const, Memory>
    ensures { IfOk result (λ c. c ≡ worth sigs.now (definition body.now) found.now given.now) }
{
    match body {
        Body::Func { .. } => Ok(Const::Bad),
        Body::Const { typ, value } => {
            let wrong = is_wrong(alloc, sigs, *typ, value, found)?;
            let lacks = lacks_value(given);
            if wrong || lacks {
                return Ok(Const::Bad);
            }
            Ok(const_of(*typ, value_of(value, given)))
        }
    }
}

// Whether something is wrong in the expression itself.
fn is_wrong<'a>(
    alloc: Global,
    sigs: &Sigs<'a>,
    typ: Typ,
    value: &'a Expr,
    found: &'a [Found],
) -> Result<bool, Memory>
    ensures { IfOk result (λ b. b ≡ is_some_wrong (const_wrongs sigs.now typ (exp value.now) found.now)) }
{
    let mut typer = Typer {
        alloc,
        constant: true,
        sigs,
        scope: Scope::new(alloc),
        locals: List::new(alloc),
        answers: Answers::new(found),
        diags: List::new(alloc),
        reads: List::new(alloc),
    };
    let _fits = typer.needed(value, typ)?;
    Ok(typer.diags.len() != 0)
}

fn lacks_value(given: &[Option<i64>]) -> bool
    ensures { result ≡ list_any is_none given.now }
{
    given.iter().any(|value| value.is_none())
}

fn const_of(typ: Typ, outcome: Result<i64, Trap>) -> Const
    ensures { result ≡ const_of typ outcome }
{
    match (typ, outcome) {
        (Typ::Unit, Ok(_)) => Const::Bad,
        (Typ::Int, Ok(value)) => Const::Int(value),
        (Typ::Bool, Ok(value)) => Const::Bool(value != 0),
        (_, Err(Trap::Overflow)) => Const::Overflow,
        (_, Err(Trap::DivZero)) => Const::DivZero,
        (_, Err(Trap::NoValue)) => Const::Bad,
    }
}

// The values of what paths lead to, of those that are known so far.
pub(crate) fn given_by<'a>(
    alloc: Global,
    places: &Places<'a>,
    found: &'a [Found],
    values: &[Option<Const>],
) -> Result<Vec<Option<i64>>, Memory>
    ensures { IfOk result (λ its. its.items ≡ given_by (number_at values.now) places.now found.now) }
{
    let mut given = Vec::with_capacity(alloc, found.len())?;
    for answer in found {
        given.push(number_at(values, named(places, answer)))?;
    }
    Ok(given)
}

fn number_at(values: &[Option<Const>], at: Option<usize>) -> Option<i64>
    ensures { result ≡ Rattle.std.specs.Prelude.option_and_then (number_at values.now) at }
{
    match at {
        None => None,
        Some(at) => match values.get(at) {
            Some(Some(value)) => number(*value),
            Some(None) => None,
            None => None,
        },
    }
}

fn number(value: Const) -> Option<i64>
    ensures { result ≡ number value }
{
    match value {
        Const::Int(value) => Some(value),
        Const::Bool(true) => Some(1),
        Const::Bool(false) => Some(0),
        Const::Cycle => None,
        Const::Overflow => None,
        Const::DivZero => None,
        Const::Bad => None,
    }
}
