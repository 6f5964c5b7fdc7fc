//! How many labels and slots a tree needs, counted up to one past the most that a function may have.

ghost use Rattle.std.specs.Prelude.{◌≡◌, ◌+◌, ◌≤◌, ◌↔◌, length, IsTrue};
ghost use Rattle.rs_tree.specs.Plain.{exp, expressions, operations, sta, statements, choices, optional};
ghost use Rattle.rs_lower.specs.Counts.{capped, labels, labels_all, labels_by, labels_in, places, places_all, places_arms, lets, lets_all, lets_arms};

use rs_tree::{ArithOp, Expr, Form, Stmt};
use sqlite_items::Items;

/// One past the most labels, and the most slots, of a function.
const CAP: u32 = 65_536;

/// The sum of two counts.
pub(crate) fn add(a: u32, b: u32) -> u32
    requires first { a ≤ 65536 }
    requires second { b ≤ 65536 }
    ensures { result ≡ capped (a + b) }
{
    (a + b).min(CAP)
}

#[cycle(labels)]
#[tactic(auto, using(crate::proofs::Caps::caps))]
pub(crate) fn labels(e: &Expr) -> u32
    ensures { result ≡ capped (labels (exp e.now)) }
{
    match &e.form {
        Form::Number(_) => 0,
        Form::Truth(_) => 0,
        Form::Path(_) => 0,
        Form::Call(_, args) => labels_all(args.as_slice()),
        Form::Group(inner) => labels(inner.get()),
        Form::Unary(_, inner) => labels(inner.get()),
        Form::Arith(first, more) => add(labels(first.get()), labels_by(more.as_slice())),
        Form::Compare(_, a, b) => add(labels(a.get()), labels(b.get())),
        Form::And(parts) => add(2, labels_all(parts.as_slice())),
        Form::Or(parts) => add(2, labels_all(parts.as_slice())),
    }
}

#[cycle(labels)]
#[tactic(auto, using(crate::proofs::Caps::caps))]
fn labels_all(parts: &[Expr]) -> u32
    ensures { result ≡ capped (labels_all (expressions parts.now)) }
{
    let mut count = 0;
    for e in parts {
        count = add(count, labels(e));
    }
    count
}

#[cycle(labels)]
#[tactic(auto, using(crate::proofs::Caps::caps))]
fn labels_by(more: &[(ArithOp, Expr)]) -> u32
    ensures { result ≡ capped (labels_by (operations more.now)) }
{
    let mut count = 0;
    for (_, e) in more {
        count = add(count, labels(e));
    }
    count
}

pub(crate) fn labels_in(value: &Option<Expr>) -> u32
    ensures { result ≡ capped (labels_in (optional value.now)) }
{
    match value {
        None => 0,
        Some(e) => labels(e),
    }
}

#[cycle(places)]
#[tactic(auto, using(crate::proofs::Caps::caps))]
fn places(s: &Stmt) -> u32
    ensures { result ≡ capped (places (sta s.now)) }
{
    match s {
        Stmt::Let { value, .. } => labels(value),
        Stmt::Assign { value, .. } => labels(value),
        Stmt::Return { value, .. } => labels_in(value),
        Stmt::Eval(value) => labels(value),
        Stmt::Print(value) => labels(value),
        Stmt::While { cond, body } => add(add(2, labels(cond)), places_all(body.as_slice())),
        Stmt::If { arms, other } => add(1, places_arms(arms.as_slice(), other)),
    }
}

#[cycle(places)]
#[tactic(auto, using(crate::proofs::Caps::caps))]
pub(crate) fn places_all(body: &[Stmt]) -> u32
    ensures { result ≡ capped (places_all (statements body.now)) }
{
    let mut count = 0;
    for s in body {
        count = add(count, places(s));
    }
    count
}

#[cycle(places)]
#[tactic(auto, using(crate::proofs::Caps::caps))]
fn places_arms(arms: &[(Expr, Items<Stmt>)], other: &Option<Items<Stmt>>) -> u32
    ensures { result ≡ capped (places_arms (choices arms.now other.now)) }
{
    let mut count = 0;
    for arm in arms {
        count = add(
            count,
            add(add(1, labels(&arm.0)), places_all(arm.1.as_slice())),
        );
    }
    match other {
        None => count,
        Some(body) => add(count, places_all(body.as_slice())),
    }
}

#[cycle(lets)]
#[tactic(auto, using(crate::proofs::Caps::caps))]
fn lets(s: &Stmt) -> u32
    ensures { result ≡ capped (lets (sta s.now)) }
{
    match s {
        Stmt::Let { .. } => 1,
        Stmt::Assign { .. } => 0,
        Stmt::Return { .. } => 0,
        Stmt::Eval(_) => 0,
        Stmt::Print(_) => 0,
        Stmt::While { body, .. } => lets_all(body.as_slice()),
        Stmt::If { arms, other } => lets_arms(arms.as_slice(), other),
    }
}

#[cycle(lets)]
#[tactic(auto, using(crate::proofs::Caps::caps))]
pub(crate) fn lets_all(body: &[Stmt]) -> u32
    ensures { result ≡ capped (lets_all (statements body.now)) }
{
    let mut count = 0;
    for s in body {
        count = add(count, lets(s));
    }
    count
}

#[cycle(lets)]
#[tactic(auto, using(crate::proofs::Caps::caps))]
fn lets_arms(arms: &[(Expr, Items<Stmt>)], other: &Option<Items<Stmt>>) -> u32
    ensures { result ≡ capped (lets_arms (choices arms.now other.now)) }
{
    let mut count = 0;
    for arm in arms {
        count = add(count, lets_all(arm.1.as_slice()));
    }
    match other {
        None => count,
        Some(body) => add(count, lets_all(body.as_slice())),
    }
}
