//! Expressions from their parts.

ghost use Rattle.std.specs.Prelude.{◌≡◌, IfOk, None, Some, ◌∷◌};
ghost use Rattle.std.proofs.Common.{inl, inr};
ghost use Rattle.rs_tree.specs.declared.tree.Form.TheVariants as form;
ghost use Rattle.rs_tree.specs.declared.kind.Kind.TheVariants as k;
ghost use Rattle.rs_grammar.specs.Lexeme.{Lexeme};
ghost use Rattle.rs_grammar.specs.Grammar.{Comparison, Group, Literal, Route, Unary, Use, and_of, arith_of, else_none, made, or_of};

use crate::lexeme::Lexeme;
use inc_base::{Bytes, Memory};
use rs_tree::{ArithOp, At, CmpOp, Expr, Form, Path, UnaryOp};
use sqlite_items::{Boxed, Items};
use std::alloc::{AllocError, Global};

/// A list of more elements stays as it grew: it has at most as much room again.
const FEW: usize = 8;

/// The same list. A short one has no room for more than it has.
pub fn fitted<T: Drop>(alloc: Global, list: Items<T>) -> Result<Items<T>, AllocError>
    ensures { IfOk result (λ it. it ≡ list) }
{
    if list.is_empty() || list.len() > FEW {
        return Ok(list);
    }
    let mut all = Items::from_vec(Vec::with_capacity(alloc, list.len())?);
    all.append(list)?;
    Ok(all)
}

/// All of them, the first before the others.
pub fn all_of<T: Drop>(alloc: Global, first: T, more: Items<T>) -> Result<Items<T>, AllocError>
    ensures { IfOk result (λ all. all ≡ first ∷ more) }
{
    let mut all = Items::from_vec(Vec::with_capacity(alloc, more.len().saturating_add(1))?);
    all.push(first)?;
    all.append(more)?;
    Ok(all)
}

/// A chain of `||`. One of one operand is the operand.
pub fn or_of(alloc: Global, first: Expr, more: Items<Expr>) -> Result<Expr, AllocError>
    ensures { IfOk result (λ e. e ≡ or_of first more) }
{
    if more.is_empty() {
        return Ok(first);
    }
    Ok(Expr {
        at: first.at,
        form: Form::Or(all_of(alloc, first, more)?),
    })
}

/// A chain of `&&`. One of one operand is the operand.
pub fn and_of(alloc: Global, first: Expr, more: Items<Expr>) -> Result<Expr, AllocError>
    ensures { IfOk result (λ e. e ≡ and_of first more) }
{
    if more.is_empty() {
        return Ok(first);
    }
    Ok(Expr {
        at: first.at,
        form: Form::And(all_of(alloc, first, more)?),
    })
}

/// A sum or a product. One of one operand is the operand.
pub fn arith_of(
    alloc: Global,
    first: Expr,
    more: Items<(ArithOp, Expr)>,
) -> Result<Expr, AllocError>
    ensures { IfOk result (λ e. e ≡ arith_of first more) }
{
    if more.is_empty() {
        return Ok(first);
    }
    let more = fitted(alloc, more)?;
    Ok(Expr {
        at: first.at,
        form: Form::Arith(Boxed::new(alloc, first)?, more),
    })
}

/// A comparison.
pub fn compared(alloc: Global, left: Expr, op: CmpOp, right: Expr) -> Result<Expr, AllocError>
    ensures { IfOk result (λ e. e ≡ made Comparison (left, Some (op, right))) }
{
    Ok(Expr {
        at: left.at,
        form: Form::Compare(op, Boxed::new(alloc, left)?, Boxed::new(alloc, right)?),
    })
}

/// An operand with its sign.
pub fn signed(alloc: Global, sign: (At, UnaryOp), operand: Expr) -> Result<Expr, AllocError>
    ensures { IfOk result (λ e. e ≡ made Unary (Some sign, operand)) }
{
    Ok(Expr {
        at: sign.0,
        form: Form::Unary(sign.1, Boxed::new(alloc, operand)?),
    })
}

/// An expression in brackets.
pub fn grouped(alloc: Global, left: &Lexeme<'_>, inner: Expr) -> Result<Expr, AllocError>
    ensures { IfOk result (λ e. (right : Lexeme) → e ≡ made Group (left.now, (inner, right))) }
{
    Ok(Expr {
        at: left.at(),
        form: Form::Group(Boxed::new(alloc, inner)?),
    })
}

/// A number.
pub(crate) fn number_of(number: &Lexeme<'_>) -> Expr
    requires { number.now.kind ≡ k.Number }
    ensures { result ≡ made Literal (inl number.now) }
{
    Expr {
        at: number.at(),
        form: Form::Number(number.value()),
    }
}

/// `true` or `false`.
pub(crate) fn truth_of(word: &Lexeme<'_>, truth: bool) -> Expr
    ensures { result ≡ record { at = word.now.at; form = form.Truth truth } }
{
    Expr {
        at: word.at(),
        form: Form::Truth(truth),
    }
}

/// A path without arguments.
pub fn path_of(route: Path) -> Expr
    ensures { result ≡ made Use (route, None) }
{
    Expr {
        at: route.at,
        form: Form::Path(route),
    }
}

/// A call.
pub fn call_of(route: Path, args: Items<Expr>) -> Expr
    ensures { result ≡ made Use (route, Some args) }
{
    Expr {
        at: route.at,
        form: Form::Call(route, args),
    }
}

/// The arguments, or none where there are none.
pub fn or_none(alloc: Global, args: Option<Items<Expr>>) -> Items<Expr>
    ensures { result ≡ else_none args }
{
    match args {
        Some(args) => args,
        None => Items::new(alloc),
    }
}

/// A path that doesn't begin with `crate`: a name, or a module's name and another.
pub(crate) fn plain_path(first: &Lexeme<'_>, other: Option<Bytes>) -> Result<Path, Memory>
    ensures { IfOk result (λ p. p ≡ made Route (inl (first.now, other))) }
{
    let text = first.text()?;
    match other {
        Some(name) => Ok(Path {
            at: first.at(),
            rooted: false,
            module: Some(text),
            name,
        }),
        None => Ok(Path {
            at: first.at(),
            rooted: false,
            module: None,
            name: text,
        }),
    }
}

/// A path that begins with `crate`.
pub(crate) fn rooted_path(root: &Lexeme<'_>, first: Bytes, other: Option<Bytes>) -> Path
    ensures { result ≡ made Route (inr (root.now, (first, other))) }
{
    match other {
        Some(name) => Path {
            at: root.at(),
            rooted: true,
            module: Some(first),
            name,
        },
        None => Path {
            at: root.at(),
            rooted: true,
            module: None,
            name: first,
        },
    }
}
