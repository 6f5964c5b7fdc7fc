ghost use Rattle.std.specs.Prelude.{◌≡◌, ◌+◌, drop, length, None, Err};
ghost use Rattle.rs_tree.specs.Plain.{exp, expressions, operations};
ghost use Rattle.rs_tree.specs.Leaves.{answer, filled, filled_all, filled_by, leaves, leaves_all, leaves_by};
ghost use Rattle.rs_value.specs.Value.{value, chain, all, any};
ghost use Rattle.rs_value.specs.declared.trap.Trap.TheVariants.{NoValue};

use crate::operators::{also, combine, compare, either, given, truth, unary};
use crate::trap::Trap;
use rs_tree::{ArithOp, Expr, Form};
use std::marker::Model;

/// The value of an expression, a truth value as 1 or 0 (docs/LANGUAGE.md, "Values").
///
/// `values` has the value of each path, in the order of the text, or None where it has none; a path past them has
/// none either. Every part is looked at, also what `&&` and `||` skip.
pub fn value_of(e: &Expr, values: &[Option<i64>]) -> Result<i64, Trap>
    ensures { result ≡ value (filled None values.now (exp e.now)) }
{
    let mut values = Values { rest: values };
    values.expression(e)
}

/// The values that are left.
#[derive(Drop)]
pub(crate) struct Values<'a> {
    rest: &'a [Option<i64>],
}

impl<'a> Model for Values<'a> {
    ghost use Rattle.std.specs.Prelude.{List, Option, ℤ};

    ghost Value = { List (Option ℤ) };

    ghost view = { λ v. v.rest.now };
}

impl<'a> Values<'a> {
    fn take(&mut self) -> Option<i64>
        ensures first { result ≡ answer None self.old }
        ensures rest { self.new ≡ drop 1 self.old }
    {
        match self.rest.split_first() {
            None => None,
            Some((first, rest)) => {
                self.rest = rest;
                *first
            }
        }
    }

    #[cycle(value)]
    #[tactic(auto, using(crate::proofs::Forms::forms))]
    fn expression(&mut self, e: &Expr) -> Result<i64, Trap>
        ensures value { result ≡ value (filled None self.old (exp e.now)) }
        ensures rest { self.new ≡ drop (length (leaves (exp e.now))) self.old }
    {
        match &e.form {
            Form::Number(n) => Ok(*n),
            Form::Truth(b) => Ok(truth(*b)),
            Form::Path(_) => given(self.take()),
            Form::Call(_, args) => self.call(args.as_slice()),
            Form::Group(inner) => self.expression(inner.get()),
            Form::Unary(op, inner) => {
                let x = self.expression(inner.get());
                unary(*op, x)
            }
            Form::Arith(first, more) => {
                let first = self.expression(first.get());
                self.chain(first, more.as_slice())
            }
            Form::Compare(op, a, b) => {
                let x = self.expression(a.get());
                let y = self.expression(b.get());
                compare(*op, x, y)
            }
            Form::And(parts) => self.all(parts.as_slice()),
            Form::Or(parts) => self.any(parts.as_slice()),
        }
    }

    #[cycle(value)]
    #[tactic(auto, using(crate::proofs::Forms::forms))]
    fn call(&mut self, args: &[Expr]) -> Result<i64, Trap>
        ensures value { result ≡ Err NoValue }
        ensures rest { self.new ≡ drop (length (leaves_all (expressions args.now)) + 1) self.old }
    {
        let _own = self.take();
        for e in args {
            let _skipped = self.expression(e);
        }
        Err(Trap::NoValue)
    }

    #[cycle(value)]
    #[tactic(auto, using(crate::proofs::Forms::forms))]
    fn chain(&mut self, first: Result<i64, Trap>, more: &[(ArithOp, Expr)]) -> Result<i64, Trap>
        ensures value { result ≡ chain (filled_by None self.old (operations more.now)) first }
        ensures rest { self.new ≡ drop (length (leaves_by (operations more.now))) self.old }
    {
        let mut so_far = first;
        for (op, e) in more {
            let next = self.expression(e);
            so_far = combine(*op, so_far, next);
        }
        so_far
    }

    #[cycle(value)]
    #[tactic(auto, using(crate::proofs::Forms::forms))]
    fn all(&mut self, parts: &[Expr]) -> Result<i64, Trap>
        ensures value { result ≡ all (filled_all None self.old (expressions parts.now)) }
        ensures rest { self.new ≡ drop (length (leaves_all (expressions parts.now))) self.old }
    {
        let mut so_far = Ok(1);
        for e in parts {
            let next = self.expression(e);
            so_far = also(so_far, next);
        }
        also(so_far, Ok(1))
    }

    #[cycle(value)]
    #[tactic(auto, using(crate::proofs::Forms::forms))]
    fn any(&mut self, parts: &[Expr]) -> Result<i64, Trap>
        ensures value { result ≡ any (filled_all None self.old (expressions parts.now)) }
        ensures rest { self.new ≡ drop (length (leaves_all (expressions parts.now))) self.old }
    {
        let mut so_far = Ok(0);
        for e in parts {
            let next = self.expression(e);
            so_far = either(so_far, next);
        }
        either(so_far, Ok(0))
    }
}
