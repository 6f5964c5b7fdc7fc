ghost use Rattle.std.specs.Prelude.{◌≡◌, drop, IfOk, OnOk};
ghost use Rattle.rs_tree.specs.declared.answers.Found.TheVariants.{Absent};
ghost use Rattle.rs_tree.specs.Plain.{exp, expressions, operations, Path as AtPath, Unary, Arith, Compare, And, Call};
ghost use Rattle.rs_tree.specs.Leaves.{answer, filled_all, filled_by};
ghost use Rattle.rs_types.specs.Types.{all_ints, args_fit, first_fits, is_typ, need, need_first};
ghost use Rattle.rs_types.specs.State.{argued, at_any, chained, context, looked, said, taken, typed};

use crate::locals::Local;
use crate::needs::{after_first, both, compared, operand, type_if};
use crate::paths::{given, wants};
use crate::sigs::Sigs;
use inc_base::{List, Memory};
use rs_lookup::Scope;
use rs_tree::{ArithOp, CmpOp, Diag, Expr, Form, Found, Path, Typ, UnaryOp};
use std::alloc::Global;
use std::marker::Model;

/// The answers that are left: what each path leads to, in the order of the text.
#[derive(Drop)]
pub struct Answers<'a> {
    rest: &'a [Found],
}

impl<'a> Model for Answers<'a> {
    ghost use Rattle.std.specs.Prelude.{List};
    ghost use Rattle.rs_tree.specs.declared.answers.Found.{Found};

    ghost Value = { List Found };

    ghost view = { λ a. a.rest.now };
}

impl<'a> Answers<'a> {
    pub fn new(found: &'a [Found]) -> Answers<'a>
        ensures { result ≡ found.now }
    {
        Answers { rest: found }
    }

    fn take(&mut self) -> Option<&'a Found>
        ensures first { taken result ≡ answer Absent self.old }
        ensures rest { self.new ≡ drop 1 self.old }
    {
        match self.rest.split_first() {
            None => None,
            Some((first, rest)) => {
                self.rest = rest;
                Some(first)
            }
        }
    }
}

/// Types expressions, and keeps what is wrong in them and which locals they read.
#[derive(Drop)]
pub struct Typer<'a, 'b> {
    pub alloc: Global,
    /// Whether the expressions stand in a constant.
    pub constant: bool,
    pub sigs: &'b Sigs<'a>,
    /// The names in scope, each with the number of its local.
    pub scope: Scope<'a>,
    /// The locals, in the order of their declarations.
    pub locals: List<Local>,
    pub answers: Answers<'a>,
    pub diags: List<Diag>,
    /// The numbers of the locals that paths led to.
    pub reads: List<usize>,
}

impl<'a, 'b> Typer<'a, 'b> {
    /// The type of an expression, where it has no fault (docs/LANGUAGE.md, "Types").
    #[cycle(expression)]
    #[tactic(auto, using(crate::proofs::Forms::forms))]
    pub fn expression(&mut self, e: &'a Expr) -> Result<Option<Typ>, Memory>
        ensures typ { IfOk result (λ t. t ≡ typed (exp e.now) self.old) }
        ensures looked { OnOk result (self.new ≡ looked (exp e.now) self.old) }
    {
        match &e.form {
            Form::Number(_) => Ok(Some(Typ::Int)),
            Form::Truth(_) => Ok(Some(Typ::Bool)),
            Form::Path(path) => self.path(path),
            Form::Call(path, args) => self.call(path, args.as_slice()),
            Form::Group(inner) => self.expression(inner.get()),
            Form::Unary(op, inner) => self.unary(*op, inner.get()),
            Form::Arith(first, more) => self.arithmetic(first.get(), more.as_slice()),
            Form::Compare(op, a, b) => self.comparison(*op, a.get(), b.get()),
            Form::And(parts) => self.truths(parts.as_slice()),
            Form::Or(parts) => self.truths(parts.as_slice()),
        }
    }

    /// The same of an expression that must have a type: whether it has it.
    #[cycle(expression)]
    #[tactic(auto, using(crate::proofs::Forms::forms))]
    pub fn needed(&mut self, e: &'a Expr, want: Typ) -> Result<bool, Memory>
        ensures fits { IfOk result (λ b. b ≡ is_typ want (typed (exp e.now) self.old)) }
        ensures looked { OnOk result (self.new ≡ said (need e.now.at want (typed (exp e.now) self.old)) (looked (exp e.now) self.old)) }
    {
        let found = self.expression(e)?;
        self.need(e.at, want, found)
    }

    fn path(&mut self, path: &'a Path) -> Result<Option<Typ>, Memory>
        ensures typ { IfOk result (λ t. t ≡ typed (AtPath at_any path.now) self.old) }
        ensures looked { OnOk result (self.new ≡ looked (AtPath at_any path.now) self.old) }
    {
        let found = self.answers.take();
        self.read(path, found)?;
        self.value(path, found)
    }

    #[cycle(expression)]
    #[tactic(auto, using(crate::proofs::Forms::forms))]
    fn call(&mut self, path: &'a Path, args: &'a [Expr]) -> Result<Option<Typ>, Memory>
        ensures typ { IfOk result (λ t. t ≡ typed (Call at_any path.now (expressions args.now)) self.old) }
        ensures looked { OnOk result (self.new ≡ looked (Call at_any path.now (expressions args.now)) self.old) }
    {
        let found = self.answers.take();
        self.read(path, found)?;
        let sig = self.callee(path, found, args.len())?;
        let fit = self.arguments(wants(sig), args)?;
        Ok(given(sig, fit))
    }

    // Looks at the arguments, of which the first must have these types.
    #[cycle(expression)]
    #[tactic(auto, using(crate::proofs::Forms::forms))]
    fn arguments(&mut self, wants: &'a [Typ], args: &'a [Expr]) -> Result<bool, Memory>
        ensures fit { IfOk result (λ b. b ≡ args_fit (context self.old) wants.now (filled_all Absent self.old.answers (expressions args.now))) }
        ensures argued { OnOk result (self.new ≡ argued wants.now (expressions args.now) self.old) }
    {
        let mut fit = true;
        let mut left = wants;
        for e in args {
            let fits = self.argument(left, e)?;
            fit = both(fit, fits);
            left = after_first(left);
        }
        Ok(fit)
    }

    #[cycle(expression)]
    #[tactic(auto, using(crate::proofs::Forms::forms))]
    fn argument(&mut self, wants: &'a [Typ], e: &'a Expr) -> Result<bool, Memory>
        ensures fits { IfOk result (λ b. b ≡ first_fits wants.now (typed (exp e.now) self.old)) }
        ensures looked { OnOk result (self.new ≡ said (need_first e.now.at wants.now (typed (exp e.now) self.old)) (looked (exp e.now) self.old)) }
    {
        let found = self.expression(e)?;
        self.need_first(e.at, wants, found)
    }

    #[cycle(expression)]
    #[tactic(auto, using(crate::proofs::Forms::forms))]
    fn unary(&mut self, op: UnaryOp, inner: &'a Expr) -> Result<Option<Typ>, Memory>
        ensures typ { IfOk result (λ t. t ≡ typed (Unary at_any op (exp inner.now)) self.old) }
        ensures looked { OnOk result (self.new ≡ looked (Unary at_any op (exp inner.now)) self.old) }
    {
        let want = operand(op);
        let fits = self.needed(inner, want)?;
        Ok(type_if(fits, want))
    }

    #[cycle(expression)]
    #[tactic(auto, using(crate::proofs::Forms::forms))]
    fn arithmetic(
        &mut self,
        first: &'a Expr,
        more: &'a [(ArithOp, Expr)],
    ) -> Result<Option<Typ>, Memory>
        ensures typ { IfOk result (λ t. t ≡ typed (Arith at_any (exp first.now) (operations more.now)) self.old) }
        ensures looked { OnOk result (self.new ≡ looked (Arith at_any (exp first.now) (operations more.now)) self.old) }
    {
        let first = self.needed(first, Typ::Int)?;
        let all = self.operands(more)?;
        Ok(type_if(first && all, Typ::Int))
    }

    #[cycle(expression)]
    #[tactic(auto, using(crate::proofs::Forms::forms))]
    fn operands(&mut self, more: &'a [(ArithOp, Expr)]) -> Result<bool, Memory>
        ensures all { IfOk result (λ b. b ≡ all_ints (context self.old) (filled_by Absent self.old.answers (operations more.now))) }
        ensures chained { OnOk result (self.new ≡ chained (operations more.now) self.old) }
    {
        let mut all = true;
        for (_, e) in more {
            let fits = self.needed(e, Typ::Int)?;
            all = both(all, fits);
        }
        Ok(all)
    }

    #[cycle(expression)]
    #[tactic(auto, using(crate::proofs::Forms::forms))]
    fn truths(&mut self, parts: &'a [Expr]) -> Result<Option<Typ>, Memory>
        ensures typ { IfOk result (λ t. t ≡ typed (And at_any (expressions parts.now)) self.old) }
        ensures looked { OnOk result (self.new ≡ looked (And at_any (expressions parts.now)) self.old) }
    {
        let mut all = true;
        for e in parts {
            let fits = self.needed(e, Typ::Bool)?;
            all = both(all, fits);
        }
        Ok(type_if(all, Typ::Bool))
    }

    #[cycle(expression)]
    #[tactic(auto, using(crate::proofs::Forms::forms))]
    fn comparison(&mut self, op: CmpOp, a: &'a Expr, b: &'a Expr) -> Result<Option<Typ>, Memory>
        ensures typ { IfOk result (λ t. t ≡ typed (Compare at_any op (exp a.now) (exp b.now)) self.old) }
        ensures looked { OnOk result (self.new ≡ looked (Compare at_any op (exp a.now) (exp b.now)) self.old) }
    {
        let left = self.expression(a)?;
        let right = self.expression(b)?;
        self.need_value(a.at, left)?;
        self.need_same(b.at, left, right)?;
        Ok(compared(left, right))
    }
}
