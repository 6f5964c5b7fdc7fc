//! What an expression gives, by its form.

ghost use Rattle.std.specs.Prelude.{◌≡◌, IsTrue};
ghost use Rattle.std.specs.Option.{option_copied};
ghost use Rattle.rs_tree.specs.declared.answers.Found.TheVariants.{Absent};
ghost use Rattle.rs_tree.specs.Leaves.{answer};
ghost use Rattle.rs_tree.specs.Plain.{exp};
ghost use Rattle.rs_lower.specs.Meanings.{gives_truth, gives_value, is_truth_const, is_truth_type, is_value_type};
ghost use Rattle.rs_lower.specs.Code.{has_value, holds_truth, is_not, is_truth, is_truth_let, is_truth_path};
ghost use Rattle.rs_lower.specs.Locals.{find};
ghost use Rattle.rs_lower.specs.State.{reduce};

use crate::expr::Lowerer;
use rs_tree::{Const, Expr, Form, Found, Path, Sig, Typ, UnaryOp};

impl<'a, 'b> Lowerer<'a, 'b> {
    /// Whether the next expression has a value.
    #[tactic(auto, using(crate::proofs::Values::kinds))]
    pub(crate) fn has_value(&self, e: &'a Expr) -> bool
        ensures { result ≡ has_value self.now.meanings.now (reduce self.now (exp e.now)) }
    {
        match &e.form {
            Form::Call(_, _) => gives_value(self.sig_of(self.answers.next())),
            Form::Group(inner) => self.has_value(inner.get()),
            Form::Number(_) => true,
            Form::Truth(_) => true,
            Form::Path(_) => true,
            Form::Unary(_, _) => true,
            Form::Arith(_, _) => true,
            Form::Compare(_, _, _) => true,
            Form::And(_) => true,
            Form::Or(_) => true,
        }
    }

    /// Whether the value of the next expression is a truth value.
    #[tactic(auto, using(crate::proofs::Values::kinds))]
    pub(crate) fn is_truth(&self, e: &'a Expr) -> bool
        ensures { result ≡ is_truth self.now.meanings.now self.now.locals (reduce self.now (exp e.now)) }
    {
        match &e.form {
            Form::Path(path) => self.is_truth_path(path),
            Form::Call(_, _) => gives_truth(self.sig_of(self.answers.next())),
            Form::Group(inner) => self.is_truth(inner.get()),
            Form::Number(_) => false,
            Form::Truth(_) => true,
            Form::Unary(op, _) => is_not(*op),
            Form::Arith(_, _) => false,
            Form::Compare(_, _, _) => true,
            Form::And(_) => true,
            Form::Or(_) => true,
        }
    }
}

impl<'a, 'b> Lowerer<'a, 'b> {
    fn is_truth_path(&self, path: &'a Path) -> bool
        ensures { result ≡ is_truth_path self.now.meanings.now self.now.locals (path.now, answer Absent self.now.answers) }
    {
        match self.answers.next() {
            Some(Found::Local) => self.holds_truth(path),
            Some(Found::Item(place)) => is_truth_const(self.meanings.constant(place)),
            None | Some(Found::Private) | Some(Found::Absent) => false,
        }
    }

    fn holds_truth(&self, path: &'a Path) -> bool
        ensures { result ≡ holds_truth (find path.now.name self.now.locals) }
    {
        match self.locals.find(path.name.as_slice()) {
            None => false,
            Some(held) => held.truth,
        }
    }

    /// Whether a variable with this type, or else with the next value, holds a truth value.
    #[tactic(auto, using(crate::proofs::Values::kinds))]
    pub(crate) fn is_truth_let(&self, typ: Option<Typ>, value: &'a Expr) -> bool
        ensures { result ≡ is_truth_let self.now.meanings.now self.now.locals typ (reduce self.now (exp value.now)) }
    {
        match typ {
            None => self.is_truth(value),
            Some(typ) => is_truth_type(typ),
        }
    }
}

pub(crate) fn is_truth_type(typ: Typ) -> bool
    ensures { result ≡ is_truth_type typ }
{
    match typ {
        Typ::Unit => false,
        Typ::Int => false,
        Typ::Bool => true,
    }
}

pub(crate) fn is_value_type(typ: Typ) -> bool
    ensures { result ≡ is_value_type typ }
{
    match typ {
        Typ::Unit => false,
        Typ::Int => true,
        Typ::Bool => true,
    }
}

fn gives_truth(sig: Option<&Sig>) -> bool
    ensures { result ≡ gives_truth (option_copied sig.entry) }
{
    match sig {
        None => false,
        Some(sig) => is_truth_type(sig.gives),
    }
}

fn gives_value(sig: Option<&Sig>) -> bool
    ensures { result ≡ gives_value (option_copied sig.entry) }
{
    match sig {
        None => false,
        Some(sig) => is_value_type(sig.gives),
    }
}

fn is_truth_const(value: Option<&Const>) -> bool
    ensures { result ≡ is_truth_const (option_copied value.entry) }
{
    match value {
        Some(Const::Bool(_)) => true,
        Some(Const::Int(_)) => false,
        Some(Const::Cycle) => false,
        Some(Const::Overflow) => false,
        Some(Const::DivZero) => false,
        Some(Const::Bad) => false,
        None => false,
    }
}

pub(crate) fn is_not(op: UnaryOp) -> bool
    ensures { result ≡ is_not op }
{
    match op {
        UnaryOp::Negate => false,
        UnaryOp::Not => true,
    }
}
