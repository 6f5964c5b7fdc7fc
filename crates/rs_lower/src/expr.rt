//! Expressions.

ghost use Rattle.std.specs.Prelude.{◌≡◌, ◌≤◌, ◌+◌, [], ◌∷◌, Ok, OnOk, IfOk};
ghost use Rattle.std.specs.Option.{option_copied};
ghost use Rattle.rs_tree.specs.declared.answers.Found.TheVariants.{Absent};
ghost use Rattle.rs_tree.specs.Leaves.{answer};
ghost use Rattle.rs_tree.specs.Plain.{exp, expressions, operations};
ghost use Rattle.rs_value.specs.Value.{number_of};
ghost use Rattle.rs_lower.specs.Counts.{labels, labels_all, labels_by};
ghost use Rattle.rs_lower.specs.Meanings.{callee, sig_of, has_kind};
ghost use Rattle.rs_types.specs.State.{taken};
ghost use Rattle.rs_lower.specs.Locals.{find};
ghost use Rattle.rs_lower.specs.Code.{chain_end, loaded, pushed, path_code, call_code, arith_code, unary_code, compare_code, jump_code};
ghost use Rattle.rs_lower.specs.Fixed.{path_fixed, unary_fixed};
ghost use Rattle.rs_lower.specs.State.{put, numbered, emitted, with_exp, with_exps, with_operands, with_call, with_chain, with_unary, with_arith, with_compare, with_logic, outcome_of, chained_of, arith_fixed, compare_fixed, logic_of};

use crate::answers::Answers;
use crate::fixed::{Fixed, also, as_truth, combine, compare, number_in, unary};
use crate::known::Known;
use crate::locals::Locals;
use crate::types::is_not;
use inc_base::{Bytes, Copied, List, Memory};
use rs_tree::{ArithOp, CmpOp, Const, Expr, Form, Found, Instr, Path, Place, Sig, UnaryOp};
use rs_value::given;

/// The instructions so far, the numbers of labels and slots given out, the locals in scope, and the answers of
/// the paths that are left.
#[derive(Drop)]
pub(crate) struct Lowerer<'a, 'b> {
    pub code: List<Instr>,
    pub labels: u16,
    pub slots: u16,
    pub locals: Locals<'a>,
    pub answers: Answers<'a>,
    pub meanings: &'b Known<'a, 'b>,
}

impl<'a, 'b> Lowerer<'a, 'b> {
    pub(crate) fn push(&mut self, instr: Instr) -> Result<(), Memory>
        ensures { OnOk result (self.new ≡ put (instr ∷ []) self.old) }
    {
        self.code.push(instr)
    }

    /// The next label.
    pub(crate) fn fresh(&mut self) -> u16
        requires { self.old.labels + 1 ≤ 65535 }
        ensures number { result ≡ self.old.labels }
        ensures counted { self.new ≡ numbered 1 self.old }
    {
        let label = self.labels;
        self.labels += 1;
        label
    }

    #[tactic(auto, using(crate::proofs::Steps::lowers))]
    fn path(&mut self, path: &'a Path) -> Result<Fixed, Memory>
        ensures lowered { OnOk result (self.new ≡ emitted (path_code self.old.meanings.now self.old.locals (path.now, answer Absent self.old.answers) ∷ []) 0 1 self.old) }
        ensures fixed { IfOk result (λ x. x ≡ path_fixed self.old.meanings.now (path.now, answer Absent self.old.answers)) }
    {
        let found = self.answers.take();
        let instr = self.path_code(path, found);
        self.push(instr)?;
        Ok(self.path_fixed(path, found))
    }

    fn path_fixed(&self, path: &'a Path, found: Option<&'a Found>) -> Fixed
        ensures { result ≡ path_fixed self.now.meanings.now (path.now, taken found.entry) }
    {
        match found {
            Some(Found::Item(place)) => Some(given(number_in(self.meanings.constant(place)))),
            None | Some(Found::Local) | Some(Found::Private) | Some(Found::Absent) => None,
        }
    }

    fn path_code(&self, path: &'a Path, found: Option<&'a Found>) -> Instr
        ensures { result ≡ path_code self.now.meanings.now self.now.locals (path.now, taken found.entry) }
    {
        match found {
            Some(Found::Local) => self.load(path),
            Some(Found::Item(place)) => pushed(self.meanings.constant(place)),
            None | Some(Found::Private) | Some(Found::Absent) => Instr::Push(0),
        }
    }

    fn load(&self, path: &'a Path) -> Instr
        ensures { result ≡ loaded (find path.now.name self.now.locals) }
    {
        match self.locals.find(path.name.as_slice()) {
            None => Instr::Push(0),
            Some(held) => Instr::Load(held.slot),
        }
    }

    fn call_code(&self, path: &'a Path, found: Option<&'a Found>) -> Result<Instr, Memory>
        ensures { IfOk result (λ i. i ≡ call_code self.now.meanings.now (path.now, taken found.entry)) }
    {
        let place = callee(path, found)?;
        Ok(Instr::Call(has_kind(2, self.sig_of(found)), place))
    }

    /// The signature of what a path leads to.
    pub(crate) fn sig_of(&self, found: Option<&'a Found>) -> Option<&'a Sig>
        ensures { option_copied result ≡ sig_of self.now.meanings.now (taken found.entry) }
    {
        match found {
            Some(Found::Item(place)) => self.meanings.sig(place),
            None | Some(Found::Local) | Some(Found::Private) | Some(Found::Absent) => None,
        }
    }

    /// A number or a truth value, pushed.
    fn literal(&mut self, value: i64) -> Result<Fixed, Memory>
        ensures lowered { OnOk result (self.new ≡ put (Instr.Push value ∷ []) self.old) }
        ensures fixed { IfOk result (λ x. x ≡ Some (Ok value)) }
    {
        self.push(Instr::Push(value))?;
        Ok(Some(Ok(value)))
    }

    /// An expression: its instructions, and what it comes to where it has neither locals nor calls.
    #[cycle(expression)]
    #[tactic(auto, using(crate::proofs::Steps::lowers))]
    fn expression(&mut self, e: &'a Expr) -> Result<Fixed, Memory>
        requires { self.old.labels + labels (exp e.now) ≤ 65535 }
        ensures lowered { OnOk result (self.new ≡ with_exp (exp e.now) self.old) }
        ensures fixed { IfOk result (λ x. x ≡ outcome_of self.old (exp e.now)) }
    {
        match &e.form {
            Form::Number(n) => self.literal(*n),
            Form::Truth(b) => self.literal(i64::from(*b)),
            Form::Path(path) => self.path(path),
            Form::Call(path, args) => self.call(path, args.as_slice()),
            Form::Group(inner) => self.expression(inner.get()),
            Form::Unary(op, inner) => self.unary(*op, inner.get()),
            Form::Arith(first, more) => self.arithmetic(first.get(), more.as_slice()),
            Form::Compare(op, a, b) => self.comparison(*op, a.get(), b.get()),
            Form::And(parts) => self.chain(false, parts.as_slice()),
            Form::Or(parts) => self.chain(true, parts.as_slice()),
        }
    }

    /// An expression whose value is used as it is.
    #[tactic(auto, using(crate::proofs::Steps::lowers))]
    pub(crate) fn value(&mut self, e: &'a Expr) -> Result<(), Memory>
        requires { self.old.labels + labels (exp e.now) ≤ 65535 }
        ensures { OnOk result (self.new ≡ with_exp (exp e.now) self.old) }
    {
        let _fixed = self.expression(e)?;
        Ok(())
    }

    #[cycle(expression)]
    #[tactic(auto, using(crate::proofs::Steps::lowers))]
    fn call(&mut self, path: &'a Path, args: &'a [Expr]) -> Result<Fixed, Memory>
        requires { self.old.labels + labels_all (expressions args.now) ≤ 65535 }
        ensures lowered { OnOk result (self.new ≡ with_call path.now (expressions args.now) self.old) }
        ensures fixed { IfOk result (λ x. x ≡ None) }
    {
        let found = self.answers.take();
        self.arguments(args)?;
        let instr = self.call_code(path, found)?;
        self.push(instr)?;
        Ok(None)
    }

    #[cycle(expression)]
    #[tactic(auto, using(crate::proofs::Steps::lowers))]
    fn arguments(&mut self, args: &'a [Expr]) -> Result<(), Memory>
        requires { self.old.labels + labels_all (expressions args.now) ≤ 65535 }
        ensures { OnOk result (self.new ≡ with_exps (expressions args.now) self.old) }
    {
        for e in args {
            let _fixed = self.expression(e)?;
        }
        Ok(())
    }

    #[cycle(expression)]
    #[tactic(auto, using(crate::proofs::Steps::lowers))]
    fn unary(&mut self, op: UnaryOp, inner: &'a Expr) -> Result<Fixed, Memory>
        requires { self.old.labels + labels (exp inner.now) ≤ 65535 }
        ensures lowered { OnOk result (self.new ≡ with_unary op (exp inner.now) self.old) }
        ensures fixed { IfOk result (λ x. x ≡ unary_fixed op (outcome_of self.old (exp inner.now))) }
    {
        let start = self.start();
        let inner = self.expression(inner)?;
        self.push(Instr::Plain(unary_code(op)))?;
        let fixed = unary(op, inner);
        self.settle(start, is_not(op), fixed)?;
        Ok(fixed)
    }

    #[cycle(expression)]
    #[tactic(auto, using(crate::proofs::Steps::lowers))]
    fn arithmetic(&mut self, first: &'a Expr, more: &'a [(ArithOp, Expr)]) -> Result<Fixed, Memory>
        requires { self.old.labels + (labels (exp first.now) + labels_by (operations more.now)) ≤ 65535 }
        ensures lowered { OnOk result (self.new ≡ with_arith (exp first.now) (operations more.now) self.old) }
        ensures fixed { IfOk result (λ x. x ≡ arith_fixed (exp first.now) (operations more.now) self.old) }
    {
        let start = self.start();
        let first = self.expression(first)?;
        let fixed = self.operands(first, more)?;
        self.settle(start, false, fixed)?;
        Ok(fixed)
    }

    #[cycle(expression)]
    #[tactic(auto, using(crate::proofs::Steps::lowers))]
    fn operands(&mut self, first: Fixed, more: &'a [(ArithOp, Expr)]) -> Result<Fixed, Memory>
        requires { self.old.labels + labels_by (operations more.now) ≤ 65535 }
        ensures lowered { OnOk result (self.new ≡ with_operands (operations more.now) self.old) }
        ensures fixed { IfOk result (λ x. x ≡ chained_of (operations more.now) first self.old) }
    {
        let mut fixed = first;
        for (op, e) in more {
            let next = self.expression(e)?;
            self.push(Instr::Plain(arith_code(*op)))?;
            fixed = combine(*op, fixed, next);
        }
        Ok(fixed)
    }

    #[cycle(expression)]
    #[tactic(auto, using(crate::proofs::Steps::lowers))]
    fn comparison(&mut self, op: CmpOp, a: &'a Expr, b: &'a Expr) -> Result<Fixed, Memory>
        requires { self.old.labels + (labels (exp a.now) + labels (exp b.now)) ≤ 65535 }
        ensures lowered { OnOk result (self.new ≡ with_compare op (exp a.now) (exp b.now) self.old) }
        ensures fixed { IfOk result (λ x. x ≡ compare_fixed op (exp a.now) (exp b.now) self.old) }
    {
        let start = self.start();
        let left = self.expression(a)?;
        let right = self.expression(b)?;
        self.push(Instr::Plain(compare_code(op)))?;
        let fixed = compare(op, left, right);
        self.settle(start, true, fixed)?;
        Ok(fixed)
    }

    /// A chain of `&&`, or where `either` of `||`.
    #[cycle(expression)]
    #[tactic(auto, using(crate::proofs::Steps::lowers))]
    fn chain(&mut self, either: bool, parts: &'a [Expr]) -> Result<Fixed, Memory>
        requires { self.old.labels + (2 + labels_all (expressions parts.now)) ≤ 65535 }
        ensures lowered { OnOk result (self.new ≡ with_logic either (expressions parts.now) self.old) }
        ensures fixed { IfOk result (λ x. x ≡ logic_of either (expressions parts.now) self.old) }
    {
        let start = self.start();
        let fixed = self.parts(either, parts)?;
        self.settle(start, true, fixed)?;
        Ok(fixed)
    }

    /// The parts of such a chain: one that decides jumps to where the value is pushed.
    #[cycle(expression)]
    #[tactic(auto, using(crate::proofs::Steps::lowers))]
    fn parts(&mut self, either: bool, parts: &'a [Expr]) -> Result<Fixed, Memory>
        requires { self.old.labels + (2 + labels_all (expressions parts.now)) ≤ 65535 }
        ensures lowered { OnOk result (self.new ≡ with_chain either (expressions parts.now) self.old) }
        ensures fixed { IfOk result (λ x. x ≡ logic_of either (expressions parts.now) self.old) }
    {
        match parts {
            [] => {
                let decided = self.fresh();
                self.chain_end(either, decided)?;
                Ok(Some(Ok(i64::from(!either))))
            }
            [first, more @ ..] => {
                let mut fixed = self.expression(first)?;
                let decided = self.fresh();
                for e in more {
                    self.push(Instr::Jump(jump_code(either), decided))?;
                    let next = self.expression(e)?;
                    fixed = also(either, fixed, next);
                }
                self.chain_end(either, decided)?;
                Ok(as_truth(fixed))
            }
        }
    }

    #[tactic(auto, using(crate::proofs::Steps::put_four))]
    fn chain_end(&mut self, either: bool, decided: u16) -> Result<(), Memory>
        requires { self.old.labels + 1 ≤ 65535 }
        ensures { OnOk result (self.new ≡ put (chain_end (number_of either) decided self.old.labels) (numbered 1 self.old)) }
    {
        let end = self.fresh();
        self.push(Instr::Jump(0x28, end))?;
        self.push(Instr::Label(decided))?;
        self.push(Instr::Push(i64::from(either)))?;
        self.push(Instr::Label(end))?;
        Ok(())
    }
}

/// Where a call goes.
fn callee(path: &Path, found: Option<&Found>) -> Result<Place, Memory>
    ensures { IfOk result (λ p. p ≡ callee path.now (taken found.entry)) }
{
    match found {
        Some(Found::Item(place)) => place.copy(),
        None | Some(Found::Local) | Some(Found::Private) | Some(Found::Absent) => named(path),
    }
}

fn named(path: &Path) -> Result<Place, Memory>
    ensures { IfOk result (λ p. p ≡ record { «module» = []; name = path.now.name }) }
{
    Ok(Place {
        module: Bytes::new(path.name.allocator()),
        name: path.name.copy()?,
    })
}

fn has_kind(kind: u8, sig: Option<&Sig>) -> bool
    ensures { result ≡ has_kind kind (option_copied sig.entry) }
{
    match sig {
        None => false,
        Some(sig) => sig.kind == kind,
    }
}

/// A constant's value, pushed.
fn pushed(value: Option<&Const>) -> Instr
    ensures { result ≡ pushed (option_copied value.entry) }
{
    match value {
        Some(Const::Int(v)) => Instr::Push(*v),
        Some(Const::Bool(b)) => Instr::Push(i64::from(*b)),
        Some(Const::Cycle) => Instr::Push(0),
        Some(Const::Overflow) => Instr::Push(0),
        Some(Const::DivZero) => Instr::Push(0),
        Some(Const::Bad) => Instr::Push(0),
        None => Instr::Push(0),
    }
}

fn unary_code(op: UnaryOp) -> u8
    ensures { result ≡ unary_code op }
{
    match op {
        UnaryOp::Negate => 0x15,
        UnaryOp::Not => 0x16,
    }
}

fn compare_code(op: CmpOp) -> u8
    ensures { result ≡ compare_code op }
{
    match op {
        CmpOp::Equal => 0x17,
        CmpOp::NotEqual => 0x18,
        CmpOp::Less => 0x19,
        CmpOp::Greater => 0x1a,
        CmpOp::AtMost => 0x1b,
        CmpOp::AtLeast => 0x1c,
    }
}

fn arith_code(op: ArithOp) -> u8
    ensures { result ≡ arith_code op }
{
    match op {
        ArithOp::Add => 0x10,
        ArithOp::Sub => 0x11,
        ArithOp::Mul => 0x12,
        ArithOp::Div => 0x13,
        ArithOp::Rem => 0x14,
    }
}

fn jump_code(either: bool) -> u8
    ensures { result ≡ jump_code either }
{
    if either { 0x2a } else { 0x29 }
}
