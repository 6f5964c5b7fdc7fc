ghost use Rattle.std.specs.Prelude.{◌≡◌, [], ◌∷◌, ◌++◌, OnOk};
ghost use Rattle.rs_tree.specs.Plain.{exp, expressions, operations, sta, statements, choices, optional, definition};
ghost use Rattle.rs_reach.specs.Calls.{marks, marks_all, marks_by, marks_in, sta_marks, stas_marks, arms_marks, definition_marks};

use inc_base::Memory;
use rs_tree::{ArithOp, Body, Expr, Form, Stmt};
use sqlite_items::Items;
use std::alloc::Global;
use std::marker::Model;

/// Of each path met in a tree, in the order of the text, whether it is called.
#[derive(Drop)]
pub(crate) struct Marks {
    items: Vec<bool>,
}

impl Model for Marks {
    ghost use Rattle.std.specs.Prelude.{List, Bool};

    ghost Value = { List Bool };

    ghost view = { λ m. m.items.items };
}

impl Marks {
    pub(crate) fn new(alloc: Global) -> Marks
        ensures { result ≡ [] }
    {
        Marks {
            items: Vec::new(alloc),
        }
    }

    pub(crate) fn as_slice(&self) -> &[bool]
        ensures { result.now ≡ self.now }
    {
        self.items.as_slice()
    }

    fn push(&mut self, called: bool) -> Result<(), Memory>
        ensures { OnOk result (self.new ≡ self.old ++ called ∷ []) }
    {
        self.items.push(called)?;
        Ok(())
    }

    #[tactic(auto, using(crate::proofs::Steps::steps))]
    pub(crate) fn body(&mut self, body: &Body) -> Result<(), Memory>
        ensures { OnOk result (self.new ≡ self.old ++ definition_marks (definition body.now)) }
    {
        match body {
            Body::Const { value, .. } => self.expression(value),
            Body::Func { stmts, tail, .. } => {
                self.statements(stmts.as_slice())?;
                self.optional(tail)
            }
        }
    }

    #[cycle(statement)]
    #[tactic(auto, using(crate::proofs::Steps::steps))]
    fn statement(&mut self, s: &Stmt) -> Result<(), Memory>
        ensures { OnOk result (self.new ≡ self.old ++ sta_marks (sta s.now)) }
    {
        match s {
            Stmt::Let { value, .. } => self.expression(value),
            Stmt::Assign { value, .. } => self.expression(value),
            Stmt::Return { value, .. } => self.optional(value),
            Stmt::Eval(value) => self.expression(value),
            Stmt::Print(value) => self.expression(value),
            Stmt::While { cond, body } => {
                self.expression(cond)?;
                self.statements(body.as_slice())
            }
            Stmt::If { arms, other } => self.choice(arms.as_slice(), other),
        }
    }

    #[cycle(statement)]
    #[tactic(auto, using(crate::proofs::Steps::steps))]
    fn statements(&mut self, body: &[Stmt]) -> Result<(), Memory>
        ensures { OnOk result (self.new ≡ self.old ++ stas_marks (statements body.now)) }
    {
        for s in body {
            self.statement(s)?;
        }
        Ok(())
    }

    #[cycle(statement)]
    #[tactic(auto, using(crate::proofs::Steps::steps))]
    fn choice(
        &mut self,
        arms: &[(Expr, Items<Stmt>)],
        other: &Option<Items<Stmt>>,
    ) -> Result<(), Memory>
        ensures { OnOk result (self.new ≡ self.old ++ arms_marks (choices arms.now other.now)) }
    {
        for arm in arms {
            self.expression(&arm.0)?;
            self.statements(arm.1.as_slice())?;
        }
        self.otherwise(other)
    }

    #[cycle(statement)]
    #[tactic(auto, using(crate::proofs::Steps::steps))]
    fn otherwise(&mut self, other: &Option<Items<Stmt>>) -> Result<(), Memory>
        ensures { OnOk result (self.new ≡ self.old ++ arms_marks (choices [] other.now)) }
    {
        match other {
            None => Ok(()),
            Some(body) => {
                self.statements(body.as_slice())?;
                Ok(())
            }
        }
    }

    #[tactic(auto, using(crate::proofs::Steps::steps))]
    fn optional(&mut self, value: &Option<Expr>) -> Result<(), Memory>
        ensures { OnOk result (self.new ≡ self.old ++ marks_in (optional value.now)) }
    {
        match value {
            None => Ok(()),
            Some(e) => {
                self.expression(e)?;
                Ok(())
            }
        }
    }

    #[cycle(expression)]
    #[tactic(auto, using(crate::proofs::Steps::steps))]
    fn expression(&mut self, e: &Expr) -> Result<(), Memory>
        ensures { OnOk result (self.new ≡ self.old ++ marks (exp e.now)) }
    {
        match &e.form {
            Form::Number(_) => Ok(()),
            Form::Truth(_) => Ok(()),
            Form::Path(_) => self.push(false),
            Form::Call(_, args) => {
                self.push(true)?;
                self.all(args.as_slice())
            }
            Form::Group(inner) => self.expression(inner.get()),
            Form::Unary(_, inner) => self.expression(inner.get()),
            Form::Arith(first, more) => {
                self.expression(first.get())?;
                self.operands(more.as_slice())
            }
            Form::Compare(_, a, b) => {
                self.expression(a.get())?;
                self.expression(b.get())
            }
            Form::And(parts) => self.all(parts.as_slice()),
            Form::Or(parts) => self.all(parts.as_slice()),
        }
    }

    #[cycle(expression)]
    #[tactic(auto, using(crate::proofs::Steps::steps))]
    fn all(&mut self, parts: &[Expr]) -> Result<(), Memory>
        ensures { OnOk result (self.new ≡ self.old ++ marks_all (expressions parts.now)) }
    {
        for e in parts {
            self.expression(e)?;
        }
        Ok(())
    }

    #[cycle(expression)]
    #[tactic(auto, using(crate::proofs::Steps::steps))]
    fn operands(&mut self, more: &[(ArithOp, Expr)]) -> Result<(), Memory>
        ensures { OnOk result (self.new ≡ self.old ++ marks_by (operations more.now)) }
    {
        for (_, e) in more {
            self.expression(e)?;
        }
        Ok(())
    }
}
