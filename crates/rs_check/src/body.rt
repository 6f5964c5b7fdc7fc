ghost use Rattle.std.specs.Prelude.{◌≡◌, ◌≤◌, ℕ, List, [], ◌++◌, ◌∷◌, None, OnOk, IfOk, length, slice_get};
ghost use Rattle.std.specs.Borrow.{Bor};
ghost use Rattle.rs_tree.specs.declared.place.At.{At};
ghost use Rattle.rs_tree.specs.Plain.{exp, sta, statements, choices, optional, Let, Assign, Return, Eval, While, If, Print};
ghost use Rattle.std.specs.Option.{option_copied, option_map};
ghost use Rattle.rs_types.specs.Types.{local_of};
ghost use Rattle.rs_check.specs.Bodies.{assign_wrongs, fixed_wrongs, is_constant, let_typ, let_wrongs, name_wrongs, need_known};
ghost use Rattle.rs_check.specs.State.{around, checked, checked_all, checked_arms, checked_block, context, declaring, leaving, needing, said};

use inc_base::{Bytes, Memory};
use rs_diag::Fault;
use rs_names::Names;
use rs_tree::{At, Expr, IndexItem, Stmt, Typ};
use rs_types::{Local, Typer};
use sqlite_items::Items;
use std::alloc::Global;
use std::marker::Model;

/// The declared locals, each with the place of its name, in the order of the text.
#[derive(Drop)]
pub(crate) struct Declarations<'a> {
    items: Vec<(At, &'a [u8])>,
}

impl<'a> Model for Declarations<'a> {
    ghost use Rattle.std.specs.Prelude.{List, map, ℕ};
    ghost use Rattle.std.specs.Borrow.{Bor};
    ghost use Rattle.rs_tree.specs.declared.place.At.{At};
    ghost use Rattle.rs_check.specs.Bodies.{Declared};

    ghost Value = { Declared };

    ghost view = { λ d. map (λ (x : At × Bor (List ℕ)). (x.0, x.1.now)) d.items.items };
}

impl<'a> Declarations<'a> {
    pub(crate) fn new(alloc: Global) -> Declarations<'a>
        ensures { result ≡ [] }
    {
        Declarations {
            items: Vec::new(alloc),
        }
    }

    pub(crate) fn len(&self) -> usize
        ensures { result ≡ length self.now }
    {
        self.items.len()
    }

    // The declaration of a number, where there is one.
    pub(crate) fn get(&self, number: usize) -> Option<(At, &'a [u8])>
        ensures { option_map (λ (x : At × Bor (List ℕ)). (x.0, x.1.now)) result ≡ slice_get self.now number }
    {
        self.items.get(number).copied()
    }

    pub(crate) fn push(&mut self, at: At, name: &'a [u8]) -> Result<(), Memory>
        ensures { OnOk result (self.new ≡ self.old ++ (at, name.now) ∷ []) }
    {
        self.items.push((at, name))?;
        Ok(())
    }
}

/// Checks the statements of a body, in the order of the text.
#[derive(Drop)]
pub(crate) struct Checker<'a, 'b> {
    pub typer: Typer<'a, 'b>,
    pub names: &'b Names<'a>,
    pub module: &'a [u8],
    pub gives: Typ,
    pub declared: Declarations<'a>,
}

impl<'a, 'b> Checker<'a, 'b> {
    #[cycle(statement)]
    #[tactic(auto, using(crate::proofs::Bodies::bodies))]
    pub(crate) fn statement(&mut self, s: &'a Stmt) -> Result<(), Memory>
        ensures { OnOk result (self.new ≡ checked (sta s.now) self.old) }
    {
        match s {
            Stmt::Let {
                mutable,
                at,
                name,
                typ,
                value,
            } => self.binding(*mutable, *at, name, *typ, value),
            Stmt::Assign { at, name, value } => self.assignment(*at, name, value),
            Stmt::Return { at, value } => self.departure(*at, value),
            Stmt::Eval(value) => self.evaluation(value),
            Stmt::Print(value) => self.printing(value),
            Stmt::While { cond, body } => self.repetition(body.as_slice(), cond),
            Stmt::If { arms, other } => self.choice(arms.as_slice(), other),
        }
    }

    #[tactic(auto, using(crate::proofs::Bodies::bodies))]
    fn binding(
        &mut self,
        mutable: bool,
        at: At,
        name: &'a Bytes,
        typ: Option<Typ>,
        value: &'a Expr,
    ) -> Result<(), Memory>
        ensures { OnOk result (self.new ≡ checked (Let mutable at name.now typ (exp value.now)) self.old) }
    {
        let found = self.typer.expression(value)?;
        let typ = self.let_type(value.at, typ, found)?;
        self.clash(at, name.as_slice())?;
        self.declare(at, name.as_slice(), Local { typ, mutable })
    }

    fn let_type(
        &mut self,
        at: At,
        typ: Option<Typ>,
        found: Option<Typ>,
    ) -> Result<Option<Typ>, Memory>
        ensures typ { IfOk result (λ t. t ≡ let_typ typ found) }
        ensures said { OnOk result (self.new ≡ said (let_wrongs at typ found) self.old) }
    {
        match typ {
            Some(want) => {
                self.typer.need(at, want, found)?;
                Ok(Some(want))
            }
            None => {
                self.typer.need_value(at, found)?;
                Ok(valued(found))
            }
        }
    }

    // Refuses a local with the name of a constant of its module.
    pub(crate) fn clash(&mut self, at: At, name: &'a [u8]) -> Result<(), Memory>
        ensures { OnOk result (self.new ≡ said (name_wrongs (around self.old) at name.now) self.old) }
    {
        if is_constant(self.names.find((self.module, name))) {
            return self.typer.say(at, Fault::Constant(name));
        }
        Ok(())
    }

    /// Adds an innermost local.
    pub(crate) fn declare(&mut self, at: At, name: &'a [u8], local: Local) -> Result<(), Memory>
        ensures { OnOk result (self.new ≡ declaring at name.now local self.old) }
    {
        let number = self.typer.locals.len();
        self.typer.scope.declare(name, number)?;
        self.typer.locals.push(local)?;
        self.declared.push(at, name)
    }

    #[tactic(auto, using(crate::proofs::Bodies::bodies))]
    fn assignment(&mut self, at: At, name: &'a Bytes, value: &'a Expr) -> Result<(), Memory>
        ensures { OnOk result (self.new ≡ checked (Assign at name.now (exp value.now)) self.old) }
    {
        let found = self.typer.expression(value)?;
        self.assign(at, name.as_slice(), value.at, found)
    }

    #[tactic(auto, using(crate::proofs::Bodies::bodies))]
    fn assign(
        &mut self,
        at: At,
        name: &'a [u8],
        value: At,
        found: Option<Typ>,
    ) -> Result<(), Memory>
        ensures { OnOk result (self.new ≡ said (assign_wrongs at name.now value (local_of (context self.old) name.now) found) self.old) }
    {
        match self.local(name) {
            None => self.typer.say(at, Fault::NoLocal(name)),
            Some(local) => {
                self.fixed(at, name, local.mutable)?;
                self.need_known(value, local.typ, found)
            }
        }
    }

    fn fixed(&mut self, at: At, name: &'a [u8], mutable: bool) -> Result<(), Memory>
        ensures { OnOk result (self.new ≡ said (fixed_wrongs at name.now mutable) self.old) }
    {
        if mutable {
            return Ok(());
        }
        self.typer.say(at, Fault::Fixed(name))
    }

    fn local(&self, name: &'a [u8]) -> Option<Local>
        ensures { result ≡ local_of (context self.now) name.now }
    {
        let number = self.typer.scope.find(name)?;
        self.typer.locals.as_slice().get(number).copied()
    }

    fn need_known(&mut self, at: At, want: Option<Typ>, found: Option<Typ>) -> Result<(), Memory>
        ensures { OnOk result (self.new ≡ said (need_known at want found) self.old) }
    {
        match want {
            None => Ok(()),
            Some(want) => {
                self.typer.need(at, want, found)?;
                Ok(())
            }
        }
    }

    #[tactic(auto, using(crate::proofs::Bodies::bodies))]
    fn departure(&mut self, at: At, value: &'a Option<Expr>) -> Result<(), Memory>
        ensures { OnOk result (self.new ≡ checked (Return at (optional value.now)) self.old) }
    {
        let gives = self.gives;
        match value {
            None => {
                self.typer.need(at, gives, Some(Typ::Unit))?;
                Ok(())
            }
            Some(e) => {
                self.typer.needed(e, gives)?;
                Ok(())
            }
        }
    }

    #[tactic(auto, using(crate::proofs::Bodies::bodies))]
    fn evaluation(&mut self, value: &'a Expr) -> Result<(), Memory>
        ensures { OnOk result (self.new ≡ checked (Eval (exp value.now)) self.old) }
    {
        self.typer.expression(value)?;
        Ok(())
    }

    #[tactic(auto, using(crate::proofs::Bodies::bodies))]
    fn printing(&mut self, value: &'a Expr) -> Result<(), Memory>
        ensures { OnOk result (self.new ≡ checked (Print (exp value.now)) self.old) }
    {
        let found = self.typer.expression(value)?;
        self.typer.need_value(value.at, found)
    }

    fn condition(&mut self, cond: &'a Expr) -> Result<(), Memory>
        ensures { OnOk result (self.new ≡ needing (exp cond.now) cond.now.at self.old) }
    {
        self.typer.needed(cond, Typ::Bool)?;
        Ok(())
    }

    #[cycle(statement)]
    #[tactic(auto, using(crate::proofs::Bodies::bodies))]
    fn repetition(&mut self, body: &'a [Stmt], cond: &'a Expr) -> Result<(), Memory>
        ensures { OnOk result (self.new ≡ checked (While (exp cond.now) (statements body.now)) self.old) }
    {
        self.condition(cond)?;
        self.block(body)
    }

    #[cycle(statement)]
    #[tactic(auto, using(crate::proofs::Bodies::bodies))]
    fn block(&mut self, body: &'a [Stmt]) -> Result<(), Memory>
        ensures { OnOk result (self.new ≡ checked_block (statements body.now) self.old) }
    {
        let depth = self.typer.scope.depth();
        self.statements(body)?;
        self.leave(depth);
        Ok(())
    }

    // The locals that were declared since this depth are out of scope.
    fn leave(&mut self, depth: usize)
        requires { depth ≤ length self.old.typer.scope }
        ensures { self.new ≡ leaving depth self.old }
    {
        self.typer.scope.leave(depth);
    }

    #[cycle(statement)]
    #[tactic(auto, using(crate::proofs::Bodies::bodies))]
    pub(crate) fn statements(&mut self, body: &'a [Stmt]) -> Result<(), Memory>
        ensures { OnOk result (self.new ≡ checked_all (statements body.now) self.old) }
    {
        for s in body {
            self.statement(s)?;
        }
        Ok(())
    }

    #[cycle(statement)]
    #[tactic(auto, using(crate::proofs::Bodies::bodies))]
    fn choice(
        &mut self,
        arms: &'a [(Expr, Items<Stmt>)],
        other: &'a Option<Items<Stmt>>,
    ) -> Result<(), Memory>
        ensures { OnOk result (self.new ≡ checked (If (choices arms.now other.now)) self.old) }
    {
        for arm in arms {
            self.condition(&arm.0)?;
            self.block(arm.1.as_slice())?;
        }
        self.otherwise(other)
    }

    #[cycle(statement)]
    #[tactic(auto, using(crate::proofs::Bodies::bodies))]
    fn otherwise(&mut self, other: &'a Option<Items<Stmt>>) -> Result<(), Memory>
        ensures { OnOk result (self.new ≡ checked_arms (choices [] other.now) self.old) }
    {
        match other {
            None => Ok(()),
            Some(body) => {
                self.block(body.as_slice())?;
                Ok(())
            }
        }
    }
}

fn valued(found: Option<Typ>) -> Option<Typ>
    ensures { result ≡ let_typ None found }
{
    match found {
        None | Some(Typ::Unit) => None,
        Some(Typ::Int) => Some(Typ::Int),
        Some(Typ::Bool) => Some(Typ::Bool),
    }
}

fn is_constant(item: Option<&IndexItem>) -> bool
    ensures { result ≡ is_constant (option_copied item.entry) }
{
    match item {
        None => false,
        Some(item) => item.kind == 0,
    }
}
