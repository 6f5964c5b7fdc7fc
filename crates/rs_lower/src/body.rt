//! Statements.

ghost use Rattle.std.specs.Prelude.{◌≡◌, ◌≤◌, ◌+◌, Bool, [], ◌∷◌, OnOk, IfOk};
ghost use Rattle.rs_tree.specs.declared.answers.Found.TheVariants.{Absent};
ghost use Rattle.rs_tree.specs.declared.place.At.{At};
ghost use Rattle.rs_tree.specs.declared.tree.Typ.{Typ};
ghost use Rattle.rs_tree.specs.Leaves.{filled};
ghost use Rattle.rs_tree.specs.Plain.{exp, statements, choices, sta, optional, While, If};
ghost use Rattle.rs_lower.specs.Counts.{labels, labels_in, places, places_all, places_arms, lets, lets_all, lets_arms};
ghost use Rattle.rs_lower.specs.Code.{stored, popped, has_value, is_truth, is_truth_let, print_code, return_code};
ghost use Rattle.rs_lower.specs.Locals.{find};
ghost use Rattle.rs_lower.specs.State.{put, reduce, with_let, with_assign, with_eval, with_print, with_return, with_sta, with_stas, with_block, with_arm, with_arms};

use crate::expr::Lowerer;
use crate::locals::Held;
use inc_base::{Bytes, Memory};
use rs_tree::{Expr, Instr, Stmt, Typ};
use sqlite_items::Items;

impl<'a, 'b> Lowerer<'a, 'b> {
    #[cycle(statement)]
    #[tactic(auto, using(crate::proofs::Blocks::bodies))]
    pub(crate) fn statement(&mut self, s: &'a Stmt) -> Result<(), Memory>
        requires labels { self.old.labels + places (sta s.now) ≤ 65535 }
        requires slots { self.old.slots + lets (sta s.now) ≤ 65535 }
        ensures { OnOk result (self.new ≡ with_sta (sta s.now) self.old) }
    {
        match s {
            Stmt::Let {
                name,
                typ,
                value,
                ..
            } => self.binding(name, *typ, value),
            Stmt::Assign { name, value, .. } => self.assignment(name, value),
            Stmt::Return { value, .. } => self.departure(value),
            Stmt::Eval(value) => self.evaluation(value),
            Stmt::Print(value) => self.printing(value),
            Stmt::While { cond, body } => self.repetition(body.as_slice(), cond),
            Stmt::If { arms, other } => self.choice(arms.as_slice(), other),
        }
    }

    /// A variable gets the next slot, and is in scope behind its value.
    #[tactic(auto, using(crate::proofs::Blocks::bodies))]
    fn binding(&mut self, name: &'a Bytes, typ: Option<Typ>, value: &'a Expr) -> Result<(), Memory>
        requires labels { self.old.labels + labels (exp value.now) ≤ 65535 }
        requires slots { self.old.slots + 1 ≤ 65535 }
        ensures { OnOk result (self.new ≡ with_let name.now typ (exp value.now) self.old) }
    {
        let truth = self.is_truth_let(typ, value);
        self.value(value)?;
        let slot = self.slots;
        self.push(Instr::Store(slot))?;
        self.slots += 1;
        self.locals.declare(name.as_slice(), Held { slot, truth })
    }

    #[tactic(auto, using(crate::proofs::Blocks::bodies))]
    fn assignment(&mut self, name: &'a Bytes, value: &'a Expr) -> Result<(), Memory>
        requires { self.old.labels + labels (exp value.now) ≤ 65535 }
        ensures { OnOk result (self.new ≡ with_assign name.now (exp value.now) self.old) }
    {
        self.value(value)?;
        let instr = self.store(name);
        self.push(instr)
    }

    fn store(&self, name: &'a Bytes) -> Instr
        ensures { result ≡ stored (find name.now self.now.locals) }
    {
        match self.locals.find(name.as_slice()) {
            None => Instr::Plain(0x04),
            Some(held) => Instr::Store(held.slot),
        }
    }

    /// A `return`, and the end of a function.
    #[tactic(auto, using(crate::proofs::Blocks::bodies))]
    pub(crate) fn departure(&mut self, value: &'a Option<Expr>) -> Result<(), Memory>
        requires { self.old.labels + labels_in (optional value.now) ≤ 65535 }
        ensures { OnOk result (self.new ≡ with_return (optional value.now) self.old) }
    {
        match value {
            None => self.push(Instr::Plain(0x31)),
            Some(e) => {
                self.value(e)?;
                self.push(Instr::Plain(return_code(self.meanings.gives())))
            }
        }
    }

    #[tactic(auto, using(crate::proofs::Blocks::bodies))]
    fn evaluation(&mut self, value: &'a Expr) -> Result<(), Memory>
        requires { self.old.labels + labels (exp value.now) ≤ 65535 }
        ensures { OnOk result (self.new ≡ with_eval (exp value.now) self.old) }
    {
        let pops = self.has_value(value);
        self.value(value)?;
        self.pop_if(pops)
    }

    fn pop_if(&mut self, pops: bool) -> Result<(), Memory>
        ensures { OnOk result (self.new ≡ put (popped pops) self.old) }
    {
        if !pops {
            return Ok(());
        }
        self.push(Instr::Plain(0x04))
    }

    #[tactic(auto, using(crate::proofs::Blocks::bodies))]
    fn printing(&mut self, value: &'a Expr) -> Result<(), Memory>
        requires { self.old.labels + labels (exp value.now) ≤ 65535 }
        ensures { OnOk result (self.new ≡ with_print (exp value.now) self.old) }
    {
        let code = print_code(self.is_truth(value));
        self.value(value)?;
        self.push(Instr::Plain(code))
    }

    #[cycle(statement)]
    #[tactic(auto, using(crate::proofs::Blocks::bodies))]
    fn repetition(&mut self, body: &'a [Stmt], cond: &'a Expr) -> Result<(), Memory>
        requires labels { self.old.labels + (2 + labels (exp cond.now) + places_all (statements body.now)) ≤ 65535 }
        requires slots { self.old.slots + lets_all (statements body.now) ≤ 65535 }
        ensures { OnOk result (self.new ≡ with_sta (While (exp cond.now) (statements body.now)) self.old) }
    {
        let start = self.fresh();
        self.push(Instr::Label(start))?;
        self.value(cond)?;
        let end = self.fresh();
        self.push(Instr::Jump(0x29, end))?;
        self.block(body)?;
        self.push(Instr::Jump(0x28, start))?;
        self.push(Instr::Label(end))?;
        Ok(())
    }

    #[cycle(statement)]
    #[tactic(auto, using(crate::proofs::Blocks::bodies))]
    fn block(&mut self, body: &'a [Stmt]) -> Result<(), Memory>
        requires labels { self.old.labels + places_all (statements body.now) ≤ 65535 }
        requires slots { self.old.slots + lets_all (statements body.now) ≤ 65535 }
        ensures { OnOk result (self.new ≡ with_block (statements body.now) self.old) }
    {
        let depth = self.locals.depth();
        self.statements(body)?;
        self.locals.leave(depth);
        Ok(())
    }

    #[cycle(statement)]
    #[tactic(auto, using(crate::proofs::Blocks::bodies))]
    pub(crate) fn statements(&mut self, body: &'a [Stmt]) -> Result<(), Memory>
        requires labels { self.old.labels + places_all (statements body.now) ≤ 65535 }
        requires slots { self.old.slots + lets_all (statements body.now) ≤ 65535 }
        ensures { OnOk result (self.new ≡ with_stas (statements body.now) self.old) }
    {
        for s in body {
            self.statement(s)?;
        }
        Ok(())
    }

    /// A condition and its block. Answers the label behind the block, which has no place yet.
    #[cycle(statement)]
    #[tactic(auto, using(crate::proofs::Blocks::bodies))]
    fn arm(&mut self, body: &'a [Stmt], cond: &'a Expr) -> Result<u16, Memory>
        requires labels { self.old.labels + (1 + labels (exp cond.now) + places_all (statements body.now)) ≤ 65535 }
        requires slots { self.old.slots + lets_all (statements body.now) ≤ 65535 }
        ensures number { IfOk result (λ past. past ≡ self.old.labels + labels (reduce self.old (exp cond.now))) }
        ensures lowered { OnOk result (self.new ≡ with_arm (exp cond.now) (statements body.now) self.old) }
    {
        self.value(cond)?;
        let past = self.fresh();
        self.push(Instr::Jump(0x29, past))?;
        self.block(body)?;
        Ok(past)
    }

    #[cycle(statement)]
    #[tactic(auto, using(crate::proofs::Blocks::bodies))]
    fn choice(
        &mut self,
        arms: &'a [(Expr, Items<Stmt>)],
        other: &'a Option<Items<Stmt>>,
    ) -> Result<(), Memory>
        requires labels { self.old.labels + (1 + places_arms (choices arms.now other.now)) ≤ 65535 }
        requires slots { self.old.slots + lets_arms (choices arms.now other.now) ≤ 65535 }
        ensures { OnOk result (self.new ≡ with_sta (If (choices arms.now other.now)) self.old) }
    {
        match arms {
            [] => {
                let end = self.fresh();
                self.otherwise(other)?;
                self.push(Instr::Label(end))?;
                Ok(())
            }
            [first, more @ ..] => {
                let past = self.arm(first.1.as_slice(), &first.0)?;
                let end = self.fresh();
                self.join(end, past)?;
                for arm in more {
                    let past = self.arm(arm.1.as_slice(), &arm.0)?;
                    self.join(end, past)?;
                }
                self.otherwise(other)?;
                self.push(Instr::Label(end))?;
                Ok(())
            }
        }
    }

    #[tactic(auto, using(crate::proofs::Blocks::bodies))]
    fn join(&mut self, end: u16, past: u16) -> Result<(), Memory>
        ensures { OnOk result (self.new ≡ put (Instr.Jump 0x28 end ∷ Instr.Label past ∷ []) self.old) }
    {
        self.push(Instr::Jump(0x28, end))?;
        self.push(Instr::Label(past))?;
        Ok(())
    }

    #[cycle(statement)]
    #[tactic(auto, using(crate::proofs::Blocks::bodies))]
    fn otherwise(&mut self, other: &'a Option<Items<Stmt>>) -> Result<(), Memory>
        requires labels { self.old.labels + places_arms (choices [] other.now) ≤ 65535 }
        requires slots { self.old.slots + lets_arms (choices [] other.now) ≤ 65535 }
        ensures { OnOk result (self.new ≡ with_arms 0 (choices [] other.now) self.old) }
    {
        match other {
            None => Ok(()),
            Some(body) => {
                self.block(body.as_slice())?;
                Ok(())
            }
        }
    }
}

fn print_code(truth: bool) -> u8
    ensures { result ≡ print_code truth }
{
    if truth { 0x21 } else { 0x20 }
}

fn return_code(gives: bool) -> u8
    ensures { result ≡ return_code gives }
{
    if gives { 0x32 } else { 0x31 }
}
