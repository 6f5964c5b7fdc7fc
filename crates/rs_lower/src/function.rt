ghost use Rattle.std.specs.Prelude.{◌≡◌, ◌≤◌, ◌+◌, length, drop, IsTrue, IfOk, OnOk};
ghost use Rattle.rs_tree.specs.Plain.{statements, optional};
ghost use Rattle.rs_tree.specs.Leaves.{filled_in, stas_filled, stas_leaves};
ghost use Rattle.rs_tree.specs.declared.answers.Found.TheVariants.{Absent};
ghost use Rattle.rs_lower.specs.Laws.{IsForm};
ghost use Rattle.rs_lower.specs.Lowered.{is_within, is_within_limits, lowered, no_code, reduced_code};
ghost use Rattle.rs_lower.specs.State.{declared_params};

use crate::answers::Answers;
use crate::count::{add, labels_in, lets_all, places_all};
use crate::expr::Lowerer;
use crate::known::Known;
use crate::locals::{Held, Locals};
use crate::lowering::Lowering;
use crate::types::{is_truth_type, is_value_type};
use inc_base::{List, Memory};
use rs_tree::{Body, Const, Expr, Found, Instr, Ir, Item, Param, Place, Sig, Stmt};
use std::alloc::Global;

/// The most slots, and the most labels, of a function.
const MOST: u32 = 65_535;

/// The intermediate form of a function, as `Lowering::lower` gives it, of signatures and constants that are made ready for it alone.
pub fn lower(
    item: &Item,
    found: &List<Found>,
    sigs: &List<(Place, Sig)>,
    consts: &List<(Place, Const)>,
    level: u8,
) -> Result<Ir, Memory>
    ensures lowered { IfOk result (λ ir. ir ≡ lowered level found.now sigs.now consts.now item.now) }
    ensures form { IfOk result IsForm }
{
    let lowering = Lowering::new(sigs, consts)?;
    let ir = lowering.lower(item, found, level)?;
    Ok(ir)
}

impl<'a> Lowering<'a> {
    /// The intermediate form of a function. Level 0 folds nothing; any other level is level 0 of the function in which what has a value
    /// stands as that value.
    ///
    /// `found` has an answer for each path of the item, in order of the text; the signatures are those of the functions that paths lead
    /// to, and the values those of the constants. A function of more than 65,535 slots or labels, and what is no
    /// function, has no parameters, no slots and one instruction, which returns. `Memory` where there is none for the
    /// form (docs/FORMATS.md, "Lowering").
    pub fn lower(&self, item: &'a Item, found: &'a List<Found>, level: u8) -> Result<Ir, Memory>
        ensures lowered { IfOk result (λ ir. ir ≡ lowered level found.now self.now.sigs self.now.consts item.now) }
        ensures form { IfOk result IsForm }
    {
        let ir = self.form_of(item, found, level)?;
        Ok(ir)
    }

    fn form_of(&self, item: &'a Item, found: &'a List<Found>, level: u8) -> Result<Ir, Memory>
        ensures { IfOk result (λ ir. ir ≡ lowered level found.now self.now.sigs self.now.consts item.now) }
    {
        let alloc = found.allocator();
        match &item.body {
            Body::Const { .. } => no_code(alloc, false),
            Body::Func {
                inline,
                params,
                gives,
                stmts,
                tail,
            } => {
                let stmts = stmts.as_slice();
                if !is_within(params.as_slice(), stmts, tail) {
                    return no_code(alloc, *inline);
                }
                let known = Known::new(self, is_value_type(*gives), level != 0);
                let params = params.as_slice();
                lower_function(
                    alloc,
                    *inline,
                    params,
                    stmts,
                    tail,
                    found.as_slice(),
                    &known,
                )
            }
        }
    }
}

/// Whether the slots and the labels of an item, where it is a function, are few enough to be lowered. It takes time
/// linear in the item (docs/FORMATS.md, "Lowering").
pub fn is_within_limits(item: &Item) -> bool
    ensures { result ≡ is_within_limits item.now }
{
    match &item.body {
        Body::Const { .. } => true,
        Body::Func {
            params,
            stmts,
            tail,
            ..
        } => is_within(params.as_slice(), stmts.as_slice(), tail),
    }
}

/// What stands for a function past a limit.
fn no_code(alloc: Global, inline: bool) -> Result<Ir, Memory>
    ensures { IfOk result (λ ir. ir ≡ no_code inline) }
{
    let mut code = List::new(alloc);
    code.push(Instr::Plain(0x31))?;
    Ok(Ir {
        inline,
        params: 0,
        slots: 0,
        code,
    })
}

/// Whether the slots and the labels of a function are few enough.
#[tactic(auto, using(crate::proofs::Caps::caps))]
fn is_within(params: &[Param], stmts: &[Stmt], tail: &Option<Expr>) -> bool
    ensures { result ≡ is_within params.now (statements stmts.now) (optional tail.now) }
{
    if params.len() > MOST as usize {
        return false;
    }
    let slots = add(params.len() as u32, lets_all(stmts));
    let labels = add(places_all(stmts), labels_in(tail));
    slots <= MOST && labels <= MOST
}

#[tactic(auto, using(crate::proofs::Whole::wholes))]
fn lower_function<'a, 'b>(
    alloc: Global,
    inline: bool,
    params: &'a [Param],
    stmts: &'a [Stmt],
    tail: &'a Option<Expr>,
    found: &'a [Found],
    known: &'b Known<'a, 'b>,
) -> Result<Ir, Memory>
    requires { IsTrue (is_within params.now (statements stmts.now) (optional tail.now)) }
    ensures { IfOk result (λ ir. ir ≡ reduced_code known.now inline params.now (stas_filled Absent found.now (statements stmts.now)) (filled_in Absent (drop (length (stas_leaves (statements stmts.now))) found.now) (optional tail.now))) }
{
    let mut lowerer = Lowerer {
        code: List::new(alloc),
        labels: 0,
        slots: 0,
        locals: Locals::new(alloc),
        answers: Answers::new(found),
        meanings: known,
    };
    lowerer.params(params)?;
    lowerer.statements(stmts)?;
    lowerer.departure(tail)?;
    Ok(Ir {
        inline,
        params: params.len() as u16,
        slots: lowerer.slots,
        code: lowerer.code,
    })
}

impl<'a, 'b> Lowerer<'a, 'b> {
    /// Parameters have the first slots.
    #[tactic(auto, using(crate::proofs::Whole::wholes))]
    fn params(&mut self, params: &'a [Param]) -> Result<(), Memory>
        requires { self.old.slots + length params.now ≤ 65535 }
        ensures { OnOk result (self.new ≡ declared_params params.now self.old) }
    {
        for param in params {
            let slot = self.slots;
            let truth = is_truth_type(param.typ);
            self.locals
                .declare(param.name.as_slice(), Held { slot, truth })?;
            self.slots += 1;
        }
        Ok(())
    }
}
