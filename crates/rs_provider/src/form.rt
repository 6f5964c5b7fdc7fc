//! The intermediate form of a function.

ghost use Rattle.std.specs.Prelude.{◌≡◌, ◌++◌, ◌∷◌, [], IfOk, OnOk};
ghost use Rattle.std.specs.List.{cons_option, filter_map, list_any};
ghost use Rattle.std.specs.Option.{option_map};
ghost use Rattle.rs_forms.specs.Forms.{ir_form};
ghost use Rattle.rs_lines.specs.Lines.{is_warning};
ghost use Rattle.rs_lower.specs.Lowered.{lowered};
ghost use Rattle.rs_plans.specs.Plans.{answers, consts_used, ir_from, is_wrong, sigs_used, use_in, use_query};
ghost use Rattle.rs_provider.specs.Each.{turn_left, turn_of};
ghost use Rattle.rs_provider.specs.Rests.{after, form_by, form_left, rest};
ghost use Rattle.rs_provider.specs.declared.state.State.TheVariants as state;

use crate::check::wrongs;
use crate::each::{Turn, turned};
use crate::naming::named_items;
use crate::state::{Forming, Resolved, State};
use crate::using::{Use, use_in};
use inc_base::{Bytes, Copied, List, Memory};
use rs_forms::ir_bytes;
use rs_lower::lower;
use rs_tree::{Const, Diag, Place, Sig};
use std::alloc::Global;

/// The form of a function at a level, which begins with what is known of the items that its paths lead to.
pub(crate) fn form_of(level: u8, of: Resolved) -> Result<State, Memory>
    requires { of.found ≡ answers of.index.value of.at of.item.value }
    ensures { IfOk result (λ s. rest s ≡ ir_from level of.at of.item.value of.index.value) }
{
    match named_items(&of.found) {
        Err(refused) => {
            drop(of);
            Err(refused)
        }
        Ok(left) => {
            let none = List::new(of.found.allocator());
            forming(level, of, turned(none, left))
        }
    }
}

fn forming(level: u8, of: Resolved, turn: Turn<Use>) -> Result<State, Memory>
    ensures { IfOk result (λ s. rest s ≡ turn_left (use_query of.index.value) (use_in of.index.value) turn (form_left level of)) }
{
    match turn {
        Turn::Next(each) => Ok(State::Form(Forming { of, level, each })),
        Turn::All(uses) => {
            let value = form_value(level, &of, uses.as_slice());
            drop(of);
            drop(uses);
            Ok(State::Done(value?))
        }
    }
}

// A function with an error has no form.
fn form_value(level: u8, of: &Resolved, uses: &[(Place, Use)]) -> Result<Bytes, Memory>
    ensures { IfOk result (λ v. v ≡ form_by level of.now uses.now) }
{
    let alloc = of.found.allocator();
    let sigs = sigs_used(alloc, uses)?;
    let diags = wrongs(of, &sigs, None)?;
    if has_wrong(diags.as_slice()) {
        return Ok(Bytes::new(alloc));
    }
    let consts = consts_used(alloc, uses)?;
    lowered(level, of, &sigs, &consts)
}

fn lowered(
    level: u8,
    of: &Resolved,
    sigs: &List<(Place, Sig)>,
    consts: &List<(Place, Const)>,
) -> Result<Bytes, Memory>
    ensures { IfOk result (λ v. v ≡ ir_form (lowered level of.now.found sigs.now consts.now of.now.item.value)) }
{
    let ir = lower(of.item.as_ref(), &of.found, sigs, consts, level)?;
    ir_bytes(&ir)
}

fn has_wrong(diags: &[Diag]) -> bool
    ensures { result ≡ list_any is_wrong diags.now }
{
    diags.iter().any(|diag| is_wrong(diag))
}

fn is_wrong(diag: &Diag) -> bool
    ensures { result ≡ is_wrong diag.now }
{
    !is_warning(diag.code)
}

fn is_warning(code: u16) -> bool
    ensures { result ≡ is_warning code }
{
    code > 199
}

fn sigs_used(alloc: Global, uses: &[(Place, Use)]) -> Result<List<(Place, Sig)>, Memory>
    ensures { IfOk result (λ sigs. sigs ≡ sigs_used uses.now) }
{
    let mut sigs = List::new(alloc);
    for one in uses {
        sigs.push((one.0.copy()?, one.1.0.copy()?))?;
    }
    Ok(sigs)
}

#[tactic(auto, using(rs_const::proofs::Lists::filtered_more))]
fn consts_used(alloc: Global, uses: &[(Place, Use)]) -> Result<List<(Place, Const)>, Memory>
    ensures { IfOk result (λ consts. consts ≡ consts_used uses.now) }
{
    let mut consts = List::new(alloc);
    for one in uses {
        push_const(&mut consts, one)?;
    }
    Ok(consts)
}

fn push_const(to: &mut List<(Place, Const)>, one: &(Place, Use)) -> Result<(), Memory>
    ensures { OnOk result (to.new ≡ to.old ++ cons_option (option_map (λ c. (one.now.0, c)) one.now.1.1) []) }
{
    match one.1.1 {
        None => Ok(()),
        Some(value) => to.push((one.0.copy()?, value)),
    }
}

impl Forming {
    /// With what a value says of the next item.
    pub(crate) fn fed(self, value: &Bytes) -> Result<State, Memory>
        ensures { IfOk result (λ s. rest s ≡ after (rest (state.Form self)) value.now) }
    {
        match use_in(self.of.index.as_ref(), &self.each.next, value) {
            Err(refused) => {
                drop(self);
                Err(refused)
            }
            Ok(None) => {
                drop(self);
                Ok(State::Done(Bytes::new(value.allocator())))
            }
            Ok(Some(one)) => self.with(one),
        }
    }

    fn with(self, one: Use) -> Result<State, Memory>
        ensures { IfOk result (λ s. rest s ≡ turn_left (use_query self.of.index.value) (use_in self.of.index.value) (turn_of (self.each.done ++ (self.each.next, one) ∷ []) self.each.left) (form_left self.level self.of)) }
    {
        let Forming { of, level, each } = self;
        match each.with(one) {
            Ok(turn) => forming(level, of, turn),
            Err(refused) => {
                drop(of);
                Err(refused)
            }
        }
    }
}
