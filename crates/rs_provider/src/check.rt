//! What is wrong with an item.

ghost use Rattle.std.specs.Prelude.{◌≡◌, ◌++◌, ◌∷◌, [], IfOk};
ghost use Rattle.rs_answers.specs.Forms.{diags_form};
ghost use Rattle.rs_plans.specs.Plans.{answers, check_from};
ghost use Rattle.rs_plans.specs.Readings.{sig_in};
ghost use Rattle.rs_plans.specs.Steps.{query};
ghost use Rattle.rs_provider.specs.Each.{turn_left, turn_of};
ghost use Rattle.rs_provider.specs.Rests.{after, checked, rest, wrongs_by};
ghost use Rattle.rs_provider.specs.declared.state.State.TheVariants as state;

use crate::each::{Turn, turned};
use crate::naming::named_items;
use crate::reading::{const_in, sig_in};
use crate::sig::is_constant;
use crate::state::{Checking, Resolved, State, Valuing};
use inc_base::{Bytes, List, Memory};
use rs_answers::diags_bytes;
use rs_check::check_in;
use rs_tree::{Const, Diag, Place, Sig};
use rs_types::Sigs;

/// The check of an item, which begins with the signatures of the items that its paths lead to.
pub(crate) fn check_of(of: Resolved) -> Result<State, Memory>
    requires { of.found ≡ answers of.index.value of.at of.item.value }
    ensures { IfOk result (λ s. rest s ≡ check_from of.at of.item.value of.index.value) }
{
    match named_items(&of.found) {
        Err(refused) => {
            drop(of);
            Err(refused)
        }
        Ok(left) => {
            let none = List::new(of.found.allocator());
            checking(of, turned(none, left))
        }
    }
}

fn checking(of: Resolved, turn: Turn<Sig>) -> Result<State, Memory>
    ensures { IfOk result (λ s. rest s ≡ turn_left (query 3) (λ p. sig_in) turn (checked of)) }
{
    match turn {
        Turn::Next(each) => Ok(State::Check(Checking { of, each })),
        Turn::All(sigs) => checked(of, sigs),
    }
}

fn checked(of: Resolved, sigs: List<(Place, Sig)>) -> Result<State, Memory>
    ensures { IfOk result (λ s. rest s ≡ checked of sigs) }
{
    if is_constant(of.item.as_ref()) {
        return Ok(State::Value(Valuing { of, sigs }));
    }
    let value = wrongs_value(&of, &sigs, None);
    drop(of);
    drop(sigs);
    Ok(State::Done(value?))
}

fn wrongs_value(
    of: &Resolved,
    sigs: &List<(Place, Sig)>,
    value: Option<Const>,
) -> Result<Bytes, Memory>
    ensures { IfOk result (λ v. v ≡ diags_form (wrongs_by of.now sigs.now value)) }
{
    let diags = wrongs(of, sigs, value)?;
    diags_bytes(&diags)
}

/// What is wrong with an item, by these signatures, and by its value where it is a constant.
pub(crate) fn wrongs(
    of: &Resolved,
    sigs: &List<(Place, Sig)>,
    value: Option<Const>,
) -> Result<List<Diag>, Memory>
    ensures { IfOk result (λ ds. ds ≡ wrongs_by of.now sigs.now value) }
{
    let alloc = of.found.allocator();
    let names = of.index.as_ref().names();
    let sigs = Sigs::new(alloc, sigs.as_slice())?;
    check_in(
        alloc,
        of.item.as_ref(),
        of.at.module.as_slice(),
        &names,
        of.found.as_slice(),
        &sigs,
        value,
    )
}

impl Checking {
    /// With the signature that a value is.
    pub(crate) fn fed(self, value: &Bytes) -> Result<State, Memory>
        ensures { IfOk result (λ s. rest s ≡ after (rest (state.Check self)) value.now) }
    {
        match sig_in(value) {
            Err(refused) => {
                drop(self);
                Err(refused)
            }
            Ok(None) => {
                drop(self);
                Ok(State::Done(Bytes::new(value.allocator())))
            }
            Ok(Some(sig)) => self.with(sig),
        }
    }

    fn with(self, sig: Sig) -> Result<State, Memory>
        ensures { IfOk result (λ s. rest s ≡ turn_left (query 3) (λ p. sig_in) (turn_of (self.each.done ++ (self.each.next, sig) ∷ []) self.each.left) (checked self.of)) }
    {
        let Checking { of, each } = self;
        match each.with(sig) {
            Ok(turn) => checking(of, turn),
            Err(refused) => {
                drop(of);
                Err(refused)
            }
        }
    }
}

impl Valuing {
    /// With the constant's value that a value is.
    pub(crate) fn fed(self, value: &Bytes) -> Result<State, Memory>
        ensures { IfOk result (λ s. rest s ≡ after (rest (state.Value self)) value.now) }
    {
        match const_in(value) {
            Err(refused) => {
                drop(self);
                Err(refused)
            }
            Ok(None) => {
                drop(self);
                Ok(State::Done(Bytes::new(value.allocator())))
            }
            Ok(Some(constant)) => {
                let given = wrongs_value(&self.of, &self.sigs, Some(constant));
                drop(self);
                Ok(State::Done(given?))
            }
        }
    }
}
