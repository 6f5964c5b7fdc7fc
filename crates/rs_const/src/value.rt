ghost use Rattle.std.specs.Prelude.{◌≡◌, ℕ, Option, Some, None, false, IfOk, slice_get, slice_index_or};
ghost use Rattle.rs_const.specs.Constants.{AreValues, IsValueAt, sigs_of};
ghost use Rattle.rs_const.specs.State.{AreEnds, end_of};
ghost use Rattle.rs_tree.specs.declared.answers.Const.{Const as Value};

use crate::known::{Entry, names_of, places_of, sigs_of};
use crate::order::order;
use crate::settle::settle_all;
use inc_base::{List, Memory};
use rs_reach::in_cycles;
use rs_tree::{Const, Place, Sig};
use rs_types::Sigs;
use std::alloc::Global;

/// The value of the constant at a place (docs/LANGUAGE.md, "Constants").
///
/// `known` has the constants: the place of each, its item, and what the paths of its expression lead to, in the order of the
/// text; what it lacks counts as a function. Of equal places the first counts; a place that it lacks is `Bad`. Where
/// more than one value is asked for, `const_values` gives all at once.
pub fn const_value(at: &Place, known: &List<Entry>) -> Result<Const, Memory>
    ensures { IfOk result (λ c. IsValueAt known.now at.now c) }
{
    let alloc = known.allocator();
    let values = const_values(alloc, known.as_slice())?;
    let places = places_of(alloc, known.as_slice())?;
    let found = places.find((at.module.as_slice(), at.name.as_slice()));
    Ok(value_at(&values, found))
}

/// The values of constants, in their order: of each its value, or why it has none (docs/LANGUAGE.md, "Constants").
pub fn const_values(alloc: Global, known: &[Entry]) -> Result<Vec<Const>, Memory>
    ensures { IfOk result (λ cs. AreValues known.now cs.items) }
{
    let sigs = sigs_of(alloc, known)?;
    values_by(alloc, known, sigs.as_slice())
}

fn values_by<'a>(
    alloc: Global,
    known: &'a [Entry],
    sigs: &'a [(Place, Sig)],
) -> Result<Vec<Const>, Memory>
    requires { sigs.now ≡ sigs_of known.now }
    ensures { IfOk result (λ cs. AreValues known.now cs.items) }
{
    let places = places_of(alloc, known)?;
    let sigs = Sigs::new(alloc, sigs)?;
    let its = names_of(alloc, known, &places)?;
    let settled = settle_all(alloc, known, &places, &sigs, &its)?;
    finished(alloc, &its, &settled)
}

// What isn't settled is in a cycle, or leads to one.
fn finished(
    alloc: Global,
    its: &[Vec<usize>],
    settled: &[Option<Const>],
) -> Result<Vec<Const>, Memory>
    ensures { IfOk result (λ cs. AreEnds its.now settled.now cs.items) }
{
    let order = order(alloc, its)?;
    let cyclic = in_cycles(alloc, its, &order)?;
    let mut values = Vec::with_capacity(alloc, settled.len())?;
    for at in 0..settled.len() {
        values.push(end(&cyclic, settled, at))?;
    }
    Ok(values)
}

fn end(cyclic: &[bool], settled: &[Option<Const>], at: usize) -> Const
    ensures { (o : Option Value) → slice_get settled.now at ≡ Some o → result ≡ end_of (slice_index_or cyclic.now at false) o }
{
    match settled.get(at) {
        Some(Some(value)) => *value,
        Some(None) => unsettled(cyclic, at),
        None => Const::Bad,
    }
}

fn unsettled(cyclic: &[bool], at: usize) -> Const
    ensures { result ≡ end_of (slice_index_or cyclic.now at false) None }
{
    if at < cyclic.len() && cyclic[at] {
        Const::Cycle
    } else {
        Const::Bad
    }
}

fn value_at(values: &[Const], at: Option<usize>) -> Const
    ensures known { (i : ℕ) (c : Value) → at ≡ Some i → slice_get values.now i ≡ Some c → result ≡ c }
    ensures unknown { at ≡ None → result ≡ Const.Bad }
{
    match at {
        Some(at) => match values.get(at) {
            Some(value) => *value,
            None => Const::Bad,
        },
        None => Const::Bad,
    }
}
