ghost use Rattle.std.specs.Prelude.{◌≡◌, ◌<◌, ◌↔◌, ◌⊎◌, ℕ, Bool, List, false, true, length, nat_eq, slice_index, slice_index_or, IfOk, IsTrue};
ghost use Rattle.std.specs.List.{Contains, list_all, list_any};
ghost use Rattle.rs_reach.specs.Reached.{IsReachedFrom};
ghost use Rattle.rs_reach.specs.Cycles.{AllFit, AreCyclic, AreEntered, back_of, fits, forth_of, is_entering, is_onward, is_own, is_placed, is_same, is_toward, pivot_of};

use crate::classes::{Classes, classify};
use crate::dead::is_marked;
use crate::reached::reached_from;
use inc_base::Memory;
use std::alloc::Global;

/// Of each number, whether it reaches itself by one step or more, where each names others.
///
/// `order` may be anything. Where it has each number before those that it reaches and that don't reach it, all is found by
/// some looks at each list; else each number is searched for itself.
pub fn in_cycles(alloc: Global, names: &[Vec<usize>], order: &[usize]) -> Result<Vec<bool>, Memory>
    ensures { IfOk result (λ marks. AreCyclic names.now marks.items) }
{
    let classes = classify(alloc, names, order)?;
    let entered = entered(alloc, names, &classes)?;
    let sorted = all_fit(names, &classes, &entered);
    let mut marks = Vec::with_capacity(alloc, names.len())?;
    for at in 0..names.len() {
        marks.push(is_cyclic(alloc, names, &classes, sorted, at)?)?;
    }
    Ok(marks)
}

// One number, by its class where classes were tested.
fn is_cyclic(
    alloc: Global,
    names: &[Vec<usize>],
    classes: &Classes,
    sorted: bool,
    at: usize,
) -> Result<bool, Memory>
    requires { at < length names.now }
    ensures { IfOk result (λ b. (entered : List Bool) → AreEntered names.now classes.now entered → (IsTrue sorted → AllFit names.now classes.now entered) → IsTrue b ↔ IsReachedFrom names.now at at) }
{
    if sorted {
        return Ok(has_own(names.len(), classes, at, &names[at]));
    }
    is_in_cycle(alloc, names, at)
}

fn is_in_cycle(alloc: Global, names: &[Vec<usize>], at: usize) -> Result<bool, Memory>
    ensures { IfOk result (λ b. IsTrue b ↔ IsReachedFrom names.now at at) }
{
    let found = reached_from(alloc, names, at)?;
    Ok(has(&found, at))
}

fn has(found: &[usize], number: usize) -> bool
    ensures { result ≡ list_any (nat_eq number) found.now }
{
    found.iter().any(|it| number == *it)
}

// ---- The test of classes.

// Of each number whether a step enters it that stays in its class.
fn entered(alloc: Global, names: &[Vec<usize>], classes: &Classes) -> Result<Vec<bool>, Memory>
    ensures { IfOk result (λ entered. AreEntered names.now classes.now entered.items) }
{
    let mut entered = Vec::with_capacity(alloc, names.len())?;
    for _its in names {
        entered.push(false)?;
    }
    for (from, its) in names.iter().enumerate() {
        enter(&mut entered, classes, from, its);
    }
    Ok(entered)
}

fn enter(entered: &mut Vec<bool>, classes: &Classes, from: usize, its: &[usize])
    ensures { (v : ℕ) → slice_index_or entered.new.items v false ≡ true → (slice_index_or entered.old.items v false ≡ true) ⊎ (Contains its.now v × (is_entering classes.now from v ≡ true)) }
{
    for named in its {
        if *named < entered.len() && is_entering(classes, from, *named) {
            entered[*named] = true;
        }
    }
}

fn all_fit(names: &[Vec<usize>], classes: &Classes, entered: &[bool]) -> bool
    ensures { IsTrue result → AllFit names.now classes.now entered.now }
{
    for (at, its) in names.iter().enumerate() {
        if !fits(names.len(), classes, entered, at, its) {
            return false;
        }
    }
    true
}

fn fits(count: usize, classes: &Classes, entered: &[bool], at: usize, its: &[usize]) -> bool
    ensures { result ≡ fits count classes.now entered.now at its.now }
{
    goes_onward(classes, at, its) && is_placed(count, classes, entered, at, its)
}

fn is_placed(count: usize, classes: &Classes, entered: &[bool], at: usize, its: &[usize]) -> bool
    ensures { result ≡ is_placed count classes.now entered.now at its.now }
{
    pivot_of(classes, at) == at || leads_toward(count, classes, at, its) && is_marked(entered, at)
}

fn goes_onward(classes: &Classes, at: usize, its: &[usize]) -> bool
    ensures { result ≡ list_all (is_onward classes.now at) its.now }
{
    its.iter().all(|to| is_onward(classes, at, *to))
}

fn leads_toward(count: usize, classes: &Classes, at: usize, its: &[usize]) -> bool
    ensures { result ≡ list_any (is_toward count classes.now at) its.now }
{
    its.iter().any(|to| is_toward(count, classes, at, *to))
}

fn has_own(count: usize, classes: &Classes, at: usize, its: &[usize]) -> bool
    ensures { result ≡ list_any (is_own count classes.now at) its.now }
{
    its.iter().any(|to| is_own(count, classes, at, *to))
}

// ---- Steps.

fn is_onward(classes: &Classes, from: usize, to: usize) -> bool
    ensures { result ≡ is_onward classes.now from to }
{
    is_same(classes, from, to)
        || back_of(classes, pivot_of(classes, from)) < back_of(classes, pivot_of(classes, to))
}

fn is_own(count: usize, classes: &Classes, from: usize, to: usize) -> bool
    ensures { result ≡ is_own count classes.now from to }
{
    to < count && is_same(classes, from, to)
}

fn is_toward(count: usize, classes: &Classes, from: usize, to: usize) -> bool
    ensures { result ≡ is_toward count classes.now from to }
{
    is_own(count, classes, from, to) && back_of(classes, to) < back_of(classes, from)
}

fn is_entering(classes: &Classes, from: usize, to: usize) -> bool
    ensures { result ≡ is_entering classes.now from to }
{
    is_same(classes, from, to) && forth_of(classes, from) < forth_of(classes, to)
}

fn is_same(classes: &Classes, from: usize, to: usize) -> bool
    ensures { result ≡ is_same classes.now from to }
{
    pivot_of(classes, from) == pivot_of(classes, to)
}

fn pivot_of(classes: &Classes, at: usize) -> usize
    ensures { result ≡ pivot_of classes.now at }
{
    place(&classes.pivot, at)
}

fn back_of(classes: &Classes, at: usize) -> usize
    ensures { result ≡ back_of classes.now at }
{
    place(&classes.back, at)
}

fn forth_of(classes: &Classes, at: usize) -> usize
    ensures { result ≡ forth_of classes.now at }
{
    place(&classes.forth, at)
}

fn place(places: &[usize], at: usize) -> usize
    ensures { result ≡ slice_index places.now at }
{
    if at < places.len() { places[at] } else { 0 }
}
