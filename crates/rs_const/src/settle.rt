ghost use Rattle.std.specs.Prelude.{◌≡◌, ◌<◌, true, length, set, Some, None, IfOk, OnOk, IfSome, slice_get};
ghost use Rattle.std.specs.List.{list_all};
ghost use Rattle.rs_const.specs.Constants.{Entry as Known, given_by, names, sigs_of, worth, worth_by};
ghost use Rattle.rs_tree.specs.Plain.{definition};
ghost use Rattle.rs_const.specs.State.{AreNames, AreSettled, IsStuck, is_done, is_open, is_ready, names_at, number_at, opens};

use crate::known::Entry;
use crate::order::order;
use crate::worth::{given_by, worth};
use inc_base::Memory;
use rs_lookup::Places;
use rs_tree::Const;
use rs_types::Sigs;
use std::alloc::Global;

// Settles as many as can be, each after those that it names.
pub(crate) fn settle_all<'a>(
    alloc: Global,
    known: &'a [Entry],
    places: &Places<'a>,
    sigs: &Sigs<'a>,
    its: &[Vec<usize>],
) -> Result<Vec<Option<Const>>, Memory>
    requires places { places.now ≡ names known.now }
    requires sigs { sigs.now ≡ sigs_of known.now }
    requires names { AreNames known.now its.now }
    ensures all { IfOk result (λ v. length v.items ≡ length known.now) }
    ensures settled { IfOk result (λ v. AreSettled known.now its.now v.items) }
    ensures stuck { IfOk result (λ v. IsStuck its.now v.items) }
{
    let mut values = open_values(alloc, known)?;
    let mut order = order(alloc, its)?;
    'settling: for _ in 0..known.len() + 1 {
        match next_ready(&mut order, its, &values) {
            None => return Ok(values),
            Some(at) => settle(alloc, known, places, sigs, &mut values, at)?,
        }
    }
    Ok(values)
}

fn open_values(alloc: Global, known: &[Entry]) -> Result<Vec<Option<Const>>, Memory>
    ensures { IfOk result (λ v. v.items ≡ opens known.now) }
{
    let mut values = Vec::with_capacity(alloc, known.len())?;
    for _entry in known {
        values.push(None)?;
    }
    Ok(values)
}

// Settles one of which all that it names is settled.
fn settle<'a>(
    alloc: Global,
    known: &'a [Entry],
    places: &Places<'a>,
    sigs: &Sigs<'a>,
    values: &mut Vec<Option<Const>>,
    at: usize,
) -> Result<(), Memory>
    requires places { places.now ≡ names known.now }
    requires sigs { sigs.now ≡ sigs_of known.now }
    ensures { OnOk result ((e : Known) → slice_get known.now at ≡ Some e → at < length values.old.items → values.new.items ≡ set values.old.items at (Some (worth_by (number_at values.old.items) known.now e))) }
{
    let Some(entry) = known.get(at) else {
        return Ok(());
    };
    let value = worth_by(alloc, entry, places, sigs, values)?;
    put(values, at, value);
    Ok(())
}

fn worth_by<'a>(
    alloc: Global,
    entry: &'a Entry,
    places: &Places<'a>,
    sigs: &Sigs<'a>,
    values: &[Option<Const>],
) -> Result<Const, Memory>
    ensures { IfOk result (λ c. c ≡ worth sigs.now (definition entry.now.1.body) entry.now.2 (given_by (number_at values.now) places.now entry.now.2)) }
{
    let found = entry.2.as_slice();
    let given = given_by(alloc, places, found, values)?;
    worth(alloc, sigs, &entry.1.body, found, &given)
}

fn put(values: &mut Vec<Option<Const>>, at: usize, value: Const)
    ensures { at < length values.old.items → values.new.items ≡ set values.old.items at (Some value) }
{
    if at < values.len() {
        values[at] = Some(value);
    }
}

// One that can be settled: the next in the order, or any where none of these can.
fn next_ready(order: &mut Vec<usize>, its: &[Vec<usize>], values: &[Option<Const>]) -> Option<usize>
    ensures ready { IfSome result (λ at. is_ready its.now values.now at ≡ true) }
    ensures stuck { result ≡ None → IsStuck its.now values.now }
{
    for _ in 0..order.len() {
        match order.pop() {
            None => return first_ready(its, values),
            Some(at) => {
                if is_ready(its, values, at) {
                    return Some(at);
                }
            }
        }
    }
    first_ready(its, values)
}

fn first_ready(its: &[Vec<usize>], values: &[Option<Const>]) -> Option<usize>
    ensures ready { IfSome result (λ at. is_ready its.now values.now at ≡ true) }
    ensures stuck { result ≡ None → IsStuck its.now values.now }
{
    for at in 0..values.len() {
        if is_ready(its, values, at) {
            return Some(at);
        }
    }
    None
}

fn is_ready(its: &[Vec<usize>], values: &[Option<Const>], at: usize) -> bool
    ensures { result ≡ is_ready its.now values.now at }
{
    is_open(values, at) && are_done(names_at(its, at), values)
}

fn names_at(its: &[Vec<usize>], at: usize) -> &[usize]
    ensures { result.now ≡ names_at its.now at }
{
    match its.get(at) {
        Some(names) => names.as_slice(),
        None => &[],
    }
}

fn are_done(names: &[usize], values: &[Option<Const>]) -> bool
    ensures { result ≡ list_all (is_done values.now) names.now }
{
    names.iter().all(|name| is_done(values, *name))
}

fn is_done(values: &[Option<Const>], at: usize) -> bool
    ensures { result ≡ is_done values.now at }
{
    match values.get(at) {
        Some(value) => value.is_some(),
        None => false,
    }
}

fn is_open(values: &[Option<Const>], at: usize) -> bool
    ensures { result ≡ is_open values.now at }
{
    match values.get(at) {
        Some(value) => value.is_none(),
        None => false,
    }
}
