//! What items call, and lines of functions that are never used.

ghost use Rattle.std.specs.Prelude.{◌≡◌, map, fold, IfOk, OnOk};
ghost use Rattle.std.specs.List.{flat_map};
ghost use Rattle.rs_lookup.specs.Keys.{plain};
ghost use Rattle.rs_lookup.specs.Places.{place_name};
ghost use Rattle.rs_lines.specs.Lines.{note};
ghost use Rattle.rs_reach.specs.Dead.{dead_of};
ghost use Rattle.rs_queries.specs.Diagnosed.{calls_of, dead_line, is_among};

use crate::answered::Answered;
use inc_base::{List, Memory};
use rs_diag::Fault;
use rs_lines::{Line, Lines};
use rs_lookup::{Key, Places};
use rs_reach::{Callees, dead_items};
use rs_tree::{Index, Place};
use std::alloc::Global;

/// Tells of the functions that none of these calls lead to from the root's `main`.
pub(crate) fn tell_dead<'a>(
    alloc: Global,
    lines: &mut Lines,
    index: &'a Index,
    answered: &'a [Answered<'_>],
    calls: &'a List<(Place, List<Place>)>,
) -> Result<(), Memory>
    ensures { OnOk result (lines.new ≡ fold note lines.old (flat_map (dead_line (map place_name (dead_of index.now.items calls.now))) answered.now)) }
{
    let dead = dead_items(index, calls)?;
    tell_these(alloc, lines, &*answered, dead.as_slice())
}

/// What each item calls.
pub(crate) fn calls_of_all<'a>(
    alloc: Global,
    index: &'a Index,
    answered: &'a [Answered<'_>],
) -> Result<List<(Place, List<Place>)>, Memory>
    ensures { IfOk result (λ cs. cs ≡ map (calls_of index.now.items) answered.now) }
{
    let callees = Callees::new(index)?;
    let mut calls = List::new(alloc);
    for one in answered {
        calls.push(calls_of(alloc, one, &callees)?)?;
    }
    Ok(calls)
}

fn calls_of<'a>(
    alloc: Global,
    one: &'a Answered<'_>,
    callees: &Callees<'a>,
) -> Result<(Place, List<Place>), Memory>
    ensures { IfOk result (λ c. c ≡ calls_of callees.now one.now) }
{
    let place = one.place()?;
    let calls = callees.calls_of(alloc, &one.placed().item, one.found())?;
    Ok((place, calls))
}

fn tell_these<'a>(
    alloc: Global,
    lines: &mut Lines,
    answered: &'a [Answered<'_>],
    dead: &'a [Place],
) -> Result<(), Memory>
    ensures { OnOk result (lines.new ≡ fold note lines.old (flat_map (dead_line (map place_name dead.now)) answered.now)) }
{
    let places = places_of(alloc, dead)?;
    for one in answered {
        tell_if_dead(alloc, lines, one, &places)?;
    }
    Ok(())
}

fn places_of<'a>(alloc: Global, places: &'a [Place]) -> Result<Places<'a>, Memory>
    ensures { IfOk result (λ ps. ps ≡ map place_name places.now) }
{
    let mut keys = Vec::with_capacity(alloc, places.len())?;
    for place in places {
        keys.push((place.module.as_slice(), place.name.as_slice()))?;
    }
    Places::new(alloc, keys)
}

fn tell_if_dead<'a>(
    alloc: Global,
    lines: &mut Lines,
    one: &'a Answered<'_>,
    dead: &Places<'a>,
) -> Result<(), Memory>
    ensures { OnOk result (lines.new ≡ fold note lines.old (dead_line dead.now one.now)) }
{
    if !is_among(dead, one.key()) {
        return Ok(());
    }
    let placed = one.placed();
    let diag = Fault::Dead(placed.item.name.as_slice()).at(alloc, placed.item.at)?;
    lines.add(Line::of(placed.start, diag))
}

#[tactic(auto, using(crate::proofs::Wholes::among))]
fn is_among<'a>(places: &Places<'a>, at: Key<'a>) -> bool
    ensures { result ≡ is_among places.now (plain at.entry) }
{
    places.find(at).is_some()
}
