//! The lines of diagnostics, from the values of checks.

ghost use Rattle.std.specs.Prelude.{◌≡◌, ℕ, List, map, fold, length, IfOk, OnOk};
ghost use Rattle.std.specs.List.{flat_map};
ghost use Rattle.inc_query.specs.declared.query.Query.{Query};
ghost use Rattle.rs_lines.specs.Lines.{line_of, note, told};
ghost use Rattle.rs_lookup.specs.Places.{place_name};
ghost use Rattle.rs_plans.specs.Steps.{query};
ghost use Rattle.rs_queries.specs.Diagnosed.{is_among};
ghost use Rattle.rs_queries.specs.Known.{place_of};
ghost use Rattle.rs_lookup.specs.Keys.{plain};
ghost use Rattle.plan_laws.specs.Assembled.{diags_in, told_by, told_of, unused_line, unused_lines};

use inc_base::{Bytes, List, Memory};
use rs_answers::read_diags;
use rs_diag::Fault;
use rs_lines::{Line, Lines};
use rs_lookup::{Key, Places};
use rs_names::Names;
use rs_queries::tell_main;
use rs_tree::{At, Diag, Index, Place, Placed};
use std::alloc::Global;

/// What is told of a text's items and of its root, by the values of the items' checks, in their order.
pub(crate) fn told_by<'a>(
    alloc: Global,
    index: &'a Index,
    items: &[Placed],
    values: &[Bytes],
) -> Result<Lines, Memory>
    requires { length values.now ≡ length items.now }
    ensures { (v : Query → List ℕ) → values.now ≡ map (λ p. v (query 5 (place_of p))) items.now → IfOk result (λ ls. ls ≡ told (told_by v index.now items.now)) }
{
    let names = Names::new(index)?;
    let mut lines = Lines::new(alloc);
    tell_main(alloc, &mut lines, &names)?;
    tell_items(alloc, &mut lines, items, values)?;
    Ok(lines)
}

fn tell_items(
    alloc: Global,
    lines: &mut Lines,
    items: &[Placed],
    values: &[Bytes],
) -> Result<(), Memory>
    requires { length values.now ≡ length items.now }
    ensures { (v : Query → List ℕ) → values.now ≡ map (λ p. v (query 5 (place_of p))) items.now → OnOk result (lines.new ≡ fold note lines.old (flat_map (told_of v) items.now)) }
{
    for (i, placed) in items.iter().enumerate() {
        tell_check(alloc, lines, placed.start, &values[i])?;
    }
    Ok(())
}

/// What is wrong with an item that begins there.
fn tell_check(alloc: Global, lines: &mut Lines, start: At, value: &Bytes) -> Result<(), Memory>
    ensures { OnOk result (lines.new ≡ fold note lines.old (map (line_of start) (diags_in value.now))) }
{
    match read_diags(alloc, value.as_slice())? {
        Some(diags) => tell_all(lines, start, diags),
        None => Ok(()),
    }
}

fn tell_all(lines: &mut Lines, start: At, diags: List<Diag>) -> Result<(), Memory>
    ensures { OnOk result (lines.new ≡ fold note lines.old (map (line_of start) diags)) }
{
    for diag in diags.into_vec() {
        lines.add(Line::of(start, diag))?;
    }
    Ok(())
}

/// Tells of the functions that are never used.
pub(crate) fn tell_unused(
    alloc: Global,
    lines: &mut Lines,
    items: &[Placed],
    dead: &[Place],
) -> Result<(), Memory>
    ensures { OnOk result (lines.new ≡ fold note lines.old (unused_lines dead.now items.now)) }
{
    let places = places_of(alloc, dead)?;
    for placed in items {
        tell_if_unused(alloc, lines, placed, &places)?;
    }
    Ok(())
}

fn places_of<'a>(alloc: Global, places: &'a [Place]) -> Result<Places<'a>, Memory>
    ensures { IfOk result (λ ps. ps ≡ map place_name places.now) }
{
    let mut keys = Vec::with_capacity(alloc, places.len())?;
    for place in places {
        keys.push((place.module.as_slice(), place.name.as_slice()))?;
    }
    Places::new(alloc, keys)
}

fn tell_if_unused<'a>(
    alloc: Global,
    lines: &mut Lines,
    placed: &'a Placed,
    dead: &Places<'a>,
) -> Result<(), Memory>
    ensures { OnOk result (lines.new ≡ fold note lines.old (unused_line dead.now placed.now)) }
{
    let name = placed.item.name.as_slice();
    if !is_among(dead, (placed.module.as_slice(), name)) {
        return Ok(());
    }
    let diag = Fault::Dead(name).at(alloc, placed.item.at)?;
    lines.add(Line::of(placed.start, diag))
}

#[tactic(auto, using(crate::proofs::Among::among))]
fn is_among<'a>(places: &Places<'a>, at: Key<'a>) -> bool
    ensures { result ≡ is_among places.now (plain at.entry) }
{
    places.find(at).is_some()
}
