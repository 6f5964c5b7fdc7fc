//! The roots, asked of an engine.

ghost use Rattle.std.specs.Prelude.{◌≡◌, ℕ, ◌∷◌, List, map, length, true, IfOk, OnOk};
ghost use Rattle.rs_lines.specs.Lines.{told};
ghost use Rattle.rs_names.specs.Indexed.{index_item};
ghost use Rattle.rs_tree.specs.Plain.{plain_placed};
ghost use Rattle.rs_plans.specs.Names.{is_index};
ghost use Rattle.rs_plans.specs.Steps.{whole};
ghost use Rattle.plan_laws.specs.Assembled.{checks_of, products_of, told_by};
ghost use Rattle.rs_build.specs.Over.{HasTicked, IsAsBefore, IsOver, WasAsked, value_of};

use crate::asked::{checks_of, index_query, products_of};
use crate::told::told_by;
use inc_base::{Bytes, List, Memory, Meter};
use inc_engine::Engine;
use inc_query::Query;
use inc_roots::ask_all;
use rs_lines::Lines;
use rs_provider::Rust;
use rs_tree::{Index, Placed};
use std::alloc::Global;

/// The index's query and the checks.
fn first_roots(alloc: Global, index: &Index) -> Result<List<Query>, Memory>
    ensures { IfOk result (λ qs. qs ≡ whole 1 ∷ checks_of index.now) }
{
    let mut roots = List::new(alloc);
    roots.push(index_query(alloc))?;
    let checks = checks_of(alloc, index)?;
    roots.append_list(checks)?;
    Ok(roots)
}

/// Asks the index and the check of each item, and tells what they say.
pub(crate) fn ask_checks<'a>(
    alloc: Global,
    engine: &mut Engine<Rust>,
    index: &'a Index,
    items: &[Placed],
    meter: &mut Meter,
) -> Result<Lines, Memory>
    requires names { is_index index.now ≡ true }
    requires items { index.now.items ≡ map index_item (map plain_placed items.now) }
    ensures lines { IfOk result (λ ls. (s : List ℕ) → IsOver engine.old s → ls ≡ told (told_by (value_of engine.old) index.now items.now)) }
    ensures asked { OnOk result (WasAsked (whole 1 ∷ checks_of index.now) engine.old engine.new) }
    ensures ticked { OnOk result (HasTicked engine.old engine.new meter.old meter.new) }
    ensures same { OnOk result (IsAsBefore engine.old engine.new) }
{
    let roots = first_roots(alloc, &*index)?;
    let values = ask_all(alloc, engine, roots.as_slice(), meter)?;
    told_by(alloc, index, items, &values.as_slice()[1..])
}

/// Asks for the functions that are never used, and for each unit's object.
pub(crate) fn ask_products(
    alloc: Global,
    engine: &mut Engine<Rust>,
    index: &Index,
    meter: &mut Meter,
) -> Result<List<Bytes>, Memory>
    requires names { is_index index.now ≡ true }
    ensures many { IfOk result (λ vs. length vs ≡ length (products_of index.now)) }
    ensures values { IfOk result (λ vs. (s : List ℕ) → IsOver engine.old s → vs ≡ map (value_of engine.old) (products_of index.now)) }
    ensures asked { OnOk result (WasAsked (products_of index.now) engine.old engine.new) }
    ensures ticked { OnOk result (HasTicked engine.old engine.new meter.old meter.new) }
    ensures same { OnOk result (IsAsBefore engine.old engine.new) }
{
    let roots = products_of(alloc, index)?;
    ask_all(alloc, engine, roots.as_slice(), meter)
}
