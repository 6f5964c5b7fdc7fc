//! What is compiled of a text that was read as a tree.

ghost use Rattle.std.specs.Prelude.{◌≡◌, ◌<◌, ◌∷◌, ◌++◌, ℕ, List, [], drop, fold, length, map, unwrap_or, true, false, None, Some, IfOk, IfSome, OnOk, slice_index_or};
ghost use Rattle.rs_lines.specs.Lines.{Told, in_order, note, printed_all, told};
ghost use Rattle.rs_object.specs.declared.object.Object.{Object};
ghost use Rattle.rs_plans.specs.Names.{is_index};
ghost use Rattle.rs_plans.specs.Readings.{places_in};
ghost use Rattle.rs_queries.specs.Built.{output_of, tree_index};
ghost use Rattle.rs_units.specs.Units.{units_of};
ghost use Rattle.plan_laws.specs.Assembled.{IsAssembled, object_query, roots_by, unused_lines};
ghost use Rattle.rs_build.specs.Made.{AreObjectsOf, IsNoneOf, MadeOf};
ghost use Rattle.rs_build.specs.Over.{HasTicked, IsAsBefore, IsOver, WasAsked, value_of};

use crate::asking::{ask_checks, ask_products};
use crate::made::{objects_of, output_of};
use crate::told::tell_unused;
use inc_base::{Bytes, Memory, Meter};
use inc_engine::Engine;
use rs_lines::Lines;
use rs_provider::{Rust, places_in};
use rs_queries::{Built, Compiled};
use rs_tree::{Crate, Index, Placed};
use rs_units::units;
use std::alloc::Global;

/// What is compiled of a tree, by the values of its roots. None where the value of a unit's object isn't an object.
pub(crate) fn compiled_tree<'a>(
    alloc: Global,
    engine: &mut Engine<Rust>,
    tree: &Crate,
    index: &'a Index,
    meter: &mut Meter,
) -> Result<Option<Compiled>, Memory>
    requires names { is_index index.now ≡ true }
    requires index { index.now ≡ tree_index tree.now }
    ensures compiled { IfOk result (λ o. IfSome o (λ c. (s : List ℕ) → IsOver engine.old s → IsAssembled (value_of engine.old) tree.now c)) }
    ensures none { IfOk result (λ o. o ≡ None → (s : List ℕ) → IsOver engine.old s → IsNoneOf (map (value_of engine.old) (map object_query (units_of index.now)))) }
    ensures asked { OnOk result ((s : List ℕ) → IsOver engine.old s → WasAsked (roots_by (value_of engine.old) tree.now) engine.old engine.new) }
    ensures ticked { OnOk result (HasTicked engine.old engine.new meter.old meter.new) }
    ensures same { OnOk result (IsAsBefore engine.old engine.new) }
{
    let items = tree.items.as_slice();
    let lines = ask_checks(alloc, engine, index, items, meter)?;
    let units = units(index)?.len() as u32;
    if lines.has_error() {
        return Ok(Some(refused(alloc, &lines, units)?));
    }
    let values = ask_products(alloc, engine, index, meter)?;
    made(alloc, lines, items, units, values.as_slice())
}

fn refused(alloc: Global, lines: &Lines, units: u32) -> Result<Compiled, Memory>
    ensures { IfOk result (λ c. c ≡ record { diags = printed_all lines.now.lines; units = units; built = None }) }
{
    Ok(Compiled {
        diags: lines.print(alloc)?,
        units,
        built: None,
    })
}

/// What is made where no line is an error's, of the values of the functions that are never used and of the units' objects.
fn made(
    alloc: Global,
    lines: Lines,
    items: &[Placed],
    units: u32,
    values: &[Bytes],
) -> Result<Option<Compiled>, Memory>
    requires { 0 < length values.now }
    ensures some { IfOk result (λ o. IfSome o (MadeOf lines items.now units values.now)) }
    ensures none { IfOk result (λ o. o ≡ None → IsNoneOf (drop 1 values.now)) }
{
    let mut lines = lines;
    tell_dead(alloc, &mut lines, items, &values[0])?;
    let objects = objects_of(alloc, &values[1..])?;
    match objects {
        None => Ok(None),
        Some(objects) => {
            let built = output_of(&objects, &values[1..])?;
            Ok(Some(compiled(alloc, &lines, units, built)?))
        }
    }
}

fn compiled(alloc: Global, lines: &Lines, units: u32, built: Built) -> Result<Compiled, Memory>
    ensures { IfOk result (λ c. c ≡ record { diags = printed_all lines.now.lines; units = units; built = Some built }) }
{
    match lines.print(alloc) {
        Ok(diags) => Ok(Compiled {
            diags,
            units,
            built: Some(built),
        }),
        Err(refused) => {
            drop(built);
            Err(refused)
        }
    }
}

fn tell_dead(
    alloc: Global,
    lines: &mut Lines,
    items: &[Placed],
    value: &Bytes,
) -> Result<(), Memory>
    ensures { OnOk result (lines.new ≡ fold note lines.old (unused_lines (unwrap_or (places_in value.now) []) items.now)) }
{
    match places_in(value)? {
        Some(dead) => tell_unused(alloc, lines, items, dead.as_slice()),
        None => Ok(()),
    }
}
