//! The objects of units.

ghost use Rattle.std.specs.Prelude.{◌≡◌, ◌++◌, ◌<◌, ◌^◌, [], length, slice_get, IfOk, OnOk, All};
ghost use Rattle.std.specs.List.{cons_option, filter_map};
ghost use Rattle.inc_base.specs.Meters.{raised, ticked};
ghost use Rattle.rs_object.specs.Grammar.{InGrammar};
ghost use Rattle.rs_emit.specs.Objects.{object_of};
ghost use Rattle.rs_queries.specs.Built.{members_in, objects_in};

use inc_base::{Bytes, Copied, List, Memory, Meter};
use rs_emit::emit;
use rs_object::Object;
use rs_tree::{Index, Ir, Place};
use rs_units::CallGraph;
use std::alloc::Global;

/// The objects of units, in their order; each ticks once.
pub(crate) fn objects_in<'a>(
    alloc: Global,
    index: &'a Index,
    calls: &'a List<(Place, List<Place>)>,
    forms: &[(Place, Ir)],
    units: &[Bytes],
    meter: &mut Meter,
) -> Result<List<Object>, Memory>
    requires { meter.old < 2 ^ 64 }
    ensures makes { IfOk result (λ os. os ≡ objects_in index.now.items calls.now forms.now units.now) }
    ensures grammar { IfOk result (All InGrammar) }
    ensures emitted { OnOk result (meter.new ≡ raised meter.old (length units.now)) }
{
    let graph = CallGraph::new(index, calls)?;
    let objects = objects_by(alloc, &graph, forms, units, meter)?;
    Ok(objects)
}

#[tactic(auto, using(crate::proofs::Emitted::emissions))]
fn objects_by<'a>(
    alloc: Global,
    graph: &CallGraph<'a>,
    forms: &[(Place, Ir)],
    units: &[Bytes],
    meter: &mut Meter,
) -> Result<List<Object>, Memory>
    requires { meter.old < 2 ^ 64 }
    ensures makes { IfOk result (λ os. os ≡ objects_in graph.now.0 graph.now.1 forms.now units.now) }
    ensures grammar { IfOk result (All InGrammar) }
    ensures emitted { OnOk result (meter.new ≡ raised meter.old (length units.now)) }
{
    let mut objects = List::new(alloc);
    for unit in units {
        objects.push(object_in(alloc, graph, forms, unit.as_slice(), meter)?)?;
    }
    Ok(objects)
}

fn object_in<'a>(
    alloc: Global,
    graph: &CallGraph<'a>,
    forms: &[(Place, Ir)],
    unit: &[u8],
    meter: &mut Meter,
) -> Result<Object, Memory>
    ensures makes { IfOk result (λ o. o ≡ object_of unit.now (members_in graph.now.0 graph.now.1 forms.now unit.now)) }
    ensures grammar { IfOk result InGrammar }
    ensures tick { OnOk result (meter.new ≡ ticked meter.old) }
{
    let numbers = graph.numbers(alloc, unit)?;
    let members = forms_at(alloc, forms, &numbers)?;
    emit(unit, &members, meter)
}

// The forms that have these numbers.
fn forms_at(
    alloc: Global,
    forms: &[(Place, Ir)],
    numbers: &[usize],
) -> Result<List<(Place, Ir)>, Memory>
    ensures { IfOk result (λ fs. fs ≡ filter_map (slice_get forms.now) numbers.now) }
{
    let mut found = List::new(alloc);
    for number in numbers {
        push_form(&mut found, forms, *number)?;
    }
    Ok(found)
}

fn push_form(to: &mut List<(Place, Ir)>, forms: &[(Place, Ir)], number: usize) -> Result<(), Memory>
    ensures { OnOk result (to.new ≡ to.old ++ cons_option (slice_get forms.now number) []) }
{
    match forms.get(number) {
        Some(form) => to.push(copy_of(form)?),
        None => Ok(()),
    }
}

fn copy_of(form: &(Place, Ir)) -> Result<(Place, Ir), Memory>
    ensures { IfOk result (λ f. f ≡ form.now) }
{
    Ok((form.0.copy()?, form.1.copy()?))
}
