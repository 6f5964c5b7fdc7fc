ghost use Rattle.std.specs.Prelude.{◌≡◌, ◌++◌, false, filter, map, not, option_and_then, slice_index_or, IfOk, OnOk};
ghost use Rattle.rs_reach.specs.Dead.{numbers_where};
ghost use Rattle.rs_units.specs.Units.{is_own};
ghost use Rattle.rs_units.specs.Members.{is_inline, place_numbered};

use crate::owners::OWN;
use inc_base::Memory;
use rs_reach::{is_marked, number_if, place_of};
use rs_tree::{IndexItem, Place};
use std::alloc::Global;

// The numbers of a unit's own functions.
pub(crate) fn own_numbers(
    alloc: Global,
    unit: &[u8],
    items: &[IndexItem],
) -> Result<Vec<usize>, Memory>
    ensures { IfOk result (λ v. v.items ≡ numbers_where (is_own unit.now) 0 items.now) }
{
    let mut numbers = Vec::new(alloc);
    for (i, item) in items.iter().enumerate() {
        number_if(&mut numbers, i, is_own(unit, item))?;
    }
    Ok(numbers)
}

// The numbers of the functions of kind 2.
pub(crate) fn inline_numbers(alloc: Global, items: &[IndexItem]) -> Result<Vec<usize>, Memory>
    ensures { IfOk result (λ v. v.items ≡ numbers_where is_inline 0 items.now) }
{
    let mut numbers = Vec::new(alloc);
    for (i, item) in items.iter().enumerate() {
        number_if(&mut numbers, i, is_inline(item))?;
    }
    Ok(numbers)
}

// Of each item, whether it is of kind 2.
pub(crate) fn inline_marks(alloc: Global, items: &[IndexItem]) -> Result<Vec<bool>, Memory>
    ensures { IfOk result (λ v. v.items ≡ map is_inline items.now) }
{
    let mut marks = Vec::new(alloc);
    for item in items {
        marks.push(is_inline(item))?;
    }
    Ok(marks)
}

// Adds the numbers that aren't left.
pub(crate) fn push_found(
    to: &mut Vec<usize>,
    numbers: &[usize],
    left: &[bool],
) -> Result<(), Memory>
    ensures { OnOk result (to.new.items ≡ to.old.items ++ filter (λ i. not (slice_index_or left.now i false)) numbers.now) }
{
    for number in numbers {
        number_if(to, *number, !is_marked(left, *number))?;
    }
    Ok(())
}

pub(crate) fn place_at(items: &[IndexItem], number: Option<usize>) -> Result<Option<Place>, Memory>
    ensures { IfOk result (λ p. p ≡ option_and_then (place_numbered items.now) number) }
{
    let Some(number) = number else {
        return Ok(None);
    };
    match items.get(number) {
        Some(item) => Ok(Some(place_of(item)?)),
        None => Ok(None),
    }
}

fn is_own(unit: &[u8], item: &IndexItem) -> bool
    ensures { result ≡ is_own unit.now item.now }
{
    item.kind == OWN && unit == item.module.as_slice()
}

fn is_inline(item: &IndexItem) -> bool
    ensures { result ≡ is_inline item.now }
{
    item.kind == 2
}
