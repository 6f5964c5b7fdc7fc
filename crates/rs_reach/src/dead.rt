ghost use Rattle.std.specs.Prelude.{◌≡◌, ◌&&◌, ◌++◌, ◌∷◌, if◌then◌else◌, map, not, slice_index_or, [], false, IfOk, OnOk};
ghost use Rattle.rs_reach.specs.Places.{IsLeft};
ghost use Rattle.rs_reach.specs.Dead.{numbers_where, places_where, place_of, search, is_function, is_main, is_silent, dead_of};

use crate::search::{Reached, search};
use inc_base::{Copied, List, Memory};
use rs_lookup::places_of_items;
use rs_tree::{Index, IndexItem, Place};
use std::alloc::Global;

/// The functions that no calls lead to from the root's `main`, without those whose names begin with `_`, in the
/// order of the index (docs/LANGUAGE.md, "Functions that are never used").
///
/// `calls` has the functions that each function calls. The search asks the functions in the order found, from
/// `main` on, and stops at one whose calls it lacks; of equal entries the first counts.
pub fn dead_items<'a>(
    index: &'a Index,
    calls: &'a List<(Place, List<Place>)>,
) -> Result<List<Place>, Memory>
    ensures { IfOk result (λ ps. ps ≡ dead_of index.now.items calls.now) }
{
    let alloc = index.items.allocator();
    let items = index.items.as_slice();
    let found = from_main(alloc, items, calls.as_slice())?;
    let mut places = List::new(alloc);
    push_left(&mut places, items, &found.left)?;
    Ok(places)
}

// The functions that are left.
fn push_left(to: &mut List<Place>, items: &[IndexItem], left: &[bool]) -> Result<(), Memory>
    ensures { OnOk result (to.new ≡ to.old ++ places_where (λ i x. is_function x && slice_index_or left.now i false && not (is_silent x)) 0 items.now) }
{
    for (i, item) in items.iter().enumerate() {
        push_if(
            to,
            item,
            is_function(item) && is_marked(left, i) && !is_silent(item),
        )?;
    }
    Ok(())
}

fn push_if(to: &mut List<Place>, item: &IndexItem, passes: bool) -> Result<(), Memory>
    ensures { OnOk result (to.new ≡ (if passes then to.old ++ place_of item.now ∷ [] else to.old)) }
{
    if !passes {
        return Ok(());
    }
    to.push(place_of(item)?)
}

/// Adds a number where its item passes.
pub fn number_if(to: &mut Vec<usize>, i: usize, passes: bool) -> Result<(), Memory>
    ensures { OnOk result (to.new.items ≡ (if passes then to.old.items ++ i ∷ [] else to.old.items)) }
{
    if !passes {
        return Ok(());
    }
    to.push(i)?;
    Ok(())
}

pub(crate) fn function_marks(alloc: Global, items: &[IndexItem]) -> Result<Vec<bool>, Memory>
    ensures { IfOk result (λ v. v.items ≡ map is_function items.now) }
{
    let mut marks = Vec::new(alloc);
    for item in items {
        marks.push(is_function(item))?;
    }
    Ok(marks)
}

fn main_numbers(alloc: Global, items: &[IndexItem]) -> Result<Vec<usize>, Memory>
    ensures { IfOk result (λ v. v.items ≡ numbers_where is_main 0 items.now) }
{
    let mut roots = Vec::new(alloc);
    for (i, item) in items.iter().enumerate() {
        number_if(&mut roots, i, is_main(item))?;
    }
    Ok(roots)
}

fn from_main<'a>(
    alloc: Global,
    items: &'a [IndexItem],
    calls: &'a [(Place, List<Place>)],
) -> Result<Reached, Memory>
    ensures found { IfOk result (λ f. f.found.items ≡ (search is_main is_function items.now calls.now).found) }
    ensures asked { IfOk result (λ f. f.asked ≡ (search is_main is_function items.now calls.now).asked) }
    ensures left { IfOk result (λ f. IsLeft (map is_function items.now) f.left.items f.found.items) }
{
    let may = function_marks(alloc, items)?;
    let roots = main_numbers(alloc, items)?;
    let places = places_of_items(alloc, items)?;
    search(alloc, &places, calls, &may, roots)
}

/// The place of an item.
pub fn place_of(item: &IndexItem) -> Result<Place, Memory>
    ensures { IfOk result (λ p. p ≡ place_of item.now) }
{
    Ok(Place {
        module: item.module.copy()?,
        name: item.name.copy()?,
    })
}

/// The mark at a place, and false past the last.
pub fn is_marked(marks: &[bool], at: usize) -> bool
    ensures { result ≡ slice_index_or marks.now at false }
{
    at < marks.len() && marks[at]
}

fn is_function(item: &IndexItem) -> bool
    ensures { result ≡ is_function item.now }
{
    item.kind == 1 || item.kind == 2
}

fn is_main(item: &IndexItem) -> bool
    ensures { result ≡ is_main item.now }
{
    item.module.as_slice() == b"".as_slice()
        && item.name.as_slice() == b"main".as_slice()
        && is_function(item)
}

fn is_silent(item: &IndexItem) -> bool
    ensures { result ≡ is_silent item.now }
{
    item.name.as_slice().starts_with(b"_".as_slice())
}
