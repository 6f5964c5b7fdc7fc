//! What a search begins with, what it may find, and what it has found.

ghost use Rattle.std.specs.Prelude.{◌≡◌, ◌&&◌, ◌++◌, ◌∷◌, [], List, filter, if◌then◌else◌, map, not, slice_index_or, false, IfOk, OnOk};
ghost use Rattle.rs_tree.specs.declared.index.Index.{Index};
ghost use Rattle.rs_tree.specs.declared.place.Place.{Place};
ghost use Rattle.rs_reach.specs.Dead.{is_function, is_main, is_silent, numbers_where, place_of, places_where};
ghost use Rattle.rs_units.specs.Members.{is_inline};
ghost use Rattle.rs_units.specs.Units.{is_own};
ghost use Rattle.rs_provider.specs.Searches.{IsThere, begins_with, found_by, may_find};

use crate::state::Search;
use crate::walk::Walk;
use inc_base::{List, Memory};
use rs_reach::{is_marked, number_if, place_of, places_at};
use rs_tree::{Index, IndexItem, Place};
use std::alloc::Global;

impl Search {
    /// Of each item, whether it may be found.
    pub(crate) fn marks(&self, alloc: Global, items: &[IndexItem]) -> Result<Vec<bool>, Memory>
        ensures { IfOk result (λ v. v.items ≡ map (may_find self.now) items.now) }
    {
        let mut marks = Vec::with_capacity(alloc, items.len())?;
        for item in items {
            marks.push(self.may_find(item))?;
        }
        Ok(marks)
    }

    /// The numbers of those that it begins with.
    pub(crate) fn roots(&self, alloc: Global, items: &[IndexItem]) -> Result<Vec<usize>, Memory>
        ensures { IfOk result (λ v. v.items ≡ numbers_where (begins_with self.now) 0 items.now) }
    {
        let mut roots = Vec::new(alloc);
        for (i, item) in items.iter().enumerate() {
            number_if(&mut roots, i, self.begins_with(item))?;
        }
        Ok(roots)
    }

    /// What it has found, by what is left.
    pub(crate) fn found(&self, index: &Index, walk: &Walk) -> Result<List<Place>, Memory>
        ensures { IfOk result (λ ps. (calls : List (Place × List Place)) → IsThere self.now index.now.items calls walk.now → ps ≡ found_by self.now index.now calls) }
    {
        let alloc = index.items.allocator();
        let items = index.items.as_slice();
        match self {
            Search::Dead => dead_left(alloc, items, &walk.reached.left),
            Search::Members(_) => {
                let mut numbers = self.roots(alloc, items)?;
                push_found(&mut numbers, items, &walk.reached.left)?;
                places_at(alloc, items, &numbers)
            }
        }
    }

    fn may_find(&self, item: &IndexItem) -> bool
        ensures { result ≡ may_find self.now item.now }
    {
        match self {
            Search::Dead => is_function(item),
            Search::Members(_) => is_inline(item),
        }
    }

    fn begins_with(&self, item: &IndexItem) -> bool
        ensures { result ≡ begins_with self.now item.now }
    {
        match self {
            Search::Dead => is_main(item),
            Search::Members(unit) => is_own(unit.as_slice(), item),
        }
    }
}

// The functions that are left, without those whose names begin with `_`.
fn dead_left(alloc: Global, items: &[IndexItem], left: &[bool]) -> Result<List<Place>, Memory>
    ensures { IfOk result (λ ps. ps ≡ places_where (λ i x. is_function x && slice_index_or left.now i false && not (is_silent x)) 0 items.now) }
{
    let mut places = List::new(alloc);
    for (i, item) in items.iter().enumerate() {
        push_if(
            &mut places,
            item,
            is_function(item) && is_marked(left, i) && !is_silent(item),
        )?;
    }
    Ok(places)
}

fn push_if(to: &mut List<Place>, item: &IndexItem, passes: bool) -> Result<(), Memory>
    ensures { OnOk result (to.new ≡ (if passes then to.old ++ place_of item.now ∷ [] else to.old)) }
{
    if !passes {
        return Ok(());
    }
    to.push(place_of(item)?)
}

// Adds the inline functions that aren't left.
fn push_found(to: &mut Vec<usize>, items: &[IndexItem], left: &[bool]) -> Result<(), Memory>
    ensures { OnOk result (to.new.items ≡ to.old.items ++ filter (λ i. not (slice_index_or left.now i false)) (numbers_where is_inline 0 items.now)) }
{
    for (i, item) in items.iter().enumerate() {
        number_if(to, i, is_inline(item) && !is_marked(left, i))?;
    }
    Ok(())
}

fn is_function(item: &IndexItem) -> bool
    ensures { result ≡ is_function item.now }
{
    item.kind == 1 || item.kind == 2
}

fn is_main(item: &IndexItem) -> bool
    ensures { result ≡ is_main item.now }
{
    item.module.as_slice() == b"".as_slice()
        && item.name.as_slice() == b"main".as_slice()
        && is_function(item)
}

fn is_silent(item: &IndexItem) -> bool
    ensures { result ≡ is_silent item.now }
{
    item.name.as_slice().starts_with(b"_".as_slice())
}

fn is_inline(item: &IndexItem) -> bool
    ensures { result ≡ is_inline item.now }
{
    item.kind == 2
}

fn is_own(unit: &[u8], item: &IndexItem) -> bool
    ensures { result ≡ is_own unit.now item.now }
{
    item.kind == 1 && unit == item.module.as_slice()
}
