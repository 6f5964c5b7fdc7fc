ghost use Rattle.std.specs.Prelude.{◌≡◌, IfOk};
ghost use Rattle.rs_units.specs.Members.{member_numbers, members_of, wanted_of};

use crate::kinds::{inline_marks, inline_numbers, own_numbers, place_at, push_found};
use crate::known::{follow, known_calls};
use inc_base::{List, Memory};
use rs_reach::places_at;
use rs_reach::search::next;
use rs_tree::{Index, IndexItem, Place};
use std::alloc::Global;
use std::marker::Model;

/// The next function whose calls the members of a unit hang on and that `calls` lacks, or None where it lacks none:
/// of the unit's own functions, in index order, and of the inline functions found from them, in the order found
/// (docs/FORMATS.md, "Units").
///
/// Of equal entries of `calls` the first counts. It makes the index ready at each call; a `CallGraph` does once.
pub fn wanted<'a>(
    unit: &[u8],
    index: &'a Index,
    calls: &'a List<(Place, List<Place>)>,
) -> Result<Option<Place>, Memory>
    ensures { IfOk result (λ p. p ≡ wanted_of unit.now index.now.items calls.now) }
{
    let graph = CallGraph::new(index, calls)?;
    graph.wanted(index.items.allocator(), unit)
}

/// The members of a unit: its own functions, which are of kind 1, then the functions of kind 2 that calls lead to
/// from them through functions of kind 2, both in index order (docs/FORMATS.md, "Units").
///
/// All of them where `wanted` answers None; else those found by the calls that are known. It makes the index
/// ready at each call; a `CallGraph` does once.
pub fn members<'a>(
    unit: &[u8],
    index: &'a Index,
    calls: &'a List<(Place, List<Place>)>,
) -> Result<List<Place>, Memory>
    ensures { IfOk result (λ ps. ps ≡ members_of unit.now index.now.items calls.now) }
{
    let graph = CallGraph::new(index, calls)?;
    graph.members(index.items.allocator(), unit)
}

/// An index and the calls that are known of its functions, made ready once for the members of any unit. Contracts
/// see the items and the calls.
///
/// A unit costs as much as its members and their calls, and beyond that a look at each item and at each inline
/// function of the index.
#[derive(Drop)]
pub struct CallGraph<'a> {
    items: &'a [IndexItem],
    calls: &'a [(Place, List<Place>)],
    known: Vec<Option<Vec<usize>>>,
    marks: Vec<bool>,
    inlines: Vec<usize>,
}

impl<'a> Model for CallGraph<'a> {
    ghost use Rattle.std.specs.Prelude.{List};
    ghost use Rattle.rs_tree.specs.declared.place.Place.{Place};
    ghost use Rattle.rs_tree.specs.declared.index.IndexItem.{IndexItem};
    ghost use Rattle.rs_units.specs.Ready.{IsReady};

    ghost Value = { List IndexItem × List (Place × List Place) };

    ghost view = { λ g. (g.items.now, g.calls.now) };

    ghost invariant = { λ g. IsReady g.items.now g.calls.now g.known.items g.marks.items g.inlines.items };
}

impl<'a> CallGraph<'a> {
    /// The items of this index and these calls, in n log n of both. Of equal entries of `calls` the first counts.
    pub fn new(
        index: &'a Index,
        calls: &'a List<(Place, List<Place>)>,
    ) -> Result<CallGraph<'a>, Memory>
        ensures { IfOk result (λ g. g ≡ (index.now.items, calls.now)) }
    {
        let alloc = index.items.allocator();
        let items = index.items.as_slice();
        let calls = calls.as_slice();
        let known = known_calls(alloc, items, calls)?;
        let marks = inline_marks(alloc, items)?;
        let inlines = inline_numbers(alloc, items)?;
        Ok(CallGraph {
            items,
            calls,
            known,
            marks,
            inlines,
        })
    }

    /// The next function whose calls a unit's members hang on and that are missing, as the function `wanted` has it.
    pub fn wanted(&self, alloc: Global, unit: &[u8]) -> Result<Option<Place>, Memory>
        ensures { IfOk result (λ p. p ≡ wanted_of unit.now self.now.0 self.now.1) }
    {
        let own = own_numbers(alloc, unit, self.items)?;
        let reached = follow(alloc, &self.known, &self.marks, own)?;
        place_at(self.items, next(&reached.found, reached.asked))
    }

    /// The members of a unit by their numbers in the index, which count from 0, in the order of `members`.
    pub fn numbers(&self, alloc: Global, unit: &[u8]) -> Result<Vec<usize>, Memory>
        ensures { IfOk result (λ v. v.items ≡ member_numbers unit.now self.now.0 self.now.1) }
    {
        let own = own_numbers(alloc, unit, self.items)?;
        let reached = follow(
            alloc,
            &self.known,
            &self.marks,
            Vec::from_slice(alloc, &own)?,
        )?;
        let mut numbers = own;
        push_found(&mut numbers, &self.inlines, &reached.left)?;
        Ok(numbers)
    }

    /// The members of a unit, as the function `members` has them.
    pub fn members(&self, alloc: Global, unit: &[u8]) -> Result<List<Place>, Memory>
        ensures { IfOk result (λ ps. ps ≡ members_of unit.now self.now.0 self.now.1) }
    {
        let numbers = self.numbers(alloc, unit)?;
        places_at(alloc, self.items, &numbers)
    }
}
