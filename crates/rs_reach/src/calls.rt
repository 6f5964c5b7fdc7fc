ghost use Rattle.std.specs.Prelude.{◌≡◌, ◌++◌, [], ◌∷◌, map, if◌then◌else◌, slice_get, IfOk, OnOk};
ghost use Rattle.std.specs.Option.{option_map, option_to_list};
ghost use Rattle.rs_tree.specs.Plain.{definition};
ghost use Rattle.rs_lookup.specs.Places.{item_name};
ghost use Rattle.rs_reach.specs.Search.{added};
ghost use Rattle.rs_reach.specs.Places.{numbers};
ghost use Rattle.rs_reach.specs.Dead.{place_of};
ghost use Rattle.rs_reach.specs.Calls.{called, calls_in, places_at, with_item};

use crate::dead::{function_marks, place_of};
use crate::marks::Marks;
use crate::search::{left_of, tell};
use inc_base::{List, Memory};
use rs_lookup::{Order, Places, places_of_items};
use rs_tree::{Found, Index, IndexItem, Item, Place};
use std::alloc::Global;
use std::marker::Model;

/// The functions that an item calls, in the order of the text, each the first time only (docs/LANGUAGE.md,
/// "Functions that are never used").
///
/// `found` has one answer for each path of the item. A called path that leads to no function of the index is
/// passed over. Where more than one item is asked for, `Callees` makes the index ready once.
pub fn calls_of<'a>(
    item: &Item,
    found: &'a List<Found>,
    index: &'a Index,
) -> Result<List<Place>, Memory>
    ensures { IfOk result (λ ps. ps ≡ calls_in index.now.items (definition item.now.body) found.now) }
{
    let callees = Callees::new(index)?;
    callees.calls_of(index.items.allocator(), item, found.as_slice())
}

/// The items of an index, made ready once to tell which of them are called. Contracts see them as their list.
#[derive(Drop)]
pub struct Callees<'a> {
    items: &'a [IndexItem],
    places: Places<'a>,
    may: Vec<bool>,
}

impl<'a> Model for Callees<'a> {
    ghost use Rattle.std.specs.Prelude.{◌≡◌, List, map};
    ghost use Rattle.rs_tree.specs.declared.index.IndexItem.{IndexItem};
    ghost use Rattle.rs_lookup.specs.Places.{item_name};
    ghost use Rattle.rs_reach.specs.Dead.{is_function};

    ghost Value = { List IndexItem };

    ghost view = { λ c. c.items.now };

    ghost invariant = { λ c. (c.places ≡ map item_name c.items.now) × (c.may.items ≡ map is_function c.items.now) };
}

impl<'a> Callees<'a> {
    /// The items of this index, in n log n.
    pub fn new(index: &'a Index) -> Result<Callees<'a>, Memory>
        ensures { IfOk result (λ c. c ≡ index.now.items) }
    {
        let alloc = index.items.allocator();
        let items = index.items.as_slice();
        let places = places_of_items(alloc, items)?;
        let may = function_marks(alloc, items)?;
        Ok(Callees { items, places, may })
    }

    /// The items of this index by an order of them that is kept, in one look at each.
    pub fn by(index: &'a Index, order: &'a Order) -> Result<Callees<'a>, Memory>
        requires { order.now ≡ map item_name index.now.items }
        ensures { IfOk result (λ c. c ≡ index.now.items) }
    {
        let items = index.items.as_slice();
        let may = function_marks(index.items.allocator(), items)?;
        Ok(Callees {
            items,
            places: Places::by(order),
            may,
        })
    }

    /// The functions that an item calls, as the function `calls_of` has them. The answers last as long as the
    /// index, since look-ups compare names where they stand.
    pub fn calls_of(
        &self,
        alloc: Global,
        item: &Item,
        found: &'a [Found],
    ) -> Result<List<Place>, Memory>
        ensures { IfOk result (λ ps. ps ≡ calls_in self.now (definition item.now.body) found.now) }
    {
        let mut marks = Marks::new(alloc);
        marks.body(&item.body)?;
        let numbers = called_numbers(alloc, &self.places, marks.as_slice(), found)?;
        let order = first_times(alloc, &self.may, &numbers)?;
        places_at(alloc, self.items, &order)
    }
}

// The numbers of the items that called paths lead to.
#[tactic(auto, using(crate::proofs::Called::ended))]
fn called_numbers<'a>(
    alloc: Global,
    places: &Places<'a>,
    marks: &[bool],
    found: &'a [Found],
) -> Result<Vec<usize>, Memory>
    ensures { IfOk result (λ v. v.items ≡ numbers places.now (called marks.now found.now)) }
{
    let mut its = Vec::new(alloc);
    for i in 0..marks.len() {
        if i >= found.len() {
            return Ok(its);
        }
        push_called(&mut its, places, marks[i], &found[i])?;
    }
    Ok(its)
}

fn push_called<'a>(
    to: &mut Vec<usize>,
    places: &Places<'a>,
    called: bool,
    found: &'a Found,
) -> Result<(), Memory>
    ensures { OnOk result (to.new.items ≡ to.old.items ++ numbers places.now (if called then with_item found.now [] else [])) }
{
    if !called {
        return Ok(());
    }
    match found {
        Found::Item(place) => push_number(to, places, place),
        Found::Local => Ok(()),
        Found::Private => Ok(()),
        Found::Absent => Ok(()),
    }
}

fn push_number<'a>(to: &mut Vec<usize>, places: &Places<'a>, place: &'a Place) -> Result<(), Memory>
    ensures { OnOk result (to.new.items ≡ to.old.items ++ numbers places.now (place.now ∷ [])) }
{
    match places.find((place.module.as_slice(), place.name.as_slice())) {
        None => Ok(()),
        Some(number) => {
            to.push(number)?;
            Ok(())
        }
    }
}

// Each the first time only, of those that may be called.
fn first_times(alloc: Global, may: &[bool], called: &[usize]) -> Result<Vec<usize>, Memory>
    ensures { IfOk result (λ v. v.items ≡ added may.now [] called.now) }
{
    let mut order = Vec::new(alloc);
    let mut left = left_of(alloc, may, &order)?;
    tell(&mut left, &mut order, called)?;
    Ok(order)
}

/// The places of the items with these numbers; a number that no item has is passed over.
pub fn places_at(
    alloc: Global,
    items: &[IndexItem],
    numbers: &[usize],
) -> Result<List<Place>, Memory>
    ensures { IfOk result (λ ps. ps ≡ places_at items.now numbers.now) }
{
    let mut places = List::new(alloc);
    for number in numbers {
        push_at(&mut places, items, *number)?;
    }
    Ok(places)
}

fn push_at(to: &mut List<Place>, items: &[IndexItem], number: usize) -> Result<(), Memory>
    ensures { OnOk result (to.new ≡ to.old ++ option_to_list (option_map place_of (slice_get items.now number))) }
{
    match items.get(number) {
        Some(item) => to.push(place_of(item)?),
        None => Ok(()),
    }
}
