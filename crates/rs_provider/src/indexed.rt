//! An index with an order of its items, by which they are looked up.

ghost use Rattle.std.specs.Prelude.{◌≡◌, map, option_and_then, slice_get, IfOk};
ghost use Rattle.std.specs.Option.{option_copied};
ghost use Rattle.rs_lookup.specs.Places.{item_name, place_name};
ghost use Rattle.rs_names.specs.Resolved.{item_at};

use inc_base::{List, Memory};
use rs_lookup::{Order, Places};
use rs_names::Names;
use rs_reach::{Callees, place_of};
use rs_tree::{Index, IndexItem, Place};
use std::alloc::Global;
use std::marker::Model;

/// An index, ready for look-ups by name. Contracts see the index.
#[derive(Drop)]
pub struct Indexed {
    index: Index,
    order: Order,
}

impl Model for Indexed {
    ghost use Rattle.std.specs.Prelude.{◌≡◌, map};
    ghost use Rattle.rs_lookup.specs.Places.{item_name};
    ghost use Rattle.rs_tree.specs.declared.index.Index.{Index};

    ghost Value = { Index };

    ghost view = { λ i. i.index };

    ghost invariant = { λ i. i.order ≡ map item_name i.index.items };
}

impl Indexed {
    pub(crate) fn of(index: Index) -> Result<Indexed, Memory>
        ensures { IfOk result (λ i. i ≡ index) }
    {
        match order_of(index.items.allocator(), index.items.as_slice()) {
            Ok(order) => Ok(Indexed { index, order }),
            Err(refused) => {
                drop(index);
                Err(refused)
            }
        }
    }

    pub(crate) fn index(&self) -> &Index
        ensures { result.now ≡ self.now }
    {
        &self.index
    }

    pub(crate) fn names(&self) -> Names<'_>
        ensures { result ≡ self.now.items }
    {
        Names::by(&self.index, &self.order)
    }

    pub(crate) fn places(&self) -> Places<'_>
        ensures { result ≡ map item_name self.now.items }
    {
        Places::by(&self.order)
    }

    pub(crate) fn callees(&self) -> Result<Callees<'_>, Memory>
        ensures { IfOk result (λ c. c ≡ self.now.items) }
    {
        Callees::by(&self.index, &self.order)
    }

    /// The item at a place: of equal entries the first.
    pub(crate) fn item(&self, at: &Place) -> Option<&IndexItem>
        ensures { option_copied result ≡ item_at (place_name at.now) self.now.items }
    {
        let number = self.order.find((at.module.as_slice(), at.name.as_slice()));
        numbered(self.index.items.as_slice(), number)
    }
}

fn numbered(items: &[IndexItem], at: Option<usize>) -> Option<&IndexItem>
    ensures { option_copied result ≡ option_and_then (slice_get items.now) at }
{
    items.get(at?)
}

fn order_of(alloc: Global, items: &[IndexItem]) -> Result<Order, Memory>
    ensures { IfOk result (λ o. o ≡ map item_name items.now) }
{
    let places = places_of(alloc, items)?;
    Order::of(places)
}

fn places_of(alloc: Global, items: &[IndexItem]) -> Result<List<Place>, Memory>
    ensures { IfOk result (λ ps. map place_name ps ≡ map item_name items.now) }
{
    let mut places = List::new(alloc);
    for item in items {
        places.push(place_of(item)?)?;
    }
    Ok(places)
}
