//! A text's reading with an order of its items, by which they are looked up.

ghost use Rattle.std.specs.Prelude.{◌≡◌, map, option_and_then, slice_get, IfOk};
ghost use Rattle.std.specs.Option.{option_copied, option_map};
ghost use Rattle.rs_lookup.specs.Places.{place_name};
ghost use Rattle.rs_tree.specs.declared.tree.Placed.{Placed};
ghost use Rattle.rs_provider.specs.Readied.{item_read, names_read, placed_name};

use inc_base::{Copied, List, Memory};
use rs_lookup::Order;
use rs_queries::Reading;
use rs_tree::{Item, Place, Placed};
use std::alloc::Global;
use std::marker::Model;
use std::rc::Rc;

/// The reading of a text, whose items are looked up by name. Contracts see the reading.
#[derive(Drop)]
pub struct Readied {
    reading: Rc<Reading>,
    order: Order,
}

impl Model for Readied {
    ghost use Rattle.std.specs.Prelude.{◌≡◌};
    ghost use Rattle.std.specs.Coded.{codes};
    ghost use Rattle.rs_queries.specs.contracts.reading.Reading as row;
    ghost use Rattle.rs_queries.specs.declared.reading.Reading.{Reading};
    ghost use Rattle.rs_provider.specs.Readied.{names_read};

    ghost Value = { Reading };

    ghost coded = { Prim.hlevel (codes, row.the_row.coded) };

    ghost view = { λ r. r.reading.value };

    ghost invariant = { λ r. r.order ≡ names_read r.reading.value };
}

impl Readied {
    pub(crate) fn of(alloc: Global, reading: Rc<Reading>) -> Result<Readied, Memory>
        ensures { IfOk result (λ r. r ≡ reading.value) }
    {
        match order_of(alloc, reading.as_ref()) {
            Ok(order) => Ok(Readied { reading, order }),
            Err(refused) => {
                drop(reading);
                Err(refused)
            }
        }
    }

    pub(crate) fn reading(&self) -> &Reading
        ensures { result.now ≡ self.now }
    {
        self.reading.as_ref()
    }

    /// The item at a place: of equal ones the first.
    pub(crate) fn item(&self, at: &Place) -> Option<&Item>
        ensures { option_copied result ≡ item_read (place_name at.now) self.now }
    {
        match self.reading.as_ref() {
            Reading::Tree(tree) => {
                let number = self.order.find((at.module.as_slice(), at.name.as_slice()));
                numbered(tree.items.as_slice(), number)
            }
            Reading::Fault(_) => None,
        }
    }
}

fn order_of(alloc: Global, reading: &Reading) -> Result<Order, Memory>
    ensures { IfOk result (λ o. o ≡ names_read reading.now) }
{
    match reading {
        Reading::Tree(tree) => {
            let places = places_of(alloc, tree.items.as_slice())?;
            Order::of(places)
        }
        Reading::Fault(_) => Order::of(List::new(alloc)),
    }
}

fn places_of(alloc: Global, items: &[Placed]) -> Result<List<Place>, Memory>
    ensures { IfOk result (λ ps. map place_name ps ≡ map placed_name items.now) }
{
    let mut places = List::new(alloc);
    for placed in items {
        places.push(place_of(placed)?)?;
    }
    Ok(places)
}

fn place_of(placed: &Placed) -> Result<Place, Memory>
    ensures { IfOk result (λ p. place_name p ≡ placed_name placed.now) }
{
    Ok(Place {
        module: placed.module.copy()?,
        name: placed.item.name.copy()?,
    })
}

fn numbered(items: &[Placed], at: Option<usize>) -> Option<&Item>
    ensures { option_copied result ≡ option_map (λ (p : Placed). p.item) (option_and_then (slice_get items.now) at) }
{
    match items.get(at?) {
        Some(placed) => Some(&placed.item),
        None => None,
    }
}
