ghost use Rattle.std.specs.Prelude.{◌≡◌, ◌≤◌, ◌<◌, length, map, IfOk, IsTrue, slice_get};
ghost use Rattle.std.specs.Option.{option_map};
ghost use Rattle.std.specs.BTreeMap.{get, is_at};
ghost use Rattle.std.specs.List.Sorted.{IsStrictlySortedBy};
ghost use Rattle.std.specs.Map.{keys_of, lookup};
ghost use Rattle.rs_tree.specs.Order.{place_cmp};
ghost use Rattle.rs_tree.specs.declared.place.Place.{Place};
ghost use Rattle.rs_lookup.specs.Keys.{plain};
ghost use Rattle.rs_lookup.specs.Orders.{held, is_keyed, place_in};
ghost use Rattle.rs_lookup.specs.Places.{place_from, place_name};

use crate::places::Key;
use inc_base::{Copied, List, Memory};
use rs_tree::Place;
use std::alloc::Global;
use std::collections::BTreeMap;
use std::marker::Model;

/// A list of places with names of its own, made ready for look-ups: it can be kept beside what the places are of.
/// Contracts see the list.
#[derive(Drop)]
pub struct Order {
    places: List<Place>,
    first: Vec<(Place, usize)>,
}

impl Model for Order {
    ghost use Rattle.std.specs.Prelude.{List, map};
    ghost use Rattle.rs_lookup.specs.Orders.{IsOrder};
    ghost use Rattle.rs_lookup.specs.Places.{Name, place_name};

    ghost Value = { List Name };

    ghost view = { λ o. map place_name o.places };

    ghost invariant = { λ o. IsOrder o.first.items (map place_name o.places) };
}

impl Order {
    /// These places, in n log n.
    pub fn of(places: List<Place>) -> Result<Order, Memory>
        ensures { IfOk result (λ o. o ≡ map place_name places) }
    {
        let alloc = places.allocator();
        match first_places(alloc, places.as_slice()) {
            Ok(map) => match entries_of(alloc, map) {
                Ok(first) => Ok(Order { places, first }),
                Err(refused) => {
                    drop(places);
                    Err(refused)
                }
            },
            Err(refused) => {
                drop(places);
                Err(refused)
            }
        }
    }

    /// The place at a position.
    pub fn key(&self, at: usize) -> Option<Key<'_>>
        ensures { option_map plain result ≡ slice_get self.now at }
    {
        match self.places.as_slice().get(at) {
            None => None,
            Some(place) => Some(key_of(place)),
        }
    }

    /// The position of the first of the places that is this one. It looks at as many as halving takes.
    pub fn find(&self, key: Key<'_>) -> Option<usize>
        ensures { result ≡ place_from (plain key.entry) 0 self.now }
    {
        find_in(self.first.as_slice(), key)
    }
}

fn key_of(place: &Place) -> Key<'_>
    ensures { plain result ≡ place_name place.now }
{
    (place.module.as_slice(), place.name.as_slice())
}

// The position of the first of equal places, for each place.
fn first_places(alloc: Global, places: &[Place]) -> Result<BTreeMap<Place, usize>, Memory>
    ensures { IfOk result (λ m. (q : Place) → get place_cmp m q ≡ place_from (place_name q) 0 (map place_name places.now)) }
{
    let mut first = BTreeMap::new(alloc);
    for i in (0..places.len()).rev() {
        first.insert(places[i].copy()?, i)?;
    }
    Ok(first)
}

// What a map has, in the order of its keys.
fn entries_of(alloc: Global, map: BTreeMap<Place, usize>) -> Result<Vec<(Place, usize)>, Memory>
    ensures all { IfOk result (λ es. es.items ≡ map.entries) }
    ensures sorted { IfOk result (λ es. IsStrictlySortedBy place_cmp (keys_of es.items)) }
{
    let mut entries = Vec::with_capacity(alloc, map.len())?;
    for entry in map {
        entries.push(entry)?;
    }
    Ok(entries)
}

fn find_in(first: &[(Place, usize)], key: Key<'_>) -> Option<usize>
    requires { IsStrictlySortedBy place_cmp (keys_of first.now) }
    ensures { result ≡ lookup (is_at (place_cmp (held key.entry))) first.now }
{
    let at = place_of(first, key);
    if stands_at(first, at, key) {
        Some(first[at].1)
    } else {
        None
    }
}

// How many stand before this one.
fn place_of(first: &[(Place, usize)], key: Key<'_>) -> usize
    requires { IsStrictlySortedBy place_cmp (keys_of first.now) }
    ensures place { result ≡ place_in place_cmp (held key.entry) first.now }
    ensures bound { result ≤ length first.now }
{
    first.partition_point(|entry| key_of(&entry.0).cmp(&key).is_lt())
}

fn stands_at(first: &[(Place, usize)], at: usize, key: Key<'_>) -> bool
    ensures test { result ≡ is_keyed place_cmp (held key.entry) (slice_get first.now at) }
    ensures within { IsTrue result → at < length first.now }
{
    match first.get(at) {
        Some(entry) => key.cmp(&key_of(&entry.0)).is_eq(),
        None => false,
    }
}
