ghost use Rattle.std.specs.Prelude.{◌≡◌, map, IfOk, slice_get};
ghost use Rattle.std.specs.Option.{option_map};
ghost use Rattle.std.specs.BTreeMap.{get};
ghost use Rattle.rs_lookup.specs.Keys.{Held, plain, held_cmp};
ghost use Rattle.rs_lookup.specs.Places.{place_from};

use crate::order::Order;
use inc_base::Memory;
use std::alloc::Global;
use std::collections::BTreeMap;
use std::marker::Model;

/// A module, empty for the root, and a name.
pub type Key<'a> = (&'a [u8], &'a [u8]);

/// A list of places, made ready for look-ups.
#[derive(Drop)]
pub struct Places<'a> {
    form: Form<'a>,
}

/// Made for the list, or by an order that is kept.
#[derive(Drop)]
pub(crate) enum Form<'a> {
    Made(Vec<Key<'a>>, BTreeMap<Key<'a>, usize>),
    Kept(&'a Order),
}

impl<'a> Model for Places<'a> {
    ghost use Rattle.std.specs.Prelude.{List};
    ghost use Rattle.rs_lookup.specs.Places.{Name};
    ghost use Rattle.rs_lookup.specs.Ready.{IsReady, names_in};

    ghost Value = { List Name };

    ghost view = { λ p. names_in p.form };

    ghost invariant = { λ p. IsReady p.form };
}

impl<'a> Places<'a> {
    /// These places, in n log n.
    pub fn new(alloc: Global, keys: Vec<Key<'a>>) -> Result<Places<'a>, Memory>
        ensures { IfOk result (λ p. p ≡ map plain keys.entry.items) }
    {
        let first = first_places(alloc, &keys)?;
        Ok(Places {
            form: Form::Made(keys, first),
        })
    }

    /// The places of an order, at once.
    pub fn by(order: &'a Order) -> Places<'a>
        ensures { result ≡ order.now }
    {
        Places {
            form: Form::Kept(order),
        }
    }

    /// The place at a position.
    pub fn key(&self, at: usize) -> Option<Key<'a>>
        ensures { option_map plain result ≡ slice_get self.now at }
    {
        match &self.form {
            Form::Made(keys, _) => keys.get(at).copied(),
            Form::Kept(order) => order.key(at),
        }
    }

    /// The position of the first of the places that is this one.
    pub fn find(&self, key: Key<'a>) -> Option<usize>
        ensures { result ≡ place_from (plain key.entry) 0 self.now }
    {
        match &self.form {
            Form::Made(_, first) => first.get(&key).copied(),
            Form::Kept(order) => order.find(key),
        }
    }
}

// The position of the first of equal keys, for each key.
fn first_places<'a>(alloc: Global, keys: &[Key<'a>]) -> Result<BTreeMap<Key<'a>, usize>, Memory>
    ensures { IfOk result (λ m. (q : Held) → get held_cmp m q ≡ place_from (plain q) 0 (map plain keys.now)) }
{
    let mut places = BTreeMap::new(alloc);
    for i in (0..keys.len()).rev() {
        places.insert(keys[i], i)?;
    }
    Ok(places)
}
