//! Values by names, in the order of the names.

ghost use Rattle.std.specs.Prelude.{◌≡◌, ◌<◌, ◌≤◌, ◌^◌, [], Some, length, slice_get, IsTrue, OnOk, OnErr};
ghost use Rattle.std.specs.Option.{option_copied};
ghost use Rattle.inc_products.specs.Named.{AreOrdered, is_keyed, name_cmp, place_of, value_at, with_value};

use inc_base::{Bytes, Label, MOST, Memory};
use std::alloc::Global;
use std::marker::Model;
use std::mem;

/// Values by names, which contracts see as the list of the pairs in the order of the names (docs/FORMATS.md, "Files").
/// It has at most `MOST` of them.
#[derive(Debug, Drop)]
pub struct Named<V> {
    pairs: Vec<(Label, V)>,
}

/// A set of files: their bytes by their names.
pub type FileSet = Named<Bytes>;

impl<V> Model for Named<V> {
    ghost use Rattle.std.specs.Prelude.{ℕ, List, ◌<◌, ◌^◌, length};
    ghost use Rattle.std.specs.Coded.{coded_list, coded×, coded_ℕ};
    ghost use Rattle.inc_products.specs.Named.{AreOrdered};

    ghost Value = { List (List ℕ × V) };

    ghost coded = { coded_list (coded× (coded_list coded_ℕ) V.code) };

    ghost view = { λ n. n.pairs.items };

    ghost invariant = { λ n. (length n.pairs.items < 2 ^ 32) × AreOrdered n.pairs.items };
}

impl<V> Named<V> {
    /// With nothing in it. It takes no memory.
    pub fn new(alloc: Global) -> Named<V>
        ensures { result ≡ [] }
    {
        Named {
            pairs: Vec::new(alloc),
        }
    }

    /// How many names it has.
    pub fn len(&self) -> u32
        ensures { result ≡ length self.now }
    {
        self.pairs.len() as u32
    }

    /// The pair at a place, counted from 0 in the order of the names.
    pub fn at(&self, i: u32) -> (&Label, &V)
        requires { i < length self.now }
        ensures { slice_get self.now i ≡ Some (result.0.now, result.1.now) }
    {
        let pair = &self.pairs[i as usize];
        (&pair.0, &pair.1)
    }

    /// The pairs, in the order of the names.
    pub fn pairs(&self) -> &[(Label, V)]
        ensures value { result.now ≡ self.now }
        ensures few { length self.now < 2 ^ 32 }
        ensures ordered { AreOrdered self.now }
    {
        self.pairs.as_slice()
    }

    /// The allocator that it was made with, for what is made beside it.
    pub fn allocator(&self) -> Global {
        *self.pairs.allocator()
    }

    /// What stands at a name. It looks at as many names as halving takes.
    pub fn get(&self, name: &Label) -> Option<&V>
        ensures { option_copied result ≡ value_at name.now self.now }
    {
        value_at(self.pairs.as_slice(), name)
    }
}

impl<V: Drop> Named<V> {
    /// Puts a value at a name, in place of what stands there. `Memory` leaves all as it was, and also comes where it
    /// is full.
    pub fn put(&mut self, name: Label, value: V) -> Result<(), Memory>
        ensures ok { OnOk result (self.new ≡ with_value self.old name value) }
        ensures err { OnErr result (self.new ≡ self.old) }
    {
        put_value(&mut self.pairs, name, value)
    }
}

fn value_at<'a, V>(pairs: &'a [(Label, V)], name: &Label) -> Option<&'a V>
    requires { AreOrdered pairs.now }
    ensures { option_copied result ≡ value_at name.now pairs.now }
{
    let place = place_of(pairs, name);
    if stands_at(pairs, place, name) {
        Some(&pairs[place].1)
    } else {
        None
    }
}

/// How many names stand before this one.
fn place_of<V>(pairs: &[(Label, V)], name: &Label) -> usize
    requires { AreOrdered pairs.now }
    ensures place { result ≡ place_of name.now pairs.now }
    ensures bound { result ≤ length pairs.now }
{
    pairs.partition_point(|pair| pair.0.cmp(name).is_lt())
}

fn put_value<V: Drop>(pairs: &mut Vec<(Label, V)>, name: Label, value: V) -> Result<(), Memory>
    requires few { length pairs.old.items < 2 ^ 32 }
    requires ordered { AreOrdered pairs.old.items }
    ensures ok { OnOk result (pairs.new.items ≡ with_value pairs.old.items name value) }
    ensures err { OnErr result (pairs.new.items ≡ pairs.old.items) }
    ensures few { length pairs.new.items < 2 ^ 32 }
    ensures ordered { AreOrdered pairs.new.items }
{
    let place = place_of(pairs.as_slice(), &name);
    if stands_at(pairs.as_slice(), place, &name) {
        drop(name);
        drop(mem::replace(&mut pairs[place].1, value));
        return Ok(());
    }
    if pairs.len() >= MOST {
        drop(name);
        drop(value);
        return Err(Memory);
    }
    pairs.insert(place, (name, value))?;
    Ok(())
}

/// Whether the name stands at this place.
fn stands_at<V>(pairs: &[(Label, V)], place: usize, name: &Label) -> bool
    ensures test { result ≡ is_keyed name_cmp name.now (slice_get pairs.now place) }
    ensures within { IsTrue result → place < length pairs.now }
{
    match pairs.get(place) {
        Some(pair) => name.cmp(&pair.0).is_eq(),
        None => false,
    }
}
