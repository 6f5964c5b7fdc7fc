ghost use Rattle.std.specs.Prelude.{◌≡◌, ◌∷◌, [], IfOk, IfSome, IfNone, OnOk, OnErr, IsTrue, ◌↔◌};
ghost use Rattle.std.specs.Option.{option_copied};
ghost use Rattle.std.specs.Map.{lookup, set_value, keys_of};
ghost use Rattle.std.specs.BTreeMap.{insert_entry, is_at};
ghost use Rattle.std.specs.BTreeMap.Range.{entries_between};
ghost use Rattle.std.specs.declared.ops.Bound.TheVariants.{Included, Unbounded};
ghost use Rattle.std.specs.List.Sorted.{IsStrictlySortedBy};
ghost use Rattle.inc_fs.specs.Lists.{remove_entry};

use inc_base::{Copied, List, Memory};
use std::alloc::Global;
use std::collections::BTreeMap;
use std::collections::btree_map::Range;
use std::marker::Model;
use std::mem;

/// A map that contracts see as the list of its pairs, in the order of their keys.
#[derive(Drop)]
pub struct Table<K: Ord, V> {
    pairs: BTreeMap<K, V>,
}

impl<K: Ord, V> Model for Table<K, V> {
    ghost use Rattle.std.specs.Prelude.{List};
    ghost use Rattle.std.specs.Coded.{coded_list, coded×};

    ghost Value = { List (K × V) };

    ghost coded = { coded_list (coded× K.code V.code) };

    ghost view = { λ t. t.pairs.entries };
}

impl<K: Ord, V> Table<K, V> {
    /// A table with nothing in it.
    pub fn new(alloc: Global) -> Table<K, V>
        ensures { result ≡ [] }
    {
        Table {
            pairs: BTreeMap::new(alloc),
        }
    }

    /// Whether it has nothing in it.
    pub fn is_empty(&self) -> bool
        ensures { IsTrue result ↔ (self.now ≡ []) }
    {
        self.pairs.is_empty()
    }

    /// What stands at a key.
    pub fn get(&self, key: &K) -> Option<&V>
        ensures { option_copied result ≡ lookup (is_at (K.cmp key.now)) self.now }
    {
        self.pairs.get(key)
    }
}

impl<K: Ord + Drop, V: Drop> Table<K, V> {
    /// Puts a value at a key. After `Memory` the table is as before.
    pub fn insert(&mut self, key: K, value: V) -> Result<(), Memory>
        ensures ok { OnOk result (self.new ≡ insert_entry K.cmp self.old key value) }
        ensures err { OnErr result (self.new ≡ self.old) }
    {
        self.pairs.insert(key, value)?;
        Ok(())
    }

    /// Takes away what stands at a key, and gives it back. It takes no memory.
    pub fn remove(&mut self, key: &K) -> Option<V>
        ensures value { result ≡ lookup (is_at (K.cmp key.now)) self.old }
        ensures rest { self.new ≡ remove_entry (is_at (K.cmp key.now)) self.old }
    {
        self.pairs.remove(key)
    }

    /// Takes away the pair with the least key, and gives it; None exactly where there is no pair. It takes
    /// no memory.
    pub fn pop_first(&mut self) -> Option<(K, V)>
        ensures first { IfSome result (λ pair. self.old ≡ pair ∷ self.new) }
        ensures none { IfNone result (self.old ≡ []) }
        ensures stays { IfNone result (self.new ≡ []) }
    {
        self.pairs.pop_first()
    }

    /// Puts a value in the place of what stands at a key, and gives that back. It takes no memory.
    pub fn replace(&mut self, key: &K, value: V) -> Option<V>
        ensures value { result ≡ lookup (is_at (K.cmp key.now)) self.old }
        ensures rest { self.new ≡ set_value (is_at (K.cmp key.now)) self.old value }
        ensures ordered { IsStrictlySortedBy K.cmp (keys_of self.old) }
    {
        match self.pairs.get_mut(key) {
            Some(place) => Some(mem::replace(place, value)),
            None => None,
        }
    }
}

impl<K: Ord + Copied, V> Table<K, V> {
    /// The keys, in order.
    pub fn keys(&self, alloc: Global) -> Result<List<K>, Memory>
        ensures { IfOk result (λ keys. keys ≡ keys_of self.now) }
    {
        let mut keys = List::new(alloc);
        for key in self.pairs.keys() {
            keys.push(key.copy()?)?;
        }
        Ok(keys)
    }
}

impl<K: Ord + Drop, V> Table<K, V> {
    /// The pairs from this key on, in order.
    pub(crate) fn pairs_from(&self, key: K) -> Range<'_, K, V>
        ensures pairs { result ≡ entries_between K.cmp (Included key) Unbounded self.now }
        ensures ordered { IsStrictlySortedBy K.cmp (keys_of self.now) }
    {
        self.pairs.range(key..)
    }
}
