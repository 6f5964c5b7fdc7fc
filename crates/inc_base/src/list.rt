ghost use Rattle.std.specs.Fn.{CalledAt};
ghost use Rattle.std.specs.List.Retain.{IsFiltered};
ghost use Rattle.std.specs.Cmp.Lexicographic.{pointwise, slice_cmp, slice_partial_cmp, lists_per, lists_equiv, lists_po, lists_total, lists_agrees, lists_ties};
ghost use Rattle.std.specs.Prelude.{◌≡◌, ◌+◌, ◌<◌, ◌≤◌, ◌^◌, [], ◌∷◌, ◌++◌, length, List, IfOk, OnOk, OnErr, IsTrue, ◌↔◌};

use crate::copied::Copied;
use crate::memory::Memory;
use std::alloc::{AllocError, Global};
use std::cmp::Ordering;
use std::marker::Model;

/// The most elements of a list, so that a count of them fits the `u32` of a byte form.
pub const MOST: usize = 4_294_967_295;

/// A `Vec` that contracts see as the list of its elements. It has at most `MOST` of them: room for more
/// counts as memory that isn't there.
#[derive(Debug, Drop)]
pub struct List<T> {
    items: Vec<T>,
}

impl<T> Model for List<T> {
    ghost use Rattle.std.specs.Prelude.{List, length, ◌<◌, ◌^◌};
    ghost use Rattle.std.specs.Coded.{coded_list};

    ghost Value = { List T };

    ghost coded = { coded_list T.code };

    ghost view = { λ it. it.items.items };

    ghost invariant = { λ it. length it.items.items < 2 ^ 32 };
}

impl<T> List<T> {
    /// An empty list, which takes no memory.
    pub fn new(alloc: Global) -> List<T>
        ensures { result ≡ [] }
    {
        List {
            items: Vec::new(alloc),
        }
    }

    /// Its elements in order.
    pub fn as_slice(&self) -> &[T]
        ensures value { result.now ≡ self.now }
        ensures few { length self.now < 2 ^ 32 }
    {
        self.items.as_slice()
    }

    /// How many elements it has.
    pub fn len(&self) -> usize
        ensures value { result ≡ length self.now }
        ensures few { result < 2 ^ 32 }
    {
        self.items.len()
    }

    /// A list of a vector's elements, which are at most `MOST`.
    pub fn from_vec(items: Vec<T>) -> List<T>
        requires { length items.items < 2 ^ 32 }
        ensures { result ≡ items.items }
    {
        List { items }
    }

    /// Its elements as a vector, to be gone over by value. It takes no memory.
    pub fn into_vec(self) -> Vec<T>
        ensures value { result.items ≡ self }
        ensures few { length result.items < 2 ^ 32 }
    {
        let List { items } = self;
        items
    }

    /// Whether it has no element.
    pub fn is_empty(&self) -> bool
        ensures { IsTrue result ↔ (self.now ≡ []) }
    {
        self.items.is_empty()
    }

    /// The allocator that it was made with, for what is made beside it.
    pub fn allocator(&self) -> Global {
        *self.items.allocator()
    }
}

impl<T: Drop> List<T> {
    /// Adds an element at the end. `Memory` leaves the list as it was, and also comes where it is full.
    pub fn push(&mut self, item: T) -> Result<(), Memory>
        ensures ok { OnOk result (self.new ≡ self.old ++ item ∷ []) }
        ensures err { OnErr result (self.new ≡ self.old) }
    {
        if self.items.len() >= MOST {
            return Err(Memory);
        }
        self.items.push(item)?;
        Ok(())
    }
}

impl<T: Drop> List<T> {
    /// Keeps the elements that pass, in their order. It takes no memory.
    pub fn retain<F: FnMut(&T) -> bool>(&mut self, f: F)
        requires { F.IsAlwaysCallable f }
        ensures { IsFiltered (CalledAt F.FnMut) f self.old self.new }
    {
        self.items.retain(f);
    }

    /// Adds the elements of another list at the end. `Memory` leaves the list as it was, with the other one
    /// gone, and also comes where it has no room left for them.
    pub fn append_list(&mut self, other: List<T>) -> Result<(), Memory>
        ensures ok { OnOk result (self.new ≡ self.old ++ other) }
        ensures err { OnErr result (self.new ≡ self.old) }
    {
        let mut more = other.into_vec();
        if more.len() > MOST - self.items.len() {
            return Err(Memory);
        }
        self.items.append(&mut more)?;
        Ok(())
    }

    /// Takes the last element away, where there is one.
    pub fn drop_last(&mut self)
        ensures last { (front : List T) (last : T) → self.old ≡ front ++ last ∷ [] → self.new ≡ front }
        ensures empty { self.old ≡ [] → self.new ≡ [] }
    {
        let _ = self.items.pop();
    }

    /// Puts another element in the place of the last.
    pub fn set_last(&mut self, item: T)
        requires { 0 < length self.old }
        ensures { (front : List T) (last : T) → self.old ≡ front ++ last ∷ [] → self.new ≡ front ++ item ∷ [] }
    {
        let last = self.items.len() - 1;
        self.items[last] = item;
    }
}

impl<T: Copied> Clone for List<T> {
    ghost is_clone = { λ x y. y ≡ x };

    fn clone(&self) -> Result<List<T>, AllocError> {
        Ok(List {
            items: T::copy_all(self.allocator(), self.as_slice())?,
        })
    }
}

impl<T: Copied> Copied for List<T> {
    ghost same = { λ x y e. e };
}

impl<T: PartialEq> PartialEq for List<T> {
    ghost eq = { pointwise T.eq };

    ghost laws = { lists_per T.laws };

    fn eq(&self, other: &List<T>) -> bool {
        self.as_slice() == other.as_slice()
    }
}

impl<T: Eq> Eq for List<T> {
    ghost laws = { lists_equiv T.Eq.laws };
}

impl<T: PartialOrd> PartialOrd for List<T> {
    ghost partial_cmp = { slice_partial_cmp T.partial_cmp };

    ghost laws = { lists_po T.PartialOrd.laws };

    fn partial_cmp(&self, other: &List<T>) -> Option<Ordering> {
        self.as_slice().partial_cmp(other.as_slice())
    }
}

/// The first elements that differ decide, and where there are none the shorter list comes first.
impl<T: Ord> Ord for List<T> {
    ghost cmp = { slice_cmp T.cmp };

    ghost total = { lists_total T.total };

    ghost matches_partial_cmp = { lists_agrees T.matches_partial_cmp };

    ghost matches_eq = { lists_ties T.cmp T.matches_eq };

    fn cmp(&self, other: &List<T>) -> Ordering {
        self.as_slice().cmp(other.as_slice())
    }
}

impl List<u8> {
    /// Adds two pieces at the end, or none: `Memory` leaves the list as it was.
    pub(crate) fn append_two(&mut self, first: &[u8], second: &[u8]) -> Result<(), Memory>
        requires { length self.old + length first.now + length second.now < 2 ^ 32 }
        ensures ok { OnOk result (self.new ≡ self.old ++ first.now ++ second.now) }
        ensures err { OnErr result (self.new ≡ self.old) }
    {
        self.items.reserve(first.len() + second.len())?;
        self.items.extend_from_slice(first).unwrap();
        self.items.extend_from_slice(second).unwrap();
        Ok(())
    }
}
