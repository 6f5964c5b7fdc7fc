ghost use Rattle.std.specs.Prelude.{◌≡◌, ◌+◌, ◌-◌, ◌<◌, ◌≤◌, ◌^◌, [], ◌∷◌, ◌++◌, length, OnOk, OnErr};

use crate::list::{List, MOST};
use crate::memory::Memory;
use std::alloc::Global;
use std::marker::Model;

/// A list that keeps room, so that what is added later takes no memory.
///
/// Contracts see its elements and for how many more there is room. Together they are at most `MOST`.
#[derive(Debug, Drop)]
pub struct Roomy<T> {
    items: Vec<T>,
    room: usize,
}

impl<T> Model for Roomy<T> {
    ghost use Rattle.std.specs.Prelude.{List, ℕ, length, vec_capacity, vec_len, ◌<◌, ◌≤◌, ◌+◌, ◌^◌};
    ghost use Rattle.std.specs.Coded.{coded_list, coded×, coded_ℕ};

    ghost Value = { List T × ℕ };

    ghost coded = { coded× (coded_list T.code) coded_ℕ };

    ghost view = { λ r. (r.items.items, r.room) };

    ghost invariant = { λ r. (vec_len r.items + r.room ≤ vec_capacity r.items) × (vec_len r.items + r.room < 2 ^ 32) };
}

impl<T> Roomy<T> {
    /// An empty list without room, which takes no memory.
    pub fn new(alloc: Global) -> Roomy<T>
        ensures { result ≡ ([], 0) }
    {
        Roomy {
            items: Vec::new(alloc),
            room: 0,
        }
    }

    /// Its elements in order.
    pub fn as_slice(&self) -> &[T]
        ensures value { result.now ≡ self.now.0 }
        ensures few { length self.now.0 + self.now.1 < 2 ^ 32 }
    {
        self.items.as_slice()
    }

    /// Makes room for so many more. `Memory` leaves it as it was, and also comes where they are too many.
    pub fn make_room(&mut self, more: usize) -> Result<(), Memory>
        ensures ok { OnOk result (self.new ≡ (self.old.0, self.old.1 + more)) }
        ensures err { OnErr result (self.new ≡ self.old) }
    {
        let Some(room) = self.room.checked_add(more) else {
            return Err(Memory);
        };
        if room > MOST - self.items.len() {
            return Err(Memory);
        }
        self.items.reserve(room)?;
        self.room = room;
        Ok(())
    }

    /// Gives up room for so many.
    pub fn give_up(&mut self, less: usize)
        requires { less ≤ self.old.1 }
        ensures { self.new ≡ (self.old.0, self.old.1 - less) }
    {
        self.room -= less;
    }
}

impl<T: Drop> Roomy<T> {
    /// Adds an element at the end, where there is room for it.
    pub fn push_kept(&mut self, item: T)
        requires { 0 < self.old.1 }
        ensures { self.new ≡ (self.old.0 ++ item ∷ [], self.old.1 - 1) }
    {
        self.items.push(item).unwrap();
        self.room -= 1;
    }

    /// Its elements as a plain list.
    pub fn into_list(self) -> List<T>
        ensures { result ≡ self.0 }
    {
        let Roomy { items, room: _ } = self;
        List::from_vec(items)
    }
}
