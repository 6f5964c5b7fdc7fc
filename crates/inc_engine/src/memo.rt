ghost use Rattle.std.specs.Prelude.{◌≡◌, ◌≢◌, ◌<◌, ◌^◌, ◌++◌, ◌∷◌, [], true, Some, IfSome, IfNone, IfOk, OnOk, slice_index_or, slice_set, length};
ghost use Rattle.std.specs.List.{All};
ghost use Rattle.inc_engine.specs.Marking.{IsAt};

use crate::done::Done;
use inc_base::{Bytes, Copied, MOST, Memory};
use inc_query::Query;
use std::alloc::Global;
use std::collections::BTreeMap;
use std::marker::Model;

/// The queries that were asked, in the order in which they were settled, and where each is.
#[derive(Drop)]
pub(crate) struct Memo {
    entries: Vec<Done>,
    index: BTreeMap<Query, u32>,
}

impl Model for Memo {
    ghost use Rattle.std.specs.Prelude.{List, length, ◌<◌, ◌^◌};
    ghost use Rattle.inc_engine.specs.declared.done.Done.{Done};

    ghost Value = { List Done };

    ghost use Rattle.inc_engine.specs.Index.{Indexed};

    ghost view = { λ m. m.entries.items };

    ghost invariant = { λ m. (length m.entries.items < 2 ^ 32) × Indexed m.index m.entries.items };
}

impl Memo {
    /// Nothing was asked yet.
    pub fn new(alloc: Global) -> Memo
        ensures { result ≡ [] }
    {
        Memo {
            entries: Vec::new(alloc),
            index: BTreeMap::new(alloc),
        }
    }

    /// Where a query is.
    pub fn find(&self, q: &Query) -> Option<u32>
        ensures found { IfSome result (λ i. IsAt self.now i q.now) }
        ensures none { IfNone result (All (λ d. d.query ≢ q.now) self.now) }
    {
        self.index.get(q).copied()
    }

    /// The entry at a position.
    pub fn entry(&self, place: u32) -> &Done
        requires { place < length self.now }
        ensures { result.now ≡ slice_index_or self.now place result.now }
    {
        &self.entries[place as usize]
    }

    /// All entries.
    pub fn as_slice(&self) -> &[Done]
        ensures value { result.now ≡ self.now }
        ensures few { length self.now < 2 ^ 32 }
    {
        self.entries.as_slice()
    }

    /// Puts a new entry at the end, and says where. After `Memory` the memo is as before.
    pub fn enter(&mut self, done: Done) -> Result<u32, Memory>
        requires { All (λ d. d.query ≢ done.query) self.old }
        ensures memo { OnOk result (self.new ≡ self.old ++ done ∷ []) }
        ensures place { IfOk result (λ i. i ≡ length self.old) }
    {
        let place = self.entries.len();
        if place >= MOST {
            return Err(Memory);
        }
        let key = done.query.copy()?;
        self.entries.push(done)?;
        match self.index.insert(key, place as u32) {
            Ok(_) => Ok(place as u32),
            Err(refused) => {
                drop(refused);
                self.entries.truncate(place);
                Err(Memory)
            }
        }
    }

    /// Keeps the value of a query that was run.
    pub fn keep(&mut self, place: u32, value: Bytes)
        requires { place < length self.old }
        ensures { (d : _) → self.new ≡ slice_set self.old place (record (slice_index_or self.old place d) { value = Some value; ran = true }) }
    {
        let done = &mut self.entries[place as usize];
        drop(std::mem::replace(&mut done.value, Some(value)));
        done.ran = true;
    }
}
