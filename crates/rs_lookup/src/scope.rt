ghost use Rattle.std.specs.Prelude.{◌≡◌, ◌≤◌, ◌<◌, ◌-◌, [], ◌∷◌, length, drop, OnOk, OnErr};
ghost use Rattle.rs_lookup.specs.Env.{find};

use inc_base::Memory;
use std::alloc::Global;
use std::collections::BTreeMap;
use std::marker::Model;

// A local, and the position of the one of its name that it hides.
#[derive(Clone, Copy, Debug)]
pub(crate) struct Entry<'a> {
    pub name: &'a [u8],
    pub number: usize,
    pub hidden: Option<usize>,
}

/// The locals in scope, each a name with a number, the innermost first.
///
/// A map leads each name to its innermost local, and each local remembers the one that it hides, so that
/// leaving a block costs as much as its locals (docs/LANGUAGE.md, "Names").
#[derive(Drop)]
pub struct Scope<'a> {
    newest: BTreeMap<&'a [u8], usize>,
    entries: Vec<Entry<'a>>,
}

impl<'a> Model for Scope<'a> {
    ghost use Rattle.std.specs.Prelude.{List, ℕ, reverse};
    ghost use Rattle.rs_lookup.specs.Env.{Env};
    ghost use Rattle.rs_lookup.specs.Tracks.{Tracks, shown};

    ghost Value = { Env };

    ghost view = { λ s. shown (reverse s.entries.items) };

    ghost invariant = { λ s. Tracks s.newest (reverse s.entries.items) };
}

impl<'a> Scope<'a> {
    /// No local, which takes no memory.
    pub fn new(alloc: Global) -> Scope<'a>
        ensures { result ≡ [] }
    {
        Scope {
            newest: BTreeMap::new(alloc),
            entries: Vec::new(alloc),
        }
    }

    /// Adds an innermost local. `Memory` leaves the scope as it was.
    pub fn declare(&mut self, name: &'a [u8], number: usize) -> Result<(), Memory>
        ensures ok { OnOk result (self.new ≡ (name.now, number) ∷ self.old) }
    {
        let hidden = self.newest.get(&name).copied();
        let at = self.entries.len();
        self.entries.reserve(1)?;
        self.newest.insert(name, at)?;
        self.entries.push(Entry {
            name,
            number,
            hidden,
        })?;
        Ok(())
    }

    /// The number of a name's innermost local.
    #[tactic(auto, using(crate::proofs::ScopeLemmas::scopes))]
    pub fn find(&self, name: &'a [u8]) -> Option<usize>
        ensures { result ≡ find name.now self.now }
    {
        match self.newest.get(&name) {
            None => None,
            Some(at) => Some(self.entries[*at].number),
        }
    }

    /// How many locals are in scope, for `leave`.
    #[tactic(auto, using(crate::proofs::ScopeLemmas::scopes))]
    pub fn depth(&self) -> usize
        ensures { result ≡ length self.now }
    {
        self.entries.len()
    }

    /// Ends a block that began at this depth. It takes no memory.
    pub fn leave(&mut self, depth: usize)
        requires { depth ≤ length self.old }
        ensures { self.new ≡ drop (length self.old - depth) self.old }
    {
        while self.depth() > depth {
            self.undo();
        }
    }

    // Takes the innermost local away, and brings back what it hid.
    fn undo(&mut self)
        requires { 0 < length self.old }
        ensures { self.new ≡ drop 1 self.old }
    {
        let last = self.entries.pop().unwrap();
        match last.hidden {
            None => {
                let _ = self.newest.remove(&last.name);
            }
            Some(at) => {
                let _ = self.newest.insert(last.name, at);
            }
        }
    }
}
