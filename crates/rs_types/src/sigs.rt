ghost use Rattle.std.specs.Prelude.{◌≡◌, IfOk, slice_get};
ghost use Rattle.std.specs.Option.{option_copied, option_map};
ghost use Rattle.rs_tree.specs.declared.place.Place.{Place};
ghost use Rattle.rs_tree.specs.declared.index.Sig.{Sig};
ghost use Rattle.rs_lookup.specs.Keys.{plain};
ghost use Rattle.rs_types.specs.Types.{sig_at};

use inc_base::Memory;
use rs_lookup::{Key, Places};
use rs_tree::{Place, Sig};
use std::alloc::Global;
use std::marker::Model;

/// What is known of items, made ready for look-ups. Contracts see it as the list, of whose equal places the first counts.
#[derive(Drop)]
pub struct Sigs<'a> {
    entries: &'a [(Place, Sig)],
    places: Places<'a>,
}

impl<'a> Model for Sigs<'a> {
    ghost use Rattle.std.specs.Prelude.{◌≡◌, List, map};
    ghost use Rattle.rs_tree.specs.declared.place.Place.{Place};
    ghost use Rattle.rs_tree.specs.declared.index.Sig.{Sig};
    ghost use Rattle.rs_types.specs.Types.{places_of};

    ghost Value = { List (Place × Sig) };

    ghost view = { λ s. s.entries.now };

    ghost invariant = { λ s. s.places ≡ places_of s.entries.now };
}

impl<'a> Sigs<'a> {
    /// These items, in n log n.
    pub fn new(alloc: Global, entries: &'a [(Place, Sig)]) -> Result<Sigs<'a>, Memory>
        ensures { IfOk result (λ s. s ≡ entries.now) }
    {
        let mut keys = Vec::with_capacity(alloc, entries.len())?;
        for (place, _) in entries {
            keys.push((place.module.as_slice(), place.name.as_slice()))?;
        }
        let places = Places::new(alloc, keys)?;
        Ok(Sigs { entries, places })
    }

    /// What is known of the item of a module, empty for the root, and a name.
    pub fn find(&self, key: Key<'a>) -> Option<&'a Sig>
        ensures { option_copied result ≡ sig_at (plain key.entry) self.now }
    {
        match self.places.find(key) {
            None => None,
            Some(at) => self.at(at),
        }
    }

    fn at(&self, at: usize) -> Option<&'a Sig>
        ensures { option_copied result ≡ option_map (λ (e : Place × Sig). e.1) (slice_get self.now at) }
    {
        match self.entries.get(at) {
            None => None,
            Some((_, sig)) => Some(sig),
        }
    }
}
