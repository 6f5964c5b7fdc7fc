ghost use Rattle.std.specs.Prelude.{◌≡◌, ◌∷◌, [], not, IfOk, OnOk};
ghost use Rattle.rs_plans.specs.Names.{is_among};
ghost use Rattle.rs_provider.specs.Naming.{HaveSame};

use inc_base::{Copied, Memory};
use rs_tree::Place;
use std::alloc::Global;
use std::collections::BTreeSet;
use std::marker::Model;

/// Places that were seen. Contracts see them as their list, each once, in the order of places.
#[derive(Drop)]
pub struct Seen {
    places: BTreeSet<Place>,
}

impl Model for Seen {
    ghost use Rattle.std.specs.Prelude.{List};
    ghost use Rattle.rs_tree.specs.declared.place.Place.{Place};

    ghost Value = { List Place };

    ghost view = { λ s. s.places.keys };

    ghost invariant = { λ s. Unit {0} };
}

impl Seen {
    /// None, which takes no memory.
    pub(crate) fn new(alloc: Global) -> Seen
        ensures { result ≡ [] }
    {
        Seen {
            places: BTreeSet::new(alloc),
        }
    }

    /// Whether a place is one of them.
    pub(crate) fn has(&self, place: &Place) -> bool
        ensures { result ≡ is_among self.now place.now }
    {
        self.places.contains(place)
    }

    /// Adds this place, and says whether it is new.
    pub(crate) fn add(&mut self, place: &Place) -> Result<bool, Memory>
        ensures new { IfOk result (λ new. new ≡ not (is_among self.old place.now)) }
        ensures more { OnOk result (HaveSame self.new (place.now ∷ self.old)) }
    {
        Ok(self.places.insert(place.copy()?)?)
    }
}
