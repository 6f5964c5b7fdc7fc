ghost use Rattle.std.specs.Prelude.{◌≡◌, ◌++◌, ◌∷◌, [], IfOk};
ghost use Rattle.rs_plans.specs.Names.{is_among};
ghost use Rattle.rs_plans.specs.Plans.{places_known};

use crate::seen::Seen;
use inc_base::{List, Memory};
use rs_const::Entry;
use rs_tree::Place;
use std::alloc::Global;
use std::marker::Model;

/// Constants that are known. A set has their places, for look-ups, and contracts see the constants as their list.
#[derive(Drop)]
pub struct Known {
    entries: List<Entry>,
    places: Seen,
}

impl Model for Known {
    ghost use Rattle.std.specs.Prelude.{List};
    ghost use Rattle.std.specs.Coded.{codes};
    ghost use Rattle.rs_const.specs.Constants.{Entry};
    ghost use Rattle.rs_tree.specs.contracts.tree.Item as item;
    ghost use Rattle.rs_plans.specs.Plans.{places_known};
    ghost use Rattle.rs_provider.specs.Naming.{HaveSame};

    ghost Value = { List Entry };

    ghost coded = { Prim.hlevel (codes, item.the_row.coded) };

    ghost view = { λ k. k.entries };

    ghost invariant = { λ k. HaveSame k.places (places_known k.entries) };
}

impl Known {
    /// None, which takes no memory.
    pub(crate) fn new(alloc: Global) -> Known
        ensures { result ≡ [] }
    {
        Known {
            entries: List::new(alloc),
            places: Seen::new(alloc),
        }
    }

    /// Whether a place is one of theirs.
    pub(crate) fn has(&self, place: &Place) -> bool
        ensures { result ≡ is_among (places_known self.now) place.now }
    {
        self.places.has(place)
    }

    /// These, and one more.
    pub(crate) fn with(self, entry: Entry) -> Result<Known, Memory>
        ensures { IfOk result (λ known. known ≡ self ++ entry ∷ []) }
    {
        let Known { entries, places } = self;
        let mut entries = entries;
        let mut places = places;
        match places.add(&entry.0) {
            Err(refused) => {
                drop(entries);
                drop(places);
                drop(entry);
                Err(refused)
            }
            Ok(_) => match entries.push(entry) {
                Err(refused) => {
                    drop(entries);
                    drop(places);
                    Err(refused)
                }
                Ok(()) => Ok(Known { entries, places }),
            },
        }
    }

    pub(crate) fn as_slice(&self) -> &[Entry]
        ensures { result.now ≡ self.now }
    {
        self.entries.as_slice()
    }
}
