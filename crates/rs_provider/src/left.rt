ghost use Rattle.std.specs.Prelude.{◌≡◌, ◌++◌, ◌∷◌, [], IfOk, OnOk};
ghost use Rattle.std.specs.Option.{option_map};
ghost use Rattle.rs_plans.specs.Plans.{first_new};
ghost use Rattle.rs_provider.specs.Each.{taken_of};

use crate::known::Known;
use inc_base::{List, Memory};
use rs_tree::Place;
use std::alloc::Global;
use std::collections::VecDeque;
use std::marker::Model;

/// Places that are still to be asked about, in their order.
#[derive(Drop)]
pub struct Left {
    places: VecDeque<Place>,
}

impl Model for Left {
    ghost use Rattle.std.specs.Prelude.{List};
    ghost use Rattle.rs_tree.specs.declared.place.Place.{Place};

    ghost Value = { List Place };

    ghost view = { λ l. l.places.items };

    ghost invariant = { λ l. Unit {0} };
}

impl Left {
    pub(crate) fn new(alloc: Global) -> Left
        ensures { result ≡ [] }
    {
        Left {
            places: VecDeque::new(alloc),
        }
    }

    /// All of these.
    pub(crate) fn of(places: List<Place>) -> Result<Left, Memory>
        ensures { IfOk result (λ left. left ≡ places) }
    {
        let mut left = Left::new(places.allocator());
        for place in places.into_vec() {
            left.push(place)?;
        }
        Ok(left)
    }

    fn push(&mut self, place: Place) -> Result<(), Memory>
        ensures { OnOk result (self.new ≡ self.old ++ place ∷ []) }
    {
        self.places.push_back(place)?;
        Ok(())
    }

    /// The first place, and those after it.
    pub(crate) fn take(self) -> Option<(Place, Left)>
        ensures { result ≡ taken_of self }
    {
        let Left { places } = self;
        let mut places = places;
        match places.pop_front() {
            Some(place) => Some((place, Left { places })),
            None => {
                drop(places);
                None
            }
        }
    }

    /// Puts these before the others.
    pub(crate) fn put_front(&mut self, places: List<Place>) -> Result<(), Memory>
        ensures { OnOk result (self.new ≡ places ++ self.old) }
    {
        put_front(&mut self.places, places.into_vec())
    }

    /// Takes the first that isn't known, and those before it.
    pub(crate) fn next_new(&mut self, known: &Known) -> Option<Place>
        ensures { option_map (λ p. (p, self.new)) result ≡ first_new known.now self.old }
    {
        next_new(&mut self.places, known)
    }
}

fn put_front(to: &mut VecDeque<Place>, places: Vec<Place>) -> Result<(), Memory>
    ensures { OnOk result (to.new.items ≡ places.items ++ to.old.items) }
{
    let mut places = places;
    while let Some(place) = places.pop() {
        to.push_front(place)?;
    }
    Ok(())
}

fn next_new(places: &mut VecDeque<Place>, known: &Known) -> Option<Place>
    ensures { option_map (λ p. (p, places.new.items)) result ≡ first_new known.now places.old.items }
{
    while let Some(place) = places.pop_front() {
        if !known.has(&place) {
            return Some(place);
        }
    }
    None
}
