//! A search that goes on where it stood when the calls of one more function are known.

ghost use Rattle.std.specs.Prelude.{◌≡◌, ℕ, ◌+◌, Bool, List, length, replicate, slice_get, slice_set, option_and_then, IfOk};
ghost use Rattle.std.specs.Option.{option_map, option_map_or};
ghost use Rattle.std.specs.Borrow.{Bor};
ghost use Rattle.rs_reach.specs.Search.{walk};
ghost use Rattle.rs_reach.specs.Places.{IsLeft, numbers};
ghost use Rattle.rs_units.specs.Ready.{kept};
ghost use Rattle.rs_provider.specs.Walks.{first_named, held, state_of};

use inc_base::Memory;
use rs_lookup::{Key, Places};
use rs_reach::search::{Reached, left_of, next, tell};
use rs_tree::Place;
use std::alloc::Global;
use std::mem;

/// A search on its way: what it has reached, and the numbers of those that a function calls, kept at the first item of
/// its name, where its calls are known.
#[derive(Drop)]
pub struct Walk {
    pub reached: Reached,
    pub known: Vec<Option<Vec<usize>>>,
}

impl Walk {
    ghost use Rattle.std.specs.Prelude.{[], ◌∷◌, ◌++◌};
    ghost use Rattle.rs_tree.specs.declared.place.Place.{Place};
    ghost use Rattle.rs_lookup.specs.Places.{Name, place_name};
    ghost use Rattle.rs_reach.specs.Laws.{AreRoots};
    ghost use Rattle.rs_provider.specs.Walks.{IsWalk};

    /// The search from these roots, before any calls are known.
    pub fn new(alloc: Global, may: &[bool], roots: Vec<usize>) -> Result<Walk, Memory>
        ensures { IfOk result (λ w. (names : List Name) → length names ≡ length may.now → IsWalk names may.now roots.items [] w) }
    {
        let known = unknown(alloc, may.len())?;
        let left = left_of(alloc, may, &roots)?;
        let reached = Reached {
            found: roots,
            left,
            asked: 0,
        };
        Ok(Walk { reached, known })
    }

    /// The next to ask, whose calls aren't known, or None where all were asked.
    pub fn next(&self) -> Option<usize>
        ensures { result ≡ slice_get self.now.reached.found.items self.now.reached.asked }
    {
        next(&self.reached.found, self.reached.asked)
    }

    /// With the calls of the next: goes on as far as calls are known. It costs a look-up for each place called and for each
    /// function that is asked now.
    pub fn with_calls<'a>(
        self,
        alloc: Global,
        places: &Places<'a>,
        called: &'a [Place],
    ) -> Result<Walk, Memory>
        ensures { IfOk result (λ w. (may : List Bool) (roots : List ℕ) (calls : List (Place × List Place)) (p : Place) → AreRoots may roots → IsWalk places.now may roots calls self → option_and_then (slice_get places.now) (slice_get self.reached.found.items self.reached.asked) ≡ Some (place_name p) → IsWalk places.now may roots (calls ++ (p, called.now) ∷ []) w) }
    {
        let Walk { reached, known } = self;
        let numbers = numbers_of(alloc, places, called)?;
        let at = first_named(places, next(&reached.found, reached.asked));
        let known = with_known(known, at, numbers);
        let reached = follow(places, &known, reached)?;
        Ok(Walk { reached, known })
    }
}

// The numbers of places; what is no item is passed over.
fn numbers_of<'a>(
    alloc: Global,
    places: &Places<'a>,
    called: &'a [Place],
) -> Result<Vec<usize>, Memory>
    ensures { IfOk result (λ v. v.items ≡ numbers places.now called.now) }
{
    let mut numbers = Vec::new(alloc);
    for place in called {
        let key: Key<'a> = (place.module.as_slice(), place.name.as_slice());
        match places.find(key) {
            None => {}
            Some(number) => numbers.push(number)?,
        }
    }
    Ok(numbers)
}

// No calls of so many.
fn unknown(alloc: Global, many: usize) -> Result<Vec<Option<Vec<usize>>>, Memory>
    ensures { IfOk result (λ v. v.items ≡ replicate many None) }
{
    let mut known = Vec::with_capacity(alloc, many)?;
    for _ in 0..many {
        known.push(None)?;
    }
    Ok(known)
}

// These calls, where there is a number for them.
fn with_known(
    known: Vec<Option<Vec<usize>>>,
    at: Option<usize>,
    numbers: Vec<usize>,
) -> Vec<Option<Vec<usize>>>
    ensures { result.items ≡ option_map_or (λ i. slice_set known.items i (Some numbers)) at known.items }
{
    let mut known = known;
    match at {
        None => drop(numbers),
        Some(at) => {
            if at < known.len() {
                drop(mem::replace(&mut known[at], Some(numbers)));
            } else {
                drop(numbers);
            }
        }
    }
    known
}

// The number of the first item of its name.
fn first_named<'a>(places: &Places<'a>, item: Option<usize>) -> Option<usize>
    ensures { result ≡ option_and_then (first_named places.now) item }
{
    places.find(places.key(item?)?)
}

// The calls that are kept of the function with this number.
fn kept_calls(known: &[Option<Vec<usize>>], at: Option<usize>) -> Option<&[usize]>
    ensures { option_map (λ (b : Bor (List ℕ)). b.now) result ≡ option_and_then (kept known.now) at }
{
    match known.get(at?) {
        None => None,
        Some(None) => None,
        Some(Some(its)) => Some(its.as_slice()),
    }
}

// Asks each that is found for its calls, until nothing is left to ask or calls aren't known.
fn follow<'a>(
    places: &Places<'a>,
    known: &[Option<Vec<usize>>],
    reached: Reached,
) -> Result<Reached, Memory>
    ensures { IfOk result (λ r. (may : List Bool) → IsLeft may reached.left.items reached.found.items → (state_of r ≡ walk may (held places.now known.now) (state_of reached) (length known.now + 1)) × IsLeft may r.left.items r.found.items) }
{
    let Reached { found, left, asked } = reached;
    let mut found = found;
    let mut left = left;
    let mut asked = asked;
    'steps: for _ in 0..known.len() + 1 {
        let at = first_named(places, next(&found, asked));
        match kept_calls(known, at) {
            None => return Ok(Reached { found, left, asked }),
            Some(called) => {
                tell(&mut left, &mut found, called)?;
                asked += 1;
            }
        }
    }
    Ok(Reached { found, left, asked })
}
