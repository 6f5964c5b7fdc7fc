//! The search by calls, and the parts of it that searches of other crates have in common.

ghost use Rattle.std.specs.Prelude.{◌≡◌, ℕ, ◌+◌, List, Bool, length, map, IfOk, OnOk, slice_get, option_and_then};
ghost use Rattle.std.specs.Option.{option_map};
ghost use Rattle.rs_reach.specs.Search.{added, start, walk};
ghost use Rattle.rs_reach.specs.Places.{IsLeft, ask, call_names, numbers};

use crate::keys::places_of_calls;
use inc_base::{List, Memory};
use rs_lookup::{Key, Places};
use rs_tree::Place;
use std::alloc::Global;

/// What a search found, in order, what of the rest may still be found, and how many were asked.
#[derive(Drop)]
pub struct Reached {
    pub found: Vec<usize>,
    pub left: Vec<bool>,
    pub asked: usize,
}

/// Asks each that is found for its calls, until nothing is left to ask or calls aren't known.
pub(crate) fn search<'a>(
    alloc: Global,
    places: &Places<'a>,
    calls: &'a [(Place, List<Place>)],
    may: &[bool],
    roots: Vec<usize>,
) -> Result<Reached, Memory>
    ensures found { IfOk result (λ f. f.found.items ≡ (walk may.now (ask places.now calls.now) (start roots.items) (length may.now + 1)).found) }
    ensures asked { IfOk result (λ f. f.asked ≡ (walk may.now (ask places.now calls.now) (start roots.items) (length may.now + 1)).asked) }
    ensures left { IfOk result (λ f. IsLeft may.now f.left.items f.found.items) }
{
    let known = places_of_calls(alloc, calls)?;
    let mut left = left_of(alloc, may, &roots)?;
    let mut found = roots;
    let mut asked = 0;
    'steps: for _ in 0..may.len() + 1 {
        let item = next(&found, asked);
        match calls_of(alloc, places, &known, calls, item)? {
            None => return Ok(Reached { found, left, asked }),
            Some(called) => {
                tell(&mut left, &mut found, &called)?;
                asked += 1;
            }
        }
    }
    Ok(Reached { found, left, asked })
}

/// The next to ask, or None where all were asked.
pub fn next(found: &[usize], asked: usize) -> Option<usize>
    ensures { result ≡ slice_get found.now asked }
{
    found.get(asked).copied()
}

/// The numbers of the functions that an item calls, where that is known.
pub fn calls_of<'a>(
    alloc: Global,
    places: &Places<'a>,
    known: &Places<'a>,
    calls: &'a [(Place, List<Place>)],
    item: Option<usize>,
) -> Result<Option<Vec<usize>>, Memory>
    requires { known.now ≡ call_names calls.now }
    ensures { IfOk result (λ called. option_map (λ v. v.items) called ≡ option_and_then (ask places.now calls.now) item) }
{
    let Some(item) = item else {
        return Ok(None);
    };
    let Some(key) = places.key(item) else {
        return Ok(None);
    };
    let Some(at) = known.find(key) else {
        return Ok(None);
    };
    let Some(entry) = calls.get(at) else {
        return Ok(None);
    };
    Ok(Some(numbers_of(alloc, places, entry.1.as_slice())?))
}

// The numbers of places; what is no item is passed over.
pub(crate) fn numbers_of<'a>(
    alloc: Global,
    places: &Places<'a>,
    called: &'a [Place],
) -> Result<Vec<usize>, Memory>
    ensures { IfOk result (λ v. v.items ≡ numbers places.now called.now) }
{
    let mut numbers = Vec::new(alloc);
    for place in called {
        let key: Key<'a> = (place.module.as_slice(), place.name.as_slice());
        match places.find(key) {
            None => {}
            Some(number) => numbers.push(number)?,
        }
    }
    Ok(numbers)
}

/// What may be found and isn't a root.
pub fn left_of(alloc: Global, may: &[bool], roots: &[usize]) -> Result<Vec<bool>, Memory>
    ensures { IfOk result (λ left. IsLeft may.now left.items roots.now) }
{
    let mut left = Vec::from_slice(alloc, may)?;
    for root in roots {
        if *root < left.len() {
            left[*root] = false;
        }
    }
    Ok(left)
}

/// Adds what is called, may be found and isn't yet. `Memory` may leave some of it added.
pub fn tell(left: &mut Vec<bool>, found: &mut Vec<usize>, called: &[usize]) -> Result<(), Memory>
    ensures { OnOk result ((may : List Bool) → IsLeft may left.old.items found.old.items → (found.new.items ≡ added may found.old.items called.now) × IsLeft may left.new.items found.new.items) }
{
    for call in called {
        if *call < left.len() && left[*call] {
            found.push(*call)?;
            left[*call] = false;
        }
    }
    Ok(())
}
