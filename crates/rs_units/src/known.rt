ghost use Rattle.std.specs.Prelude.{◌≡◌, ℕ, ◌+◌, ◌<◌, List, length, map, option_and_then, IfOk};
ghost use Rattle.std.specs.Option.{option_map};
ghost use Rattle.std.specs.Borrow.{Bor};
ghost use Rattle.rs_lookup.specs.Places.{item_name};
ghost use Rattle.rs_reach.specs.Search.{start, walk};
ghost use Rattle.rs_reach.specs.Places.{IsLeft, ask, call_names};
ghost use Rattle.rs_units.specs.Ready.{kept};

use inc_base::{List, Memory};
use rs_lookup::{Places, places_of_items};
use rs_reach::places_of_calls;
use rs_reach::search::{Reached, calls_of, left_of, next, tell};
use rs_tree::{IndexItem, Place};
use std::alloc::Global;

// Of each function the numbers of those that it calls, where its calls are known.
pub(crate) fn known_calls<'a>(
    alloc: Global,
    items: &'a [IndexItem],
    calls: &'a [(Place, List<Place>)],
) -> Result<Vec<Option<Vec<usize>>>, Memory>
    ensures { IfOk result (λ v. (i : ℕ) → kept v.items i ≡ ask (map item_name items.now) calls.now i) }
{
    let places = places_of_items(alloc, items)?;
    let known = places_of_calls(alloc, calls)?;
    calls_of_all(alloc, &places, &known, calls, items.len())
}

// The calls of so many functions, by their numbers.
fn calls_of_all<'a>(
    alloc: Global,
    places: &Places<'a>,
    known: &Places<'a>,
    calls: &'a [(Place, List<Place>)],
    many: usize,
) -> Result<Vec<Option<Vec<usize>>>, Memory>
    requires { known.now ≡ call_names calls.now }
    ensures { IfOk result (λ v. (length v.items ≡ many) × ((i : ℕ) → i < many → kept v.items i ≡ ask places.now calls.now i)) }
{
    let mut all = Vec::new(alloc);
    for i in 0..many {
        all.push(calls_of(alloc, places, known, calls, Some(i))?)?;
    }
    Ok(all)
}

// The search by calls that are kept.
pub(crate) fn follow(
    alloc: Global,
    known: &[Option<Vec<usize>>],
    marks: &[bool],
    roots: Vec<usize>,
) -> Result<Reached, Memory>
    ensures found { IfOk result (λ r. r.found.items ≡ (walk marks.now (kept known.now) (start roots.items) (length marks.now + 1)).found) }
    ensures asked { IfOk result (λ r. r.asked ≡ (walk marks.now (kept known.now) (start roots.items) (length marks.now + 1)).asked) }
    ensures left { IfOk result (λ r. IsLeft marks.now r.left.items r.found.items) }
{
    let mut left = left_of(alloc, marks, &roots)?;
    let mut found = roots;
    let mut asked = 0;
    'steps: for _ in 0..marks.len() + 1 {
        let item = next(&found, asked);
        match its_calls(known, item) {
            None => return Ok(Reached { found, left, asked }),
            Some(called) => {
                tell(&mut left, &mut found, called)?;
                asked += 1;
            }
        }
    }
    Ok(Reached { found, left, asked })
}

fn its_calls(known: &[Option<Vec<usize>>], item: Option<usize>) -> Option<&[usize]>
    ensures { option_map (λ (b : Bor (List ℕ)). b.now) result ≡ option_and_then (kept known.now) item }
{
    match known.get(item?) {
        None => None,
        Some(None) => None,
        Some(Some(its)) => Some(its.as_slice()),
    }
}
