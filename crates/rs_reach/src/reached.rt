ghost use Rattle.std.specs.Prelude.{◌≡◌, ℕ, ◌+◌, Bool, List, length, ◌↔◌, IfOk, option_and_then};
ghost use Rattle.std.specs.List.{Contains};
ghost use Rattle.std.specs.Option.{option_map};
ghost use Rattle.std.specs.Borrow.{Bor};
ghost use Rattle.rs_reach.specs.Places.{IsLeft};
ghost use Rattle.rs_reach.specs.Search.{start, walk};
ghost use Rattle.rs_reach.specs.Reached.{every, named, IsReachedFrom};

use crate::search::{left_of, next, tell};
use inc_base::Memory;
use std::alloc::Global;

/// The numbers that one reaches by one step or more, where each names others, in the order found.
///
/// A number without a list names none, and isn't reached.
pub fn reached_from(alloc: Global, names: &[Vec<usize>], from: usize) -> Result<Vec<usize>, Memory>
    ensures { IfOk result (λ found. (b : ℕ) → Contains found.items b ↔ IsReachedFrom names.now from b) }
{
    let may = every(alloc, names)?;
    let mut found = Vec::new(alloc);
    let mut left = left_of(alloc, &may, &found)?;
    match its_names(names, Some(from)) {
        None => Ok(found),
        Some(first) => {
            tell(&mut left, &mut found, first)?;
            follow(names, left, found)
        }
    }
}

// Goes on from those found.
fn follow(names: &[Vec<usize>], left: Vec<bool>, found: Vec<usize>) -> Result<Vec<usize>, Memory>
    ensures { IfOk result (λ all. (may : List Bool) → IsLeft may left.items found.items → all.items ≡ (walk may (named names.now) (start found.items) (length names.now + 1)).found) }
{
    let mut left = left;
    let mut found = found;
    let mut asked = 0;
    'steps: for _ in 0..names.len() + 1 {
        let item = next(&found, asked);
        match its_names(names, item) {
            None => return Ok(found),
            Some(its) => {
                tell(&mut left, &mut found, its)?;
                asked += 1;
            }
        }
    }
    Ok(found)
}

// That each may be found.
fn every(alloc: Global, names: &[Vec<usize>]) -> Result<Vec<bool>, Memory>
    ensures { IfOk result (λ v. v.items ≡ every names.now) }
{
    let mut may = Vec::with_capacity(alloc, names.len())?;
    for _its in names {
        may.push(true)?;
    }
    Ok(may)
}

fn its_names(names: &[Vec<usize>], item: Option<usize>) -> Option<&[usize]>
    ensures { option_map (λ (b : Bor (List ℕ)). b.now) result ≡ option_and_then (named names.now) item }
{
    match names.get(item?) {
        None => None,
        Some(its) => Some(its.as_slice()),
    }
}
