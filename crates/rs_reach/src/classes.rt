//! Classes of numbers that lead to each other. Nothing is proved of how they are found: `cycles` tests them before it goes by them.

use crate::search::tell;
use inc_base::Memory;
use std::alloc::Global;

/// Of each number the pivot of its class, and its places in two orders: in the first all of a class but its pivot stand
/// after one that they name, in the second after one that names them.
#[derive(Drop)]
pub(crate) struct Classes {
    pub pivot: Vec<usize>,
    pub back: Vec<usize>,
    pub forth: Vec<usize>,
}

/// The classes, where the order has each number before those that it leads to and that don't lead back to it.
pub(crate) fn classify(
    alloc: Global,
    names: &[Vec<usize>],
    order: &[usize],
) -> Result<Classes, Memory> {
    let count = names.len();
    let turned = turned(alloc, names)?;
    let mut pivots = Vec::from_elem(alloc, 0, count)?;
    let mut left = Vec::from_elem(alloc, true, count)?;
    let mut back = Vec::with_capacity(alloc, count)?;
    let mut open = Vec::from_elem(alloc, false, count)?;
    let mut forth = Vec::with_capacity(alloc, count)?;
    for pivot in order {
        // A class is those left that lead to its pivot; it leads to them in turn.
        let before = back.len();
        spread(&turned, *pivot, &mut left, &mut back)?;
        join(&mut pivots, &mut open, &back, before, *pivot);
        spread(names, *pivot, &mut open, &mut forth)?;
    }
    let back = places(alloc, count, &back)?;
    let forth = places(alloc, count, &forth)?;
    Ok(Classes {
        pivot: pivots,
        back,
        forth,
    })
}

// What each number is named by.
fn turned(alloc: Global, names: &[Vec<usize>]) -> Result<Vec<Vec<usize>>, Memory> {
    let mut turned = Vec::with_capacity(alloc, names.len())?;
    for _its in names {
        turned.push(Vec::new(alloc))?;
    }
    for (number, its) in names.iter().enumerate() {
        turn(&mut turned, number, its)?;
    }
    Ok(turned)
}

fn turn(turned: &mut Vec<Vec<usize>>, number: usize, its: &[usize]) -> Result<(), Memory> {
    for named in its {
        if *named < turned.len() {
            turned[*named].push(number)?;
        }
    }
    Ok(())
}

// Gives the numbers found from there on their pivot, and opens them to the second search.
fn join(pivots: &mut Vec<usize>, open: &mut Vec<bool>, found: &[usize], from: usize, pivot: usize) {
    for at in from..found.len() {
        let member = found[at];
        if member < pivots.len() && member < open.len() {
            pivots[member] = pivot;
            open[member] = true;
        }
    }
}

// Adds a number and what it leads to, of those that are left.
fn spread(
    lists: &[Vec<usize>],
    from: usize,
    left: &mut Vec<bool>,
    found: &mut Vec<usize>,
) -> Result<(), Memory> {
    let mut at = found.len();
    tell(left, found, &[from])?;
    for _ in 0..u64::MAX {
        if at >= found.len() {
            return Ok(());
        }
        let number = found[at];
        if number < lists.len() {
            tell(left, found, &lists[number])?;
        }
        at += 1;
    }
    Ok(())
}

fn places(alloc: Global, count: usize, order: &[usize]) -> Result<Vec<usize>, Memory> {
    let mut places = Vec::from_elem(alloc, 0, count)?;
    for (place, number) in order.iter().enumerate() {
        if *number < places.len() {
            places[*number] = place;
        }
    }
    Ok(places)
}
