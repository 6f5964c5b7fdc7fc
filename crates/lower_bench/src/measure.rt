//! How much processor time the lowering of a function takes.

use crate::shape::{LARGE, SMALL, Shape};
use inc_base::{Bytes, Copied, List, Memory};
use rs_lower::lower;
use rs_names::{Names, index, resolve_in};
use rs_text::read_text;
use rs_tree::{Const, Crate, Found, Index, Item, Place, Placed, Sig};
use std::alloc::Global;
use std::io;
use std::time::{CpuClock, Duration};

/// What `lower` is given of an item beside the level.
#[derive(Drop)]
struct Given {
    item: Item,
    found: List<Found>,
    sigs: List<(Place, Sig)>,
    consts: List<(Place, Const)>,
}

/// The last item of a text, where the text has one.
fn read_given(alloc: Global, text: &[u8]) -> Result<Option<Given>, Memory> {
    match read_text(alloc, text) {
        Ok(tree) => last_item(alloc, &tree),
        Err(fault) => {
            drop(fault);
            Ok(None)
        }
    }
}

fn last_item(alloc: Global, tree: &Crate) -> Result<Option<Given>, Memory> {
    match tree.items.as_slice().last() {
        None => Ok(None),
        Some(placed) => {
            let index = index(tree)?;
            let found = found_of(alloc, placed, &index)?;
            Ok(Some(Given {
                item: placed.item.copy()?,
                found,
                sigs: List::new(alloc),
                consts: constants(alloc)?,
            }))
        }
    }
}

/// What the item's paths lead to.
fn found_of(alloc: Global, placed: &Placed, index: &Index) -> Result<List<Found>, Memory> {
    let names = Names::new(index)?;
    resolve_in(alloc, &placed.item, placed.module.as_slice(), &names)
}

/// The constant of the texts.
fn constants(alloc: Global) -> Result<List<(Place, Const)>, Memory> {
    let mut consts = List::new(alloc);
    let place = Place {
        module: Bytes::new(alloc),
        name: Bytes::of(alloc, b"N")?,
    };
    consts.push((place, Const::Int(21)))?;
    Ok(consts)
}

/// How many instructions the form has; none where there is no memory.
fn count(given: &Given, level: u8) -> usize {
    match lower(&given.item, &given.found, &given.sigs, &given.consts, level) {
        Ok(form) => form.code.len(),
        Err(_) => 0,
    }
}

/// How many instructions, and the least processor time of so many runs in microseconds.
fn least(rt: &impl CpuClock, given: &Given, level: u8, runs: u32) -> io::Result<(usize, u128)> {
    let mut least = Duration::MAX;
    let mut many = 0;
    for _ in 0..runs {
        let start = rt.thread_cpu_time()?;
        many = count(given, level);
        least = least.min(rt.thread_cpu_time()?.saturating_sub(start));
    }
    Ok((many, least.as_micros()))
}

fn given_of(alloc: Global, shape: Shape, size: usize) -> io::Result<Given> {
    let text = shape.text(alloc, size)?;
    match read_given(alloc, text.as_bytes()) {
        Ok(Some(given)) => Ok(given),
        Ok(None) => Err(io::Error::other("no such text")),
        Err(_) => Err(io::Error::from(io::ErrorKind::OutOfMemory)),
    }
}

/// Prints how many instructions the small and the large text of that shape have, and how long each took, at each level.
pub fn measure<R: Print + Eprint + CpuClock>(
    rt: &R,
    alloc: Global,
    shape: Shape,
    runs: u32,
) -> io::Result<()> {
    let small = given_of(alloc, shape, SMALL)?;
    let large = given_of(alloc, shape, LARGE)?;
    let name = shape.name();
    for level in 0..2_u8 {
        let (few, short) = least(rt, &small, level, runs)?;
        let (many, long) = least(rt, &large, level, runs)?;
        println!(rt; "{name}, level {level}: {few} {many}")?;
        let percent = long.saturating_mul(100) / short.max(1);
        eprintln!(rt; "{name}, level {level}: {short} and {long} microseconds, {percent} percent")?;
    }
    Ok(())
}
