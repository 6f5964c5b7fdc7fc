//! A text's units: of each the functions whose calls are asked for, in that order, and its members.

use inc_base::{Bytes, Copied, List, Memory};
use rs_names::{Names, index, resolve_in};
use rs_reach::Callees;
use rs_text::read_text;
use rs_tree::{Crate, Index, Place};
use rs_units::{members, units, wanted};
use std::alloc::Global;
use text_rows::Answer;

/// Functions with what they call.
type Calls = List<(Place, List<Place>)>;

/// The units of a text, or `fault` where the text has no tree.
#[derive(Drop)]
pub struct Listing;

impl Answer for Listing {
    fn answer(&self, alloc: Global, _heading: &[u8], text: &[u8]) -> Result<Bytes, Memory> {
        match read_text(alloc, text) {
            Ok(tree) => units_of(alloc, &tree),
            Err(fault) => {
                drop(fault);
                Bytes::of(alloc, b"fault\n")
            }
        }
    }
}

fn units_of(alloc: Global, tree: &Crate) -> Result<Bytes, Memory> {
    let index = index(tree)?;
    let calls = calls_of(alloc, tree, &index)?;
    let units = units(&index)?;
    let mut to = Bytes::new(alloc);
    for unit in units.as_slice() {
        put_unit(&mut to, alloc, unit.as_slice(), &index, &calls)?;
    }
    Ok(to)
}

// The calls of each item; a constant has none.
fn calls_of(alloc: Global, tree: &Crate, index: &Index) -> Result<Calls, Memory> {
    let names = Names::new(index)?;
    let mut paths = List::new(alloc);
    for placed in tree.items.as_slice() {
        paths.push(resolve_in(alloc, &placed.item, placed.module.as_slice(), &names)?)?;
    }
    let callees = Callees::new(index)?;
    let mut calls = List::new(alloc);
    for (placed, found) in tree.items.as_slice().iter().zip(paths.as_slice()) {
        let place = Place {
            module: placed.module.copy()?,
            name: placed.item.name.copy()?,
        };
        let called = callees.calls_of(alloc, &placed.item, found.as_slice())?;
        calls.push((place, called))?;
    }
    Ok(calls)
}

fn put_unit(
    to: &mut Bytes,
    alloc: Global,
    unit: &[u8],
    index: &Index,
    calls: &Calls,
) -> Result<(), Memory> {
    put_line(
        to,
        b"unit ",
        b"",
        if unit.is_empty() { b"crate" } else { unit },
    )?;
    let known = known_of(to, alloc, unit, index, calls)?;
    let members = members(unit, index, &known)?;
    for place in members.as_slice() {
        put_place(to, b"has ", place)?;
    }
    Ok(())
}

// Asks for the calls of one function after the other, as `wanted` wants them, from none on.
fn known_of(
    to: &mut Bytes,
    alloc: Global,
    unit: &[u8],
    index: &Index,
    calls: &Calls,
) -> Result<Calls, Memory> {
    let mut known = List::new(alloc);
    for _ in index.items.as_slice() {
        match wanted(unit, index, &known)? {
            None => return Ok(known),
            Some(place) => {
                put_place(to, b"asks ", &place)?;
                tell(&mut known, place, calls)?;
            }
        }
    }
    Ok(known)
}

fn tell(known: &mut Calls, place: Place, calls: &Calls) -> Result<(), Memory> {
    for (caller, called) in calls.as_slice() {
        if *caller == place {
            return known.push((place, called.copy()?));
        }
    }
    drop(place);
    Ok(())
}

fn put_place(to: &mut Bytes, word: &[u8], place: &Place) -> Result<(), Memory> {
    put_line(to, word, place.module.as_slice(), place.name.as_slice())
}

fn put_line(to: &mut Bytes, word: &[u8], module: &[u8], name: &[u8]) -> Result<(), Memory> {
    to.append(word)?;
    if !module.is_empty() {
        to.append(module)?;
        to.append(b"::")?;
    }
    to.append(name)?;
    to.append(b"\n")
}
