//! A text, read, resolved and lowered.

use crate::print::put_form;
use inc_base::{Bytes, Copied, List, Memory};
use rs_const::{Entry, const_values};
use rs_lower::lower;
use rs_names::{Names, index, resolve_in};
use rs_text::read_text;
use rs_tree::{Body, Const, Crate, Found, Index, Item, Place, Placed, Sig, Typ};
use std::alloc::Global;

/// The forms of the functions of a text at a level, in its order, or `fault` where the text has no tree.
pub fn lowered(alloc: Global, text: &[u8], level: u8) -> Result<Bytes, Memory> {
    match read_text(alloc, text) {
        Ok(tree) => forms_of(alloc, &tree, level),
        Err(fault) => {
            drop(fault);
            Bytes::of(alloc, b"fault\n")
        }
    }
}

fn forms_of(alloc: Global, tree: &Crate, level: u8) -> Result<Bytes, Memory> {
    let index = index(tree)?;
    let known = known_of(alloc, tree, &index)?;
    let sigs = sigs_of(alloc, &known, &index)?;
    let consts = consts_of(alloc, &known)?;
    let mut to = Bytes::new(alloc);
    for (place, item, found) in known.as_slice() {
        put_function(&mut to, place, item, found, &sigs, &consts, level)?;
    }
    Ok(to)
}

fn put_function(
    to: &mut Bytes,
    place: &Place,
    item: &Item,
    found: &List<Found>,
    sigs: &List<(Place, Sig)>,
    consts: &List<(Place, Const)>,
    level: u8,
) -> Result<(), Memory> {
    match &item.body {
        Body::Const { .. } => Ok(()),
        Body::Func { .. } => {
            let form = lower(item, found, sigs, consts, level)?;
            put_form(to, place, &form)
        }
    }
}

// Each item, and what its paths lead to.
fn known_of(alloc: Global, tree: &Crate, index: &Index) -> Result<List<Entry>, Memory> {
    let names = Names::new(index)?;
    let mut known = List::new(alloc);
    for placed in tree.items.as_slice() {
        let found = resolve_in(alloc, &placed.item, placed.module.as_slice(), &names)?;
        known.push((place_of(placed)?, placed.item.copy()?, found))?;
    }
    Ok(known)
}

fn place_of(placed: &Placed) -> Result<Place, Memory> {
    Ok(Place {
        module: placed.module.copy()?,
        name: placed.item.name.copy()?,
    })
}

fn sigs_of(
    alloc: Global,
    known: &List<Entry>,
    index: &Index,
) -> Result<List<(Place, Sig)>, Memory> {
    let mut sigs = List::new(alloc);
    for (i, (place, item, _)) in known.as_slice().iter().enumerate() {
        let kind = kind_at(index, i);
        sigs.push((place.copy()?, sig_of(alloc, kind, item)?))?;
    }
    Ok(sigs)
}

fn kind_at(index: &Index, at: usize) -> u8 {
    match index.items.as_slice().get(at) {
        None => 0,
        Some(item) => item.kind,
    }
}

// Lowering looks at the kind and the type alone.
fn sig_of(alloc: Global, kind: u8, item: &Item) -> Result<Sig, Memory> {
    Ok(Sig {
        kind,
        public: item.public,
        params: List::new(alloc),
        gives: typ_of(item),
    })
}

fn typ_of(item: &Item) -> Typ {
    match &item.body {
        Body::Const { typ, .. } => *typ,
        Body::Func { gives, .. } => *gives,
    }
}

// The values of the constants; functions have none.
fn consts_of(alloc: Global, known: &List<Entry>) -> Result<List<(Place, Const)>, Memory> {
    let entries = constants_of(alloc, known)?;
    let values = const_values(alloc, entries.as_slice())?;
    let mut consts = List::new(alloc);
    for (i, (place, _, _)) in entries.as_slice().iter().enumerate() {
        consts.push((place.copy()?, value_at(&values, i)))?;
    }
    Ok(consts)
}

fn value_at(values: &[Const], at: usize) -> Const {
    match values.get(at) {
        None => Const::Bad,
        Some(value) => *value,
    }
}

fn constants_of(alloc: Global, known: &List<Entry>) -> Result<List<Entry>, Memory> {
    let mut entries = List::new(alloc);
    for entry in known.as_slice() {
        push_constant(&mut entries, entry)?;
    }
    Ok(entries)
}

fn push_constant(to: &mut List<Entry>, entry: &Entry) -> Result<(), Memory> {
    match &entry.1.body {
        Body::Const { .. } => to.push((entry.0.copy()?, entry.1.copy()?, entry.2.copy()?)),
        Body::Func { .. } => Ok(()),
    }
}
