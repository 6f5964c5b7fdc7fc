//! How what was done is printed.

use crate::asked::compiler;
use crate::left::{Done, Left};
use inc_base::{Bytes, Memory, Name};
use inc_products::files_of;
use inc_wire::Header;
use itoa::Buffer;
use std::alloc::Global;

/// The diagnostics, what was emitted, what the engine did, and whether it is the clean build.
pub fn put_done(to: &mut Bytes, done: &Done) -> Result<(), Memory> {
    to.append(done.diags.as_slice())?;
    put_number(to, b"emitted ", done.emitted)?;
    put_number(to, b" of ", u64::from(done.units))?;
    put_number(to, b"\nran ", u64::from(done.work.ran))?;
    put_number(to, b", green ", u64::from(done.work.green))?;
    put_number(to, b", red ", u64::from(done.work.red))?;
    if done.is_clean {
        to.append(b"\nthe clean build\n")
    } else {
        to.append(b"\nNOT the clean build\n")
    }
}

/// Of each node, in order, its kind and the places of its reads.
pub fn put_reads(to: &mut Bytes, left: &Left) -> Result<(), Memory> {
    to.append(b"reads")?;
    for node in left.graph.as_slice() {
        put_number(to, b" ", u64::from(node.query.kind))?;
        to.append(b"[")?;
        put_places(to, node.reads.as_slice())?;
        to.append(b"]")?;
    }
    to.append(b"\n")
}

fn put_places(to: &mut Bytes, places: &[u32]) -> Result<(), Memory> {
    for (i, place) in places.iter().enumerate() {
        let before: &[u8] = if i == 0 { b"" } else { b"," };
        put_number(to, before, u64::from(*place))?;
    }
    Ok(())
}

/// Each file of a build of a crate `k`, with how many bytes it has.
pub fn put_files(alloc: Global, to: &mut Bytes, left: &Left) -> Result<(), Memory> {
    let Some(krate) = Name::of(alloc, b"k")? else {
        return Ok(());
    };
    let header = Header {
        format: 1,
        compiler: compiler(),
        krate,
    };
    let files = files_of(&header, &left.graph, &left.cache)?;
    for (name, bytes) in files.pairs() {
        to.append(name.bytes())?;
        put_number(to, b" ", bytes.len() as u64)?;
        to.append(b"\n")?;
    }
    Ok(())
}

pub fn put_number(to: &mut Bytes, before: &[u8], number: u64) -> Result<(), Memory> {
    let mut digits = Buffer::new();
    to.append(before)?;
    to.append(digits.format(number).as_bytes())
}
