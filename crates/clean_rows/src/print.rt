//! How builds, limits and bytes are printed.

use inc_base::{Bytes, Compiler, Memory, Meter};
use itoa::Buffer;
use rs_queries::{Built, Limit, clean, compile, over_limit};
use std::alloc::Global;

/// The clean build; then how many units were emitted, and the file of each object with its bytes.
pub fn put_build(
    alloc: Global,
    to: &mut Bytes,
    text: &[u8],
    compiler: Compiler,
) -> Result<(), Memory> {
    put_clean(alloc, to, text, compiler)?;
    let mut meter = Meter::new();
    let compiled = compile(alloc, text, compiler, &mut meter)?;
    put_count(to, b"emitted ", meter.count())?;
    match &compiled.built {
        None => Ok(()),
        Some(built) => put_objects(to, built),
    }
}

/// The diagnostics, the number of units, and the image where there is one.
pub fn put_clean(
    alloc: Global,
    to: &mut Bytes,
    text: &[u8],
    compiler: Compiler,
) -> Result<(), Memory> {
    let build = clean(alloc, text, compiler)?;
    to.append(build.diags.as_slice())?;
    put_count(to, b"units ", u64::from(build.units))?;
    match &build.image {
        None => Ok(()),
        Some(image) => put_image(to, image.as_slice()),
    }
}

/// The first limit that a text passes.
pub fn put_limit(alloc: Global, to: &mut Bytes, text: &[u8]) -> Result<(), Memory> {
    match over_limit(alloc, text)? {
        None => to.append(b"no limit\n"),
        Some(Limit::Text) => to.append(b"limit text\n"),
        Some(Limit::Modules) => to.append(b"limit modules\n"),
        Some(Limit::Items) => to.append(b"limit items\n"),
    }
}

pub fn put_image(to: &mut Bytes, image: &[u8]) -> Result<(), Memory> {
    to.append(b"image ")?;
    put_hex(to, image)?;
    to.append(b"\n")
}

fn put_objects(to: &mut Bytes, built: &Built) -> Result<(), Memory> {
    for (unit, bytes) in built.objects.as_slice() {
        to.append(b"u-")?;
        to.append(unit.as_slice())?;
        to.append(b".o ")?;
        put_hex(to, bytes.as_slice())?;
        to.append(b"\n")?;
    }
    Ok(())
}

fn put_count(to: &mut Bytes, before: &[u8], count: u64) -> Result<(), Memory> {
    let mut digits = Buffer::new();
    to.append(before)?;
    to.append(digits.format(count).as_bytes())?;
    to.append(b"\n")
}

fn put_hex(to: &mut Bytes, bytes: &[u8]) -> Result<(), Memory> {
    for byte in bytes {
        to.append(&[digit(*byte >> 4), digit(*byte & 15)])?;
    }
    Ok(())
}

fn digit(value: u8) -> u8 {
    if value < 10 {
        b'0'.wrapping_add(value)
    } else {
        b'a'.wrapping_add(value.wrapping_sub(10))
    }
}
