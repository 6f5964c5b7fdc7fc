//! Texts with so many modules, items, statements or bytes.

use crate::case::Shape;
use inc_base::{Bytes, Memory};
use itoa::Buffer;
use std::alloc::Global;

/// The text in this shape.
pub fn shaped(alloc: Global, shape: Shape, text: &[u8]) -> Result<Bytes, Memory> {
    match shape {
        Shape::Plain => Bytes::of(alloc, text),
        Shape::Modules(count) => with_lines(alloc, b"mod m", count, b" { }\n", text),
        Shape::Items(count) => with_lines(alloc, b"fn _f", count, b"() { }\n", text),
        Shape::Lets(count) => with_lets(alloc, count, text),
        Shape::Bytes(count) => with_bytes(alloc, count, text),
    }
}

/// So many lines with their numbers in them, and the text.
fn with_lines(
    alloc: Global,
    before: &[u8],
    count: u32,
    after: &[u8],
    text: &[u8],
) -> Result<Bytes, Memory> {
    let mut to = Bytes::new(alloc);
    for number in 0..count {
        put_numbered(&mut to, before, number, after)?;
    }
    to.append(text)?;
    Ok(to)
}

fn put_numbered(to: &mut Bytes, before: &[u8], number: u32, after: &[u8]) -> Result<(), Memory> {
    let mut digits = Buffer::new();
    to.append(before)?;
    to.append(digits.format(number).as_bytes())?;
    to.append(after)
}

/// A function with so many variables, and the text.
fn with_lets(alloc: Global, count: u32, text: &[u8]) -> Result<Bytes, Memory> {
    let mut to = Bytes::of(alloc, b"fn _f() {")?;
    for _ in 0..count {
        to.append(b"let _a = 1;")?;
    }
    to.append(b"}\n")?;
    to.append(text)?;
    Ok(to)
}

/// The text, and behind it a comment, so that both have so many bytes.
fn with_bytes(alloc: Global, count: u32, text: &[u8]) -> Result<Bytes, Memory> {
    let mut to = Bytes::of(alloc, text)?;
    to.append(b"//")?;
    for _ in 0..count {
        if to.len() >= count as usize {
            return Ok(to);
        }
        to.push(b'x')?;
    }
    Ok(to)
}
