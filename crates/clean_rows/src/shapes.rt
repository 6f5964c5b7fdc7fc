//! Texts with so many modules, items, statements or bytes.

use inc_base::{Bytes, Memory};
use itoa::Buffer;
use std::alloc::Global;

/// So many modules without items, and the text.
pub fn with_modules(alloc: Global, count: u32, text: &[u8]) -> Result<Bytes, Memory> {
    let mut to = Bytes::new(alloc);
    for number in 0..count {
        put_numbered(&mut to, b"mod m", number, b" { }\n")?;
    }
    to.append(text)?;
    Ok(to)
}

/// So many functions, and the text.
pub fn with_items(alloc: Global, count: u32, text: &[u8]) -> Result<Bytes, Memory> {
    let mut to = Bytes::new(alloc);
    for number in 0..count {
        put_numbered(&mut to, b"fn _f", number, b"() { }\n")?;
    }
    to.append(text)?;
    Ok(to)
}

/// A function with so many variables, and the text.
pub fn with_lets(alloc: Global, count: u32, text: &[u8]) -> Result<Bytes, Memory> {
    with_statements(alloc, b"let _a = 1;", count, text)
}

/// A function with so many loops, each of which has two labels, and the text.
pub fn with_loops(alloc: Global, count: u32, text: &[u8]) -> Result<Bytes, Memory> {
    with_statements(alloc, b"while true { }", count, text)
}

/// The text, and behind it a comment, so that both have so many bytes.
pub fn with_bytes(alloc: Global, count: u32, text: &[u8]) -> Result<Bytes, Memory> {
    let mut to = Bytes::of(alloc, text)?;
    to.append(b"//")?;
    for _ in 0..count {
        if to.len() >= count as usize {
            return Ok(to);
        }
        to.push(b'x')?;
    }
    Ok(to)
}

fn with_statements(
    alloc: Global,
    statement: &[u8],
    count: u32,
    text: &[u8],
) -> Result<Bytes, Memory> {
    let mut to = Bytes::of(alloc, b"fn _f() {")?;
    for _ in 0..count {
        to.append(statement)?;
    }
    to.append(b"}\n")?;
    to.append(text)?;
    Ok(to)
}

fn put_numbered(to: &mut Bytes, before: &[u8], number: u32, after: &[u8]) -> Result<(), Memory> {
    let mut digits = Buffer::new();
    to.append(before)?;
    to.append(digits.format(number).as_bytes())?;
    to.append(after)
}
