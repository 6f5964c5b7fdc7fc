//! What is asked of a text, by the first word of its heading.

use crate::links::put_link;
use crate::print::{put_build, put_clean, put_limit};
use crate::shapes::{with_bytes, with_items, with_lets, with_loops, with_modules};
use inc_base::{Bytes, Compiler, Memory, VERSION};
use std::alloc::Global;
use text_rows::Answer;

/// `level` asks for the clean build and the objects at a level; `modules` and `bytes` for the first limit that the text passes with so
/// many of these beside it, and for its clean build at level 1; `items`, `lets` and `loops` for the limit alone; `link` for the image of
/// no objects, or of two that both have a function `main`.
#[derive(Drop)]
pub struct Asked;

impl Answer for Asked {
    fn answer(&self, alloc: Global, heading: &[u8], text: &[u8]) -> Result<Bytes, Memory> {
        let mut to = Bytes::new(alloc);
        put_answer(alloc, &mut to, heading, text)?;
        Ok(to)
    }
}

fn put_answer(alloc: Global, to: &mut Bytes, heading: &[u8], text: &[u8]) -> Result<(), Memory> {
    let count = count_in(heading);
    if heading.starts_with(b"level") {
        return put_build(alloc, to, text, compiler_of(count == 0));
    }
    if heading.starts_with(b"link") {
        return put_link(alloc, to, count);
    }
    let shaped = shaped(alloc, heading, count, text)?;
    put_limit(alloc, to, shaped.as_slice())?;
    if heading.starts_with(b"modules") || heading.starts_with(b"bytes") {
        return put_clean(alloc, to, shaped.as_slice(), compiler_of(false));
    }
    Ok(())
}

fn shaped(alloc: Global, heading: &[u8], count: u32, text: &[u8]) -> Result<Bytes, Memory> {
    if heading.starts_with(b"modules") {
        return with_modules(alloc, count, text);
    }
    if heading.starts_with(b"items") {
        return with_items(alloc, count, text);
    }
    if heading.starts_with(b"lets") {
        return with_lets(alloc, count, text);
    }
    if heading.starts_with(b"loops") {
        return with_loops(alloc, count, text);
    }
    with_bytes(alloc, count, text)
}

fn compiler_of(none: bool) -> Compiler {
    if none {
        Compiler {
            version: VERSION,
            level: 0,
        }
    } else {
        Compiler {
            version: VERSION,
            level: 1,
        }
    }
}

// The number that the digits of a heading write.
fn count_in(heading: &[u8]) -> u32 {
    let mut count: u32 = 0;
    for byte in heading {
        if byte.is_ascii_digit() {
            let digit = u32::from(byte.wrapping_sub(b'0'));
            count = count.wrapping_mul(10).wrapping_add(digit);
        }
    }
    count
}
