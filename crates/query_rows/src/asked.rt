//! What is asked of the texts under a heading.

use crate::drawn::put_drawn;
use crate::left::Left;
use crate::print::{put_done, put_files, put_reads};
use inc_base::{Bytes, Compiler, Memory, VERSION};
use std::alloc::Global;
use text_rows::Answer;

/// The texts under a heading have a line `then` between each two, and each is built over the one before. `files` asks for the graph's reads and
/// for how many bytes each file has, too, and `drawn` for builds of drawn texts.
#[derive(Drop)]
pub struct Asked;

impl Answer for Asked {
    fn answer(&self, alloc: Global, heading: &[u8], text: &[u8]) -> Result<Bytes, Memory> {
        let mut to = Bytes::new(alloc);
        if heading.starts_with(b"drawn") {
            put_drawn(alloc, &mut to, text)?;
        } else {
            put_chain(alloc, &mut to, heading, text)?;
        }
        Ok(to)
    }
}

fn put_chain(alloc: Global, to: &mut Bytes, heading: &[u8], text: &[u8]) -> Result<(), Memory> {
    let mut left = Left::nothing(alloc);
    let mut rest = Some(text);
    for _ in 0..text.len() {
        let Some(texts) = rest else {
            break;
        };
        let (first, more) = first_of(texts);
        left = put_next(alloc, to, heading, first, left)?;
        rest = more;
    }
    Ok(())
}

fn put_next(
    alloc: Global,
    to: &mut Bytes,
    heading: &[u8],
    text: &[u8],
    left: Left,
) -> Result<Left, Memory> {
    let (left, done) = left.build(alloc, text, compiler())?;
    put_done(to, &done)?;
    if heading.starts_with(b"files") {
        put_reads(to, &left)?;
        put_files(alloc, to, &left)?;
    }
    Ok(left)
}

/// The compiler of all rows.
pub fn compiler() -> Compiler {
    Compiler {
        version: VERSION,
        level: 1,
    }
}

// The text before the first line `then`, and those behind it, if there is one.
fn first_of(texts: &[u8]) -> (&[u8], Option<&[u8]>) {
    for at in 0..texts.len() {
        if let Some(more) = texts[at..].strip_prefix(b"\nthen\n") {
            return (&texts[..at], Some(more));
        }
    }
    (texts, None)
}
