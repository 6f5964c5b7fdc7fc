//! What is asked of a text, by its heading.

use crate::case::Case;
use crate::memory::put_in_memory;
use crate::replayed::put_replayed;
use inc_base::{Bytes, Memory};
use std::alloc::Global;
use std::str;
use text_rows::Answer;

/// A heading is what surrounds a call, a colon and a blank, and the words of the call. Before the colon stand the parts of a `Case`,
/// with a comma and a blank between each two; or `replies` and the words of the replies that the directory gives.
#[derive(Drop)]
pub struct Asked;

impl Answer for Asked {
    fn answer(&self, alloc: Global, heading: &[u8], text: &[u8]) -> Result<Bytes, Memory> {
        match str::from_utf8(heading) {
            Ok(heading) => answer_to(alloc, heading, text),
            Err(_) => Bytes::of(alloc, b"no heading\n"),
        }
    }
}

fn answer_to(alloc: Global, heading: &str, text: &[u8]) -> Result<Bytes, Memory> {
    let Some((what, line)) = heading.split_once(": ") else {
        return Bytes::of(alloc, b"no heading\n");
    };
    let mut words = Vec::new(alloc);
    for word in line.split(' ') {
        words.push(word)?;
    }
    let mut to = Bytes::new(alloc);
    put_answer(alloc, &mut to, what, words.as_slice(), text)?;
    Ok(to)
}

fn put_answer(
    alloc: Global,
    to: &mut Bytes,
    what: &str,
    words: &[&str],
    text: &[u8],
) -> Result<(), Memory> {
    match what.split_once(' ') {
        Some(("replies", replies)) => put_replayed(alloc, to, words, text, replies),
        _ => put_in_memory(alloc, to, words, text, &Case::of(what)),
    }
}
