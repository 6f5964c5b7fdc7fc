//! The words of a row. A dash stands for what is empty, bytes are in hexadecimal, and numbers of a list have commas between.

use inc_base::{Bytes, List, Memory};
use std::alloc::Global;

/// The word at a position, empty past the end, and where it is a dash.
pub fn word<'a>(words: &[&'a str], at: usize) -> &'a str {
    match words.get(at) {
        Some(word) => { if *word == "-" { "" } else { *word } }
        None => "",
    }
}

pub fn text(alloc: Global, words: &[&str], at: usize) -> Result<Bytes, Memory> {
    Bytes::of(alloc, word(words, at).as_bytes())
}

/// The bytes of a word, none where it isn't hexadecimal.
pub fn bytes(alloc: Global, words: &[&str], at: usize) -> Result<Bytes, Memory> {
    match hex::decode(alloc, word(words, at)) {
        Ok(bytes) => Bytes::of(alloc, bytes.as_slice()),
        Err(_) => Ok(Bytes::new(alloc)),
    }
}

pub fn numbers(alloc: Global, words: &[&str], at: usize) -> Result<List<u32>, Memory> {
    let mut numbers = List::new(alloc);
    for number in word(words, at).split(',') {
        if let Ok(number) = number.parse::<u32>() {
            numbers.push(number)?;
        }
    }
    Ok(numbers)
}

/// Bytes as they are printed.
pub fn printed(alloc: Global, bytes: &[u8]) -> Result<String, Memory> {
    Ok(hex::encode(alloc, bytes)?)
}
