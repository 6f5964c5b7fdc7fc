//! Texts made of pieces.

use std::alloc::{AllocError, Global};

/// A piece, some times.
pub type Times<'a> = (&'a str, usize);

/// The pieces, one after the other.
pub fn text_of(alloc: Global, pieces: &[Times<'_>]) -> Result<String, AllocError> {
    let mut text = String::new(alloc);
    for (piece, times) in pieces {
        for _ in 0..*times {
            text.push_str(piece)?;
        }
    }
    Ok(text)
}
