//! The texts that are timed.

use std::alloc::{AllocError, Global};

/// A text: what it begins with, a piece that is repeated, and what it ends with.
pub struct Shape {
    pub name: &'static str,
    pub head: &'static str,
    pub piece: Piece,
    pub tail: &'static str,
}

/// What is repeated. In `Numbered`, the number of the turn stands between the two.
#[derive(Clone, Copy)]
pub enum Piece {
    Same(&'static str),
    Numbered(&'static str, &'static str),
}

fn add(text: &mut String, piece: Piece, number: usize) -> Result<(), AllocError> {
    match piece {
        Piece::Same(same) => text.push_str(same),
        Piece::Numbered(before, after) => {
            text.push_str(before)?;
            write!(text, "{number}")?;
            text.push_str(after)
        }
    }
}

/// A text of that shape: as many pieces as bring it to `size` bytes.
pub fn text_of(alloc: Global, shape: &Shape, size: usize) -> Result<String, AllocError> {
    let mut text = String::new(alloc);
    text.push_str(shape.head)?;
    let most = size.saturating_sub(shape.tail.len());
    for number in 0..most {
        if text.len() >= most {
            break;
        }
        add(&mut text, shape.piece, number)?;
    }
    text.push_str(shape.tail)?;
    Ok(text)
}
