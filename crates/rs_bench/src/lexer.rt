//! The lexer's times.

use crate::clock::least;
use crate::text::{Piece, Shape, text_of};
use crate::{LARGE, SMALL};
use rs_lex::lex;
use std::alloc::Global;
use std::io;
use std::time::CpuClock;

pub const SHAPES: [Shape; 6] = [
    Shape {
        name: "items",
        head: "",
        piece: Piece::Same("fn _ab(9)<=x //\n"),
        tail: "",
    },
    Shape {
        name: "one number",
        head: "1",
        piece: Piece::Same("_"),
        tail: "",
    },
    Shape {
        name: "one identifier, too long",
        head: "a",
        piece: Piece::Same("x"),
        tail: "",
    },
    Shape {
        name: "one comment",
        head: "//",
        piece: Piece::Same(" "),
        tail: "",
    },
    Shape {
        name: "signs",
        head: "",
        piece: Piece::Same("<"),
        tail: "",
    },
    Shape {
        name: "blanks",
        head: "",
        piece: Piece::Same("\n"),
        tail: "",
    },
];

/// How many tokens the text has; none where it has a fault.
fn count(alloc: Global, text: &[u8]) -> usize {
    match lex(alloc, text) {
        Ok(tokens) => tokens.len(),
        Err(_) => 0,
    }
}

/// Prints the tokens of a small and of a large text of that shape, and the times.
pub fn measure<R: Print + Eprint + CpuClock>(
    rt: &R,
    alloc: Global,
    shape: &Shape,
    runs: u32,
) -> io::Result<()> {
    let small = text_of(alloc, shape, SMALL)?;
    let large = text_of(alloc, shape, LARGE)?;
    let (few, short) = least(rt, runs, || count(alloc, small.as_bytes()))?;
    let (many, long) = least(rt, runs, || count(alloc, large.as_bytes()))?;
    let name = shape.name;
    println!(rt; "{name}: {few} {many}")?;
    let percent = long.saturating_mul(100) / short.max(1);
    eprintln!(rt; "{name}: {short} and {long} microseconds, {percent} percent")?;
    Ok(())
}
