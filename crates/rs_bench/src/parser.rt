//! The parser's times, without the lexer's.

use crate::clock::least;
use crate::text::{Piece, Shape, text_of};
use crate::{LARGE, SMALL};
use rs_lex::{end_of, lex};
use rs_parse::parse;
use rs_tree::{At, Token};
use std::alloc::Global;
use std::io;
use std::time::CpuClock;

pub const SHAPES: [Shape; 6] = [
    Shape {
        name: "functions",
        head: "",
        piece: Piece::Numbered(
            "fn f",
            "(a: i64, b: bool) -> i64 {\n    let mut c = a * 2;\n    while b { c = c - 1; }\n    m::g(c)\n}\n",
        ),
        tail: "",
    },
    Shape {
        name: "one sum",
        head: "fn main() { x",
        piece: Piece::Same(" + x"),
        tail: "; }",
    },
    Shape {
        name: "one chain of else if",
        head: "fn main() { if x {}",
        piece: Piece::Same(" else if x {}"),
        tail: " }",
    },
    Shape {
        name: "one list of statements",
        head: "fn main() {",
        piece: Piece::Same("\n    x = 1;"),
        tail: " }",
    },
    Shape {
        name: "one call",
        head: "fn main() { f(1",
        piece: Piece::Same(", 1"),
        tail: "); }",
    },
    Shape {
        name: "names",
        head: "",
        piece: Piece::Numbered("const n", ": i64 = 1;\n"),
        tail: "",
    },
];

/// A text's tokens and its end.
#[derive(Drop)]
struct Lexed<'a> {
    tokens: &'a [Token],
    end: At,
}

/// How many tokens stand in the items of the tree; none where there is a fault.
fn count(alloc: Global, text: &Lexed<'_>) -> usize {
    match parse(alloc, text.tokens, text.end) {
        Ok(tree) => {
            let mut count = 0_usize;
            for placed in tree.items.as_slice() {
                count = count.saturating_add(placed.item.tokens.len());
            }
            count
        }
        Err(_) => 0,
    }
}

/// How many tokens stand in the items of a text of that size, and how many microseconds its parse took.
fn time(
    rt: &impl CpuClock,
    alloc: Global,
    shape: &Shape,
    size: usize,
    runs: u32,
) -> io::Result<(usize, u128)> {
    let text = text_of(alloc, shape, size)?;
    let Ok(end) = end_of(text.as_bytes()) else {
        return Ok((0, 0));
    };
    let Ok(tokens) = lex(alloc, text.as_bytes()) else {
        return Ok((0, 0));
    };
    let lexed = Lexed {
        tokens: tokens.as_slice(),
        end,
    };
    least(rt, runs, || count(alloc, &lexed))
}

/// Prints the tokens of a small and of a large text of that shape, and the times.
pub fn measure<R: Print + Eprint + CpuClock>(
    rt: &R,
    alloc: Global,
    shape: &Shape,
    runs: u32,
) -> io::Result<()> {
    let (few, short) = time(rt, alloc, shape, SMALL, runs)?;
    let (many, long) = time(rt, alloc, shape, LARGE, runs)?;
    let percent = long.saturating_mul(100) / short.max(1);
    let name = shape.name;
    println!(rt; "{name}: {few} {many}")?;
    eprintln!(rt; "{name}: {short} and {long} microseconds, {percent} percent")?;
    Ok(())
}
