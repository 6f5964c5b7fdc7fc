//! The times of a whole reading: lexed and parsed, and the tree given back.

use crate::clock::least;
use crate::text::{Piece, Shape, text_of};
use crate::{LARGE, SMALL};
use rs_lex::{end_of, lex};
use rs_parse::parse;
use std::alloc::Global;
use std::io;
use std::io::Write;
use std::time::CpuClock;

pub const SHAPES: [Shape; 10] = [
    Shape {
        name: "nothing",
        head: "",
        piece: Piece::Same(" "),
        tail: "",
    },
    Shape {
        name: "functions",
        head: "",
        piece: Piece::Numbered(
            "fn f",
            "(a: i64, b: bool) -> i64 {\n    let mut c = a * 2;\n    while b { c = c - 1; }\n    m::g(c)\n}\n",
        ),
        tail: "",
    },
    Shape {
        name: "small items",
        head: "",
        piece: Piece::Numbered(
            "const c",
            ": i64 = 1 + 1 + 1 + 1 + 1 + 1 + 1 + 1 + 1 + 1 + 1 + 1 + 1 + 1 + 1 + 1 + 1 + 1 + 1 + 1 + 1 + 1 + 1 + 1 + 1 + 1 + 1 + 1 + 1 + 1 + 1 + 1 + 1 + 1 + 1 + 1 + 1 + 1 + 1 + 1 + 1 + 1 + 1 + 1 + 1 + 1 + 1 + 1 + 1 + 1 + 1 + 1 + 1 + 1 + 1 + 1 + 1 + 1 + 1 + 1;\n",
        ),
        tail: "",
    },
    Shape {
        name: "one line",
        head: "",
        piece: Piece::Numbered(
            "fn f",
            "(a: i64, b: bool) -> i64 { let mut c = a * 2; while b { c = c - 1; } m::g(c) } ",
        ),
        tail: "",
    },
    Shape {
        name: "a chain of else if",
        head: "fn main() { if x {}",
        piece: Piece::Same(" else if x {}"),
        tail: " }",
    },
    Shape {
        name: "a module an item",
        head: "",
        piece: Piece::Numbered("mod m", " { pub const a: i64 = 1; }\n"),
        tail: "",
    },
    Shape {
        name: "parentheses",
        head: "",
        piece: Piece::Numbered(
            "const c",
            ": i64 = ((((((((((((((((((((((((((((((((((((((((((((((((((((((((((((((((1))))))))))))))))))))))))))))))))))))))))))))))))))))))))))))))));\n",
        ),
        tail: "",
    },
    Shape {
        name: "blocks",
        head: "",
        piece: Piece::Numbered(
            "fn f",
            "() { if a { if a { if a { if a { if a { if a { if a { if a { if a { if a { if a { if a { if a { if a { if a { if a { if a { if a { if a { if a { if a { if a { if a { if a { if a { if a { if a { if a { if a { if a { if a { if a { a = 1; } } } } } } } } } } } } } } } } } } } } } } } } } } } } } } } } }\n",
        ),
        tail: "",
    },
    Shape {
        name: "long names",
        head: "",
        piece: Piece::Numbered(
            "const a_name_of_some_sixty_bytes_and_a_number_at_its_end_are_in_",
            ": i64 = another_name_of_sixty_bytes_that_has_no_number_at_all_at_end;\n",
        ),
        tail: "",
    },
    Shape {
        name: "a text cut off",
        head: "",
        piece: Piece::Numbered(
            "fn f",
            "(a: i64, b: bool) -> i64 {\n    let mut c = a * 2;\n    while b { c = c - 1; }\n    m::g(c)\n}\n",
        ),
        tail: "fn main() {\n    let c = 2 *",
    },
];

/// How many tokens stand in the items of the text's tree; none where it has a fault.
fn count(alloc: Global, text: &[u8]) -> usize {
    let Ok(tokens) = lex(alloc, text) else {
        return 0;
    };
    let Ok(end) = end_of(text) else {
        return 0;
    };
    match parse(alloc, tokens.as_slice(), end) {
        Ok(tree) => {
            let mut count = 0_usize;
            for placed in tree.items.as_slice() {
                count = count.saturating_add(placed.item.tokens.len());
            }
            count
        }
        Err(_) => 0,
    }
}

/// Prints the tokens of a small and of a large text of that shape, and the times.
pub fn measure<R: Print + Eprint + CpuClock>(
    rt: &R,
    alloc: Global,
    shape: &Shape,
    runs: u32,
) -> io::Result<()> {
    let small = text_of(alloc, shape, SMALL)?;
    let large = text_of(alloc, shape, LARGE)?;
    let (few, short) = least(rt, runs, || count(alloc, small.as_bytes()))?;
    let (many, long) = least(rt, runs, || count(alloc, large.as_bytes()))?;
    let name = shape.name;
    println!(rt; "reading {name}: {few} {many}")?;
    let percent = long.saturating_mul(100) / short.max(1);
    eprintln!(rt; "reading {name}: {short} and {long} microseconds, {percent} percent")?;
    Ok(())
}

/// Prints the text of 1 MiB of that shape.
pub fn print(rt: &HostRuntime, shape: &Shape) -> io::Result<()> {
    let text = text_of(rt.alloc(), shape, LARGE)?;
    io::writer(rt).write_all(text.as_bytes())
}

/// Reads the text of 1 MiB of that shape once.
pub fn read(rt: &HostRuntime, shape: &Shape) -> io::Result<()> {
    let text = text_of(rt.alloc(), shape, LARGE)?;
    let tokens = count(rt.alloc(), text.as_bytes());
    println!(rt; "{tokens}")
}
