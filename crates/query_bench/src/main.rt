//! Times builds by queries: from nothing, over the same text, and over the text with one number changed (docs/PERFORMANCE.md, "A build by queries").
//!
//! It prints how many objects were made of texts of few items, and to standard error the processor times. With `times` and a number it builds
//! texts of so many items and of four times as many; with `chain` it builds the texts on standard input, which have a line `then` between each two, each over
//! the one before. Open `shape` first.
#![tactic(auto)]

mod left;
mod measure;
mod shape;

use inc_base::Memory;
use measure::{chain, measure};
use shape::SHAPES;
use std::io::{ErrorKind, Read};
use std::{env, io};

/// How many items the texts have that every run builds.
const FEW: u32 = 16;

fn main(rt: HostRuntime) -> io::Result<()> {
    let alloc = rt.alloc();
    let mut words = Vec::new(alloc);
    for word in env::args(&rt)?.skip(1) {
        words.push(word)?;
    }
    match words.as_slice() {
        [] => run_all(&rt, FEW),
        [word, many] if word.as_str() == "times" => run_all(&rt, number_in(many.as_bytes())),
        [word] if word.as_str() == "chain" => run_chain(&rt),
        _ => Err(io::Error::other("no such words")),
    }
}

fn run_all(rt: &HostRuntime, many: u32) -> io::Result<()> {
    for shape in SHAPES {
        measure(rt, rt.alloc(), shape, many)?;
        measure(rt, rt.alloc(), shape, many.saturating_mul(4))?;
    }
    Ok(())
}

fn run_chain(rt: &HostRuntime) -> io::Result<()> {
    let mut texts = Vec::new(rt.alloc());
    rt.reader().read_to_end(&mut texts)?;
    chain(rt, rt.alloc(), &texts)
}

// The number that digits spell.
fn number_in(digits: &[u8]) -> u32 {
    let mut number: u32 = 0;
    for digit in digits {
        number = number
            .wrapping_mul(10)
            .wrapping_add(u32::from(digit.wrapping_sub(b'0')));
    }
    number
}

pub fn out_of_memory(_: Memory) -> io::Error {
    io::Error::from(ErrorKind::OutOfMemory)
}
