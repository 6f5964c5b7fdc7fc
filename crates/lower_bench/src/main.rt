//! Times the lowering of one function in texts of 256 KiB and of 1 MiB (docs/PERFORMANCE.md, "Lowering").
//!
//! It prints how many instructions each has at both levels, and to standard error the processor time of one run, with the word `times`
//! the least of ten. Open `shape` first.
#![tactic(auto)]

mod measure;
mod shape;

use shape::SHAPES;
use std::{env, io};

fn main(rt: HostRuntime) -> io::Result<()> {
    let alloc = rt.alloc();
    let mut words = Vec::new(alloc);
    for word in env::args(&rt)?.skip(1) {
        words.push(word)?;
    }
    match words.as_slice() {
        [] => run_all(&rt, 1),
        [word] if word.as_str() == "times" => run_all(&rt, 10),
        _ => Err(io::Error::other("no such words")),
    }
}

fn run_all(rt: &HostRuntime, runs: u32) -> io::Result<()> {
    for shape in SHAPES {
        measure::measure(rt, rt.alloc(), shape, runs)?;
    }
    Ok(())
}
