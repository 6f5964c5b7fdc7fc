//! Times the diagnostics of texts of 256 KiB and of 1 MiB (docs/PERFORMANCE.md, "Diagnostics").
//!
//! It prints how many lines are said of each text, and to standard error the processor time of one run, with the word `times`
//! the least of ten. With `text` and a name it prints that text of 1 MiB, so that other compilers can be timed on it. Open `shape` first.
#![tactic(auto)]

mod measure;
mod shape;

use shape::{LARGE, SHAPES, Shape};
use std::io::Write;
use std::{env, io};

fn main(rt: HostRuntime) -> io::Result<()> {
    let alloc = rt.alloc();
    let mut words = Vec::new(alloc);
    for word in env::args(&rt)?.skip(1) {
        words.push(word)?;
    }
    match words.as_slice() {
        [] => run_all(&rt, 1),
        [word] if word.as_str() == "times" => run_all(&rt, 10),
        [word, name] if word.as_str() == "text" => print_text(&rt, name.as_str()),
        _ => Err(io::Error::other("no such words")),
    }
}

fn run_all(rt: &HostRuntime, runs: u32) -> io::Result<()> {
    for shape in SHAPES {
        measure::measure(rt, rt.alloc(), shape, runs)?;
    }
    Ok(())
}

fn print_text(rt: &HostRuntime, name: &str) -> io::Result<()> {
    for shape in SHAPES {
        if shape.name() == name {
            let text = shape.text(rt.alloc(), LARGE)?;
            io::writer(rt).write_all(text.as_bytes())?;
        }
    }
    Ok(())
}
