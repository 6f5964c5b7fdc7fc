//! Times the lexer, the parser and both together on texts of 256 KiB and of 1 MiB (docs/PERFORMANCE.md, "The
//! lexer", "The parser" and "Reading").
//!
//! Standard output gets how many tokens each text has, of the parser's those in the items of its tree. Standard error gets
//! the processor time of one run, with the word `times` the least of ten. With `text` and the name of a text that is read
//! it prints that text of 1 MiB, and with `read` it reads it once, so that other compilers and its memory can be measured.
//! Open `SHAPES` in `src/lexer.rt`, `src/parser.rt` and `src/front.rt` first.
#![tactic(auto)]

mod clock;
mod front;
mod lexer;
mod parser;
mod text;

use std::{env, io};

const SMALL: usize = 262_144;

const LARGE: usize = 1_048_576;

fn main(rt: HostRuntime) -> io::Result<()> {
    let mut words = Vec::new(rt.alloc());
    for word in env::args(&rt)?.skip(1) {
        words.push(word)?;
    }
    match words.as_slice() {
        [] => run_all(&rt, 1),
        [word] if word.as_str() == "times" => run_all(&rt, 10),
        [word, name] if word.as_str() == "text" => print_text(&rt, name.as_str()),
        [word, name] if word.as_str() == "read" => read_once(&rt, name.as_str()),
        _ => Err(io::Error::other("no such words")),
    }
}

fn run_all(rt: &HostRuntime, runs: u32) -> io::Result<()> {
    for shape in &lexer::SHAPES {
        lexer::measure(rt, rt.alloc(), shape, runs)?;
    }
    for shape in &parser::SHAPES {
        parser::measure(rt, rt.alloc(), shape, runs)?;
    }
    for shape in &front::SHAPES {
        front::measure(rt, rt.alloc(), shape, runs)?;
    }
    Ok(())
}

fn print_text(rt: &HostRuntime, name: &str) -> io::Result<()> {
    for shape in &front::SHAPES {
        if shape.name == name {
            front::print(rt, shape)?;
        }
    }
    Ok(())
}

fn read_once(rt: &HostRuntime, name: &str) -> io::Result<()> {
    for shape in &front::SHAPES {
        if shape.name == name {
            front::read(rt, shape)?;
        }
    }
    Ok(())
}
