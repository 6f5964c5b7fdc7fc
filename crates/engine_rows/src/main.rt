//! Prints what an engine runs and finds green, on one text after another.
//!
//! Each line of standard input is a text and the names that are asked of it, as words. Its build is over the graph and
//! the cache of the line before. `stdout` beside it has what must come, counted from docs/ARCHITECTURE.md, "How a query
//! runs". `inc_engine` and what it stands on are below. Open `toy` first, which is what is asked.
#![tactic(auto)]

mod rows;
mod toy;

use inc_base::Memory;
use rows::Rows;
use std::io;
use std::io::{BufRead, BufReader, ErrorKind, Write};

fn main(rt: HostRuntime) -> io::Result<()> {
    let alloc = rt.alloc();
    let mut rows = Rows::new(alloc);
    for line in BufReader::new(alloc, rt.reader())?.split(alloc, b'\n') {
        rows.read(&line?).map_err(out_of_memory)?;
    }
    io::writer(&rt).write_all(rows.answers())
}

fn out_of_memory(_: Memory) -> io::Error {
    io::Error::from(ErrorKind::OutOfMemory)
}
