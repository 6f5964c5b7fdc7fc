//! Prints what commands come to, shown by rows: the status, what `out` and `image` get, how far the meter rises, and what is left
//! in the directory.
//!
//! Standard input has the texts, each under a heading that says which command is run on it, in which surroundings in memory;
//! `stdout` beside it has what must come, written from docs/ARCHITECTURE.md, docs/LANGUAGE.md, docs/FORMATS.md and
//! docs/PROTOCOL.md and not from the program. `inc_cli` and what it stands on are below. Open `stdin` first, then `asked`.
#![tactic(auto)]

mod asked;
mod beside;
mod call;
mod case;
mod entries;
mod memory;
mod narrow;
mod print;
mod replayed;
mod shapes;
mod steps;

use asked::Asked;
use inc_base::Memory;
use std::io;
use std::io::{BufRead, BufReader, ErrorKind, Write};
use text_rows::Rows;

fn main(rt: HostRuntime) -> io::Result<()> {
    let alloc = rt.alloc();
    let mut rows = Rows::new(alloc, Asked);
    for line in BufReader::new(alloc, rt.reader())?.split(alloc, b'\n') {
        rows.read(&line?).map_err(out_of_memory)?;
    }
    let answers = rows.finish().map_err(out_of_memory)?;
    io::writer(&rt).write_all(answers.as_slice())
}

fn out_of_memory(_: Memory) -> io::Error {
    io::Error::from(ErrorKind::OutOfMemory)
}
