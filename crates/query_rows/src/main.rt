//! Builds texts by queries, each over the one before, and prints what was done, shown by rows.
//!
//! Standard input has the texts, each under a heading; `stdout` beside it has what must come, counted by hand by docs/FORMATS.md and
//! docs/LANGUAGE.md and not by the program. `rs_build` and what it stands on are below. Open `stdin` first, then `asked`.
#![tactic(auto)]

mod asked;
mod drawn;
mod left;
mod print;

use asked::Asked;
use inc_base::Memory;
use std::io;
use std::io::{BufRead, BufReader, ErrorKind, Write};
use text_rows::Rows;

fn main(rt: HostRuntime) -> io::Result<()> {
    let alloc = rt.alloc();
    let mut rows = Rows::new(alloc, Asked);
    for line in BufReader::new(alloc, rt.reader())?.split(alloc, b'\n') {
        rows.read(&line?).map_err(out_of_memory)?;
    }
    let answers = rows.finish().map_err(out_of_memory)?;
    io::writer(&rt).write_all(answers.as_slice())
}

fn out_of_memory(_: Memory) -> io::Error {
    io::Error::from(ErrorKind::OutOfMemory)
}
