//! Prints the units of texts and their members, shown by rows.
//!
//! Standard input has the texts, each under a heading; `stdout` beside it has what must come, written from docs/FORMATS.md
//! ("Units") and not from the program. `rs_units` is below, with what reads the texts, resolves their paths and tells what they
//! call. Open `stdin` first, then `listing`.
#![tactic(auto)]

mod listing;

use inc_base::Memory;
use listing::Listing;
use std::io;
use std::io::{BufRead, BufReader, ErrorKind, Write};
use text_rows::Rows;

fn main(rt: HostRuntime) -> io::Result<()> {
    let alloc = rt.alloc();
    let mut rows = Rows::new(alloc, Listing);
    for line in BufReader::new(alloc, rt.reader())?.split(alloc, b'\n') {
        rows.read(&line?).map_err(out_of_memory)?;
    }
    let answers = rows.finish().map_err(out_of_memory)?;
    io::writer(&rt).write_all(answers.as_slice())
}

fn out_of_memory(_: Memory) -> io::Error {
    io::Error::from(ErrorKind::OutOfMemory)
}
