//! Prints what is built of texts, shown by rows.
//!
//! Standard input has the texts, each under a heading that says what is asked; `stdout` beside it has what must come, written from
//! docs/FORMATS.md and docs/LANGUAGE.md and not from the program. `rs_queries` and what it stands on are below. Open `stdin` first,
//! then `asked`.
#![tactic(auto)]

mod asked;
mod links;
mod print;
mod shapes;

use asked::Asked;
use inc_base::Memory;
use std::io;
use std::io::{BufRead, BufReader, ErrorKind, Write};
use text_rows::Rows;

fn main(rt: HostRuntime) -> io::Result<()> {
    let alloc = rt.alloc();
    let mut rows = Rows::new(alloc, Asked);
    for line in BufReader::new(alloc, rt.reader())?.split(alloc, b'\n') {
        rows.read(&line?).map_err(out_of_memory)?;
    }
    let answers = rows.finish().map_err(out_of_memory)?;
    io::writer(&rt).write_all(answers.as_slice())
}

fn out_of_memory(_: Memory) -> io::Error {
    io::Error::from(ErrorKind::OutOfMemory)
}
