//! Prints what is said of texts: the diagnostics of each, shown by rows.
//!
//! Standard input has the texts, each under a heading; `stdout` beside it has what must come, written from docs/LANGUAGE.md
//! and not from the program. `text_rows` cuts it into texts; `rs_queries` and what it stands on are below. Open `stdin` first.
#![tactic(auto)]

use inc_base::{Bytes, Memory};
use rs_queries::diagnose;
use std::alloc::Global;
use std::io;
use std::io::{BufRead, BufReader, ErrorKind, Write};
use text_rows::{Answer, Rows};

/// The diagnostics of each text.
#[derive(Drop)]
struct Diagnostics;

impl Answer for Diagnostics {
    fn answer(&self, alloc: Global, _heading: &[u8], text: &[u8]) -> Result<Bytes, Memory> {
        diagnose(alloc, text)
    }
}

fn main(rt: HostRuntime) -> io::Result<()> {
    let alloc = rt.alloc();
    let mut rows = Rows::new(alloc, Diagnostics);
    for line in BufReader::new(alloc, rt.reader())?.split(alloc, b'\n') {
        rows.read(&line?).map_err(out_of_memory)?;
    }
    let answers = rows.finish().map_err(out_of_memory)?;
    io::writer(&rt).write_all(answers.as_slice())
}

fn out_of_memory(_: Memory) -> io::Error {
    io::Error::from(ErrorKind::OutOfMemory)
}
