//! Prints how the functions of texts are lowered, shown by rows.
//!
//! Standard input has the texts, each under a heading; `stdout` beside it has what must come, written from docs/FORMATS.md
//! and not from the program. `text_rows` cuts it into texts; `rs_lower` and what it stands on are below, with what reads and
//! resolves the texts and what gives constants their values. Open `stdin` first, then `lowering`.
#![tactic(auto)]

mod lowering;
mod print;

use inc_base::{Bytes, Memory};
use lowering::lowered;
use std::alloc::Global;
use std::io;
use std::io::{BufRead, BufReader, ErrorKind, Write};
use text_rows::{Answer, Rows};

/// The forms of the functions of each text, at the level that its heading begins with.
#[derive(Drop)]
struct Forms;

impl Answer for Forms {
    fn answer(&self, alloc: Global, heading: &[u8], text: &[u8]) -> Result<Bytes, Memory> {
        let level = if heading.starts_with(b"1") { 1 } else { 0 };
        lowered(alloc, text, level)
    }
}

fn main(rt: HostRuntime) -> io::Result<()> {
    let alloc = rt.alloc();
    let mut rows = Rows::new(alloc, Forms);
    for line in BufReader::new(alloc, rt.reader())?.split(alloc, b'\n') {
        rows.read(&line?).map_err(out_of_memory)?;
    }
    let answers = rows.finish().map_err(out_of_memory)?;
    io::writer(&rt).write_all(answers.as_slice())
}

fn out_of_memory(_: Memory) -> io::Error {
    io::Error::from(ErrorKind::OutOfMemory)
}
