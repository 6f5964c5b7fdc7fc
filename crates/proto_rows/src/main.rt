//! Runs rows of steps on a ground, and prints what comes of each: what a session may do, and what every legal history
//! keeps, shown by examples.
//!
//! Standard input has the rows, a case after the other; `stdout` beside it has what must come, written from
//! docs/PROTOCOL.md and not from the program. `content` is what the sessions are to publish: a table of three jobs.
//! `inc_laws`, `inc_proto` and what they stand on are below. Open `row` first, for how a step is written.
#![tactic(auto)]

mod content;
mod reply;
mod row;
mod run;

use run::Run;
use std::io;

fn main(rt: HostRuntime) -> io::Result<()> {
    let alloc = rt.alloc();
    let mut run = Run::new(alloc);
    for line in rt.lines(alloc) {
        let line = line?;
        match run.told(line.as_str()) {
            Ok(None) => println!(rt; "{line}")?,
            Ok(Some(came)) => println!(rt; "{line}: {came}")?,
            Err(_) => println!(rt; "{line}: no memory")?,
        }
    }
    Ok(())
}
