//! Shows by rows how graphs, kept values and sets of files are written, read and compared.
//!
//! Standard input has the rows, a command in each line; `stdout` beside it has what must come, written from docs/FORMATS.md
//! and not from the program. `inc_products`, `inc_graph` and what they stand on are below. Open `desk` first, for the
//! commands.
#![tactic(auto)]

mod desk;
mod files;
mod graph;
mod starts;
mod words;

use desk::Desk;
use std::io;

fn main(rt: HostRuntime) -> io::Result<()> {
    let alloc = rt.alloc();
    let mut desk = Desk::new(alloc);
    for line in rt.lines(alloc) {
        let line = line?;
        match desk.told(line.as_str()) {
            Ok(None) => println!(rt; "{line}")?,
            Ok(Some(came)) => println!(rt; "{line}: {came}")?,
            Err(_) => println!(rt; "{line}: no memory")?,
        }
    }
    Ok(())
}
