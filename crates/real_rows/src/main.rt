//! Runs rows of steps on a folder of the system, which its one word names, and prints the reply to each: what the real
//! directory does to files, shown by examples.
//!
//! Standard input has the rows; `stdout` beside it has what must come, each reply read against docs/PROTOCOL.md. The
//! script `tests/planted` gives it others, on folders in which it planted what no build makes. `inc_real` and
//! what it stands on are below. Open `row` first, for how a step is written.
#![tactic(auto)]

mod reply;
mod row;
mod session;

use inc_base::Memory;
use reply::shown;
use row::op_of;
use session::Session;
use std::alloc::Global;
use std::io::ErrorKind;
use std::{env, io};

fn main(rt: HostRuntime) -> io::Result<()> {
    let alloc = rt.alloc();
    let mut root = String::new(alloc);
    for word in env::args(&rt)?.skip(1) {
        root = word;
    }
    let (Ok(mut first), Ok(mut second)) = (
        Session::enter(rt, root.as_str()),
        Session::enter(rt, root.as_str()),
    ) else {
        return Err(io::Error::from(ErrorKind::OutOfMemory));
    };
    for line in rt.lines(alloc) {
        let line = line?;
        let told = match line.as_str().split_once(' ') {
            Some(("0", row)) => answered(alloc, &mut first, row),
            Some(("1", row)) => answered(alloc, &mut second, row),
            _ => Ok(None),
        };
        match told {
            Ok(Some(reply)) => println!(rt; "{line}: {reply}")?,
            Ok(None) => println!(rt; "{line}")?,
            Err(Memory) => println!(rt; "{line}: no memory")?,
        }
    }
    Ok(())
}

/// The reply to the step of a row, as it is printed. `None` where the row is no step.
fn answered(alloc: Global, session: &mut Session, row: &str) -> Result<Option<String>, Memory> {
    match op_of(alloc, row)? {
        Some(op) => {
            let reply = session.step(op)?;
            Ok(Some(shown(alloc, &reply)?))
        }
        None => Ok(None),
    }
}
