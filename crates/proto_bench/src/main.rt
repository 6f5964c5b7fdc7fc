//! Times what a session may do, asked and noted step by step (docs/PERFORMANCE.md, "What a session may do").
//!
//! Standard output gets how many steps were permitted, standard error how long all took. `inc_proto` and what it stands
//! on are below. Open `sessions` first, which has what is asked.
#![tactic(auto)]

mod sessions;
mod steps;

use sessions::{Kind, permitted};
use std::alloc::Global;
use std::io;
use std::rt::Runtime;
use std::time::{Duration, Instant};

fn name_of(kind: Kind) -> &'static str {
    match kind {
        Kind::Appends => "appends",
        Kind::Links => "links",
        Kind::Collects => "names collected",
    }
}

/// Prints how many steps of such a session are permitted, and the least time of three sessions.
fn measure<R: Runtime>(rt: &R, alloc: Global, kind: Kind, count: u32) -> io::Result<()> {
    let what = name_of(kind);
    println!(rt; "{what} {count}: {}", permitted(alloc, kind, count))?;
    let mut least = Duration::MAX;
    for _ in 0..3 {
        let start = Instant::now(rt)?;
        let _permitted = permitted(alloc, kind, count);
        least = least.min(start.elapsed(rt)?);
    }
    eprintln!(rt; "{what} {count}: {} microseconds", least.as_micros())?;
    Ok(())
}

fn main(rt: HostRuntime) -> io::Result<()> {
    let alloc = rt.alloc();
    for count in [25_000, 100_000] {
        measure(&rt, alloc, Kind::Appends, count)?;
    }
    for count in [2_500, 10_000] {
        measure(&rt, alloc, Kind::Links, count)?;
    }
    for count in [250, 1_000] {
        measure(&rt, alloc, Kind::Collects, count)?;
    }
    Ok(())
}
