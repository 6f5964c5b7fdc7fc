//! Times the directory in memory (docs/PERFORMANCE.md, "The directory in memory").
//!
//! Standard output gets what the steps answered, standard error how long they took. Open `src/draws.rt` and
//! `src/steps.rt` first.
#![tactic(auto)]

mod draws;
mod steps;

use inc_fs::Chance;
use std::io;

/// No step fails, and each draw begins at the same moment and random part.
const SURE: Chance = Chance {
    moment: 1,
    random: 0,
    fails: None,
};

fn main(rt: HostRuntime) -> io::Result<()> {
    let alloc = rt.alloc();
    for count in [1_000, 16_000, 64_000] {
        draws::measure(&rt, alloc, count)?;
    }
    for others in [0, 1_000, 10_000] {
        steps::measure_look(&rt, alloc, others)?;
    }
    for size in [1, 16] {
        steps::measure_read(&rt, alloc, size)?;
    }
    Ok(())
}
