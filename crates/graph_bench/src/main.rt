//! Times graphs and the files of sessions (docs/PERFORMANCE.md, "Graphs and saved files").
//!
//! Standard output gets what was made, standard error how long it took, as the least of three runs. Open `src/made.rt`
//! first.
#![tactic(auto)]

mod graphs;
mod made;
mod saved;

use std::io;

fn main(rt: HostRuntime) -> io::Result<()> {
    let alloc = rt.alloc();
    for count in [4_500, 45_000] {
        graphs::measure(&rt, alloc, count)?;
    }
    for size in [1, 10, 60] {
        saved::measure(&rt, alloc, size)?;
    }
    Ok(())
}
