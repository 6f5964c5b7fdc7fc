//! Processor times, so that other work on the machine matters little.

use std::io;
use std::time::{CpuClock, Duration};

/// What it answers, and the least processor time of so many runs in microseconds.
pub fn least<F: FnMut() -> usize>(
    rt: &impl CpuClock,
    runs: u32,
    mut f: F,
) -> io::Result<(usize, u128)>
    requires { F.IsAlwaysCallable f }
{
    let mut least = Duration::MAX;
    let mut answer = 0;
    for _ in 0..runs {
        let start = rt.thread_cpu_time()?;
        answer = f();
        least = least.min(rt.thread_cpu_time()?.saturating_sub(start));
    }
    Ok((answer, least.as_micros()))
}
