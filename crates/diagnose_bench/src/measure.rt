//! How much processor time the diagnostics of a text take.

use crate::shape::{LARGE, SMALL, Shape};
use rs_queries::diagnose;
use std::alloc::Global;
use std::io;
use std::time::{CpuClock, Duration};

/// How many lines are said of the text; none where there is no memory.
fn count(alloc: Global, text: &[u8]) -> usize {
    match diagnose(alloc, text) {
        Ok(lines) => lines.as_slice().iter().filter(|b| **b == b'\n').count(),
        Err(_) => 0,
    }
}

/// How many lines, and the least processor time of so many runs in microseconds.
fn least(rt: &impl CpuClock, alloc: Global, text: &[u8], runs: u32) -> io::Result<(usize, u128)> {
    let mut least = Duration::MAX;
    let mut lines = 0;
    for _ in 0..runs {
        let start = rt.thread_cpu_time()?;
        lines = count(alloc, text);
        least = least.min(rt.thread_cpu_time()?.saturating_sub(start));
    }
    Ok((lines, least.as_micros()))
}

/// Prints how many lines are said of the small and of the large text of that shape, and how long each took.
pub fn measure<R: Print + Eprint + CpuClock>(
    rt: &R,
    alloc: Global,
    shape: Shape,
    runs: u32,
) -> io::Result<()> {
    let small = shape.text(alloc, SMALL)?;
    let large = shape.text(alloc, LARGE)?;
    let name = shape.name();
    let (few, short) = least(rt, alloc, small.as_bytes(), runs)?;
    let (many, long) = least(rt, alloc, large.as_bytes(), runs)?;
    println!(rt; "{name}: {few} {many}")?;
    let percent = long.saturating_mul(100) / short.max(1);
    eprintln!(rt; "{name}: {short} and {long} microseconds, {percent} percent")?;
    Ok(())
}
