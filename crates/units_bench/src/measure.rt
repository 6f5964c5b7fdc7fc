//! How much processor time the members of units take.

use crate::shape::{LARGE, Program, SMALL, Shape};
use std::alloc::Global;
use std::io;
use std::time::{CpuClock, Duration};

/// How many members, none where there is no memory, and the least processor time of so many runs in microseconds.
fn least(
    rt: &impl CpuClock,
    alloc: Global,
    shape: Shape,
    program: &Program,
    runs: u32,
) -> io::Result<(usize, u128)> {
    let mut least = Duration::MAX;
    let mut members = 0;
    for _ in 0..runs {
        let start = rt.thread_cpu_time()?;
        members = shape.count(alloc, program).unwrap_or(0);
        least = least.min(rt.thread_cpu_time()?.saturating_sub(start));
    }
    Ok((members, least.as_micros()))
}

/// Prints how many members there are in the small and in the large index of that shape, and how long each took.
pub fn measure<R: Print + Eprint + CpuClock>(
    rt: &R,
    alloc: Global,
    shape: Shape,
    runs: u32,
) -> io::Result<()> {
    let small = shape.program(alloc, SMALL).map_err(out_of_memory)?;
    let large = shape.program(alloc, LARGE).map_err(out_of_memory)?;
    let name = shape.name();
    let (few, short) = least(rt, alloc, shape, &small, runs)?;
    let (many, long) = least(rt, alloc, shape, &large, runs)?;
    println!(rt; "{name}: {few} {many}")?;
    let percent = long.saturating_mul(100) / short.max(1);
    eprintln!(rt; "{name}: {short} and {long} microseconds, {percent} percent")?;
    Ok(())
}

fn out_of_memory(_: inc_base::Memory) -> io::Error {
    io::Error::from(io::ErrorKind::OutOfMemory)
}
