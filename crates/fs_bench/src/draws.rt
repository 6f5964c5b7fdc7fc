//! Draws whose moment and first random part stay the same.

use crate::SURE;
use inc_fs::{Fs, Op, Reply};
use std::alloc::Global;
use std::io;
use std::rt::Runtime;
use std::time::{Duration, Instant};

fn random_of(reply: &Reply) -> u32 {
    match reply {
        Reply::Drawn(_, random) => *random,
        _ => 0,
    }
}

/// The random part that is drawn; 0 where there is no memory.
fn draw(fs: &mut Fs) -> u32 {
    match fs.apply(0, &Op::Draw, SURE) {
        Ok(reply) => {
            let random = random_of(&reply);
            drop(reply);
            random
        }
        Err(_) => 0,
    }
}

/// The random part of the last of so many draws in a new directory.
fn last_of(alloc: Global, count: u32) -> u32 {
    let mut fs = Fs::new(alloc);
    let mut last = 0;
    for _ in 0..count {
        last = draw(&mut fs);
    }
    last
}

/// The least time of five runs.
fn least<R: Runtime>(rt: &R, alloc: Global, count: u32) -> io::Result<Duration> {
    let mut least = Duration::MAX;
    for _ in 0..5 {
        let start = Instant::now(rt)?;
        let _last = last_of(alloc, count);
        least = least.min(start.elapsed(rt)?);
    }
    Ok(least)
}

/// Prints the last random part, and how long a draw took.
pub fn measure<R: Runtime>(rt: &R, alloc: Global, count: u32) -> io::Result<()> {
    println!(rt; "{count} draws: {}", last_of(alloc, count))?;
    let each = least(rt, alloc, count)?.as_nanos() / u128::from(count.max(1));
    eprintln!(rt; "{count} draws: {each} nanoseconds each")?;
    Ok(())
}
