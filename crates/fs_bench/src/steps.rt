//! Listing one crate directory beside others, and reading a file.

use crate::SURE;
use inc_base::{Bytes, Label, Memory};
use inc_fs::{Fs, Op, Reply};
use std::alloc::Global;
use std::io;
use std::rt::Runtime;
use std::time::{Duration, Instant};

/// A label of a letter and a number.
fn numbered(alloc: Global, letter: &str, number: u32) -> Result<Label, Memory> {
    let mut text = String::new(alloc);
    write!(text, "{letter}{number}")?;
    Label::of(alloc, text.as_bytes())?.ok_or(Memory)
}

/// An entry of a crate directory.
fn path(alloc: Global, krate: &str, entry: u32) -> Result<(Label, Label), Memory> {
    Ok((numbered(alloc, krate, 0)?, numbered(alloc, "e", entry)?))
}

fn make_lock(alloc: Global, krate: &str, number: u32) -> Result<Op, Memory> {
    let (krate, entry) = path(alloc, krate, number)?;
    Ok(Op::MakeLock { krate, entry })
}

fn make_dir(alloc: Global) -> Result<Op, Memory> {
    let (krate, entry) = path(alloc, "k", 0)?;
    Ok(Op::MakeDir { krate, entry })
}

fn create(alloc: Global) -> Result<Op, Memory> {
    let file = numbered(alloc, "f", 0)?;
    let (krate, entry) = path(alloc, "k", 0)?;
    Ok(Op::Create { krate, entry, file })
}

fn append(alloc: Global) -> Result<Op, Memory> {
    let piece = Bytes::of(alloc, &[b'x'; 4096])?;
    let file = numbered(alloc, "f", 0)?;
    let (krate, entry) = path(alloc, "k", 0)?;
    Ok(Op::Append {
        krate,
        entry,
        file,
        piece,
    })
}

fn read(alloc: Global) -> Result<Op, Memory> {
    let file = numbered(alloc, "f", 0)?;
    let (krate, entry) = path(alloc, "k", 0)?;
    Ok(Op::Read { krate, entry, file })
}

fn look(alloc: Global) -> Result<Op, Memory> {
    let krate = numbered(alloc, "k", 0)?;
    Ok(Op::Look { krate })
}

fn size_of(reply: &Reply) -> usize {
    match reply {
        Reply::Names(names) => names.len(),
        Reply::Bytes(bytes) => bytes.len(),
        _ => 0,
    }
}

/// How many names or bytes a step answers.
fn count(fs: &mut Fs, step: &Op) -> usize {
    match fs.apply(0, step, SURE) {
        Ok(reply) => {
            let size = size_of(&reply);
            drop(reply);
            size
        }
        Err(_) => 0,
    }
}

/// Makes so many lock files in a crate directory.
fn fill(fs: &mut Fs, alloc: Global, krate: &str, files: u32) -> Result<(), Memory> {
    for number in 0..files {
        let step = make_lock(alloc, krate, number)?;
        count(fs, &step);
        drop(step);
    }
    Ok(())
}

/// Makes 100 entries of one crate between so many of two others.
fn fill_between(fs: &mut Fs, alloc: Global, others: u32) -> Result<(), Memory> {
    fill(fs, alloc, "a", others / 2)?;
    fill(fs, alloc, "k", 100)?;
    fill(fs, alloc, "z", others / 2)
}

/// Makes a step so many times.
fn repeat(fs: &mut Fs, step: Op, times: u32) {
    for _ in 0..times {
        count(fs, &step);
    }
    drop(step);
}

/// Makes a file of so many MiB.
fn make_file(fs: &mut Fs, alloc: Global, size: u32) -> Result<(), Memory> {
    repeat(fs, make_dir(alloc)?, 1);
    repeat(fs, create(alloc)?, 1);
    repeat(fs, append(alloc)?, size.saturating_mul(256));
    Ok(())
}

/// The least time of twenty runs of a step.
fn least<R: Runtime>(rt: &R, fs: &mut Fs, step: &Op) -> io::Result<Duration> {
    let mut least = Duration::MAX;
    for _ in 0..20 {
        let start = Instant::now(rt)?;
        let _count = count(fs, step);
        least = least.min(start.elapsed(rt)?);
    }
    Ok(least)
}

/// Prints how many names or bytes a step answers, and how long it took.
fn print<R: Runtime>(rt: &R, what: &str, size: u32, fs: &mut Fs, step: &Op) -> io::Result<()> {
    println!(rt; "{what} {size}: {}", count(fs, step))?;
    let took = least(rt, fs, step)?.as_nanos();
    eprintln!(rt; "{what} {size}: {took} nanoseconds")?;
    Ok(())
}

fn measure<R: Runtime>(
    rt: &R,
    what: &str,
    size: u32,
    fs: &mut Fs,
    step: Result<Op, Memory>,
) -> io::Result<()> {
    match step {
        Ok(step) => {
            let printed = print(rt, what, size, fs, &step);
            drop(step);
            printed
        }
        Err(_) => Ok(()),
    }
}

/// A listing of 100 entries beside so many of other crates.
pub fn measure_look<R: Runtime>(rt: &R, alloc: Global, others: u32) -> io::Result<()> {
    let mut fs = Fs::new(alloc);
    let filled = fill_between(&mut fs, alloc, others);
    measure(
        rt,
        "look beside",
        others,
        &mut fs,
        filled.and_then(|()| look(alloc)),
    )
}

/// A read of a file of so many MiB.
pub fn measure_read<R: Runtime>(rt: &R, alloc: Global, size: u32) -> io::Result<()> {
    let mut fs = Fs::new(alloc);
    let made = make_file(&mut fs, alloc, size);
    measure(
        rt,
        "read of MiB",
        size,
        &mut fs,
        made.and_then(|()| read(alloc)),
    )
}
