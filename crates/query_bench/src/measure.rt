//! Processor times of builds, so that other work on the machine matters little.

use crate::left::Left;
use crate::out_of_memory;
use crate::shape::Shape;
use std::alloc::Global;
use std::io;
use std::time::CpuClock;

/// Builds a text of so many items from nothing, again over itself, and with one number changed; prints how many objects the first made, and the times.
pub fn measure<R: Print + Eprint + CpuClock>(
    rt: &R,
    alloc: Global,
    shape: Shape,
    many: u32,
) -> io::Result<()> {
    let text = shape.text(alloc, many, 1)?;
    let edited = shape.text(alloc, many, 2)?;
    let name = shape.name();
    let start = rt.thread_cpu_time()?;
    let (left, emitted, _) = Left::nothing(alloc)
        .build(alloc, text.as_bytes())
        .map_err(out_of_memory)?;
    let first = rt.thread_cpu_time()?;
    let (left, _, again) = left.build(alloc, text.as_bytes()).map_err(out_of_memory)?;
    let second = rt.thread_cpu_time()?;
    let (left, made, changed) = left.build(alloc, edited.as_bytes()).map_err(out_of_memory)?;
    let third = rt.thread_cpu_time()?;
    drop(left);
    println!(rt; "{name}, {many} items: {emitted} objects")?;
    let fresh = first.saturating_sub(start).as_micros();
    let same = second.saturating_sub(first).as_micros();
    let other = third.saturating_sub(second).as_micros();
    let (rerun, redone) = (again.ran, changed.ran);
    eprintln!(rt;
        "{name}, {many} items: {fresh} microseconds from nothing, {same} over itself ({rerun} run), {other} with a number changed ({redone} run, {made} objects)"
    )?;
    Ok(())
}

/// Builds texts, each over the one before.
pub fn chain<R: Print + Eprint + CpuClock>(rt: &R, alloc: Global, texts: &[u8]) -> io::Result<()> {
    let mut left = Left::nothing(alloc);
    let mut rest = Some(texts);
    for _ in 0..texts.len() {
        let Some(more) = rest else {
            break;
        };
        let (text, others) = first_of(more);
        let start = rt.thread_cpu_time()?;
        let (next, emitted, work) = left.build(alloc, text).map_err(out_of_memory)?;
        let end = rt.thread_cpu_time()?;
        left = next;
        rest = others;
        let time = end.saturating_sub(start).as_micros();
        let (ran, green, red) = (work.ran, work.green, work.red);
        println!(rt;
            "{time} microseconds, {emitted} objects, {ran} run, {green} green, {red} red"
        )?;
    }
    drop(left);
    Ok(())
}

// The text before the first line `then`, and those behind it, if there is one.
fn first_of(texts: &[u8]) -> (&[u8], Option<&[u8]>) {
    for at in 0..texts.len() {
        if let Some(more) = texts[at..].strip_prefix(b"\nthen\n") {
            return (&texts[..at], Some(more));
        }
    }
    (texts, None)
}
