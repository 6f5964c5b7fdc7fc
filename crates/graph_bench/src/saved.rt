//! Sets of files, made and compared.

use crate::made::{header, units};
use inc_base::Memory;
use inc_graph::{Cache, Graph, has_order, is_graph};
use inc_products::{FileSet, Start, files_of, plan, read_files};
use inc_wire::print_of;
use std::alloc::Global;
use std::io;
use std::rt::Runtime;
use std::time::{Duration, Instant};

fn made(alloc: Global, nodes: &Graph, values: &Cache) -> Result<FileSet, Memory> {
    if !is_graph(alloc, nodes)? || !has_order(values) {
        return Ok(FileSet::new(alloc));
    }
    let header = header(alloc)?;
    files_of(&header, nodes, values)
}

/// The files of a graph and its values, none where there is no memory.
fn files(alloc: Global, nodes: &Graph, values: &Cache) -> FileSet {
    match made(alloc, nodes, values) {
        Ok(files) => files,
        Err(_) => FileSet::new(alloc),
    }
}

/// How many changes turn one set into another.
fn changes(old: &FileSet, wanted: &FileSet) -> usize {
    match plan(old, wanted) {
        Ok(changes) => {
            let count = changes.len();
            drop(changes);
            count
        }
        Err(_) => 0,
    }
}

fn least_made<R: Runtime>(
    rt: &R,
    alloc: Global,
    nodes: &Graph,
    values: &Cache,
) -> io::Result<Duration> {
    let mut least = Duration::MAX;
    for _ in 0..3 {
        let start = Instant::now(rt)?;
        drop(files(alloc, nodes, values));
        least = least.min(start.elapsed(rt)?);
    }
    Ok(least)
}

/// How many values a set is read as, 0 where it is read as nothing whole.
fn count_of(alloc: Global, files: FileSet) -> usize {
    match read(alloc, files) {
        Ok(Start::Whole(nodes, values)) => {
            drop(nodes);
            let count = values.len();
            drop(values);
            count
        }
        Ok(Start::OtherCompiler) => 0,
        Ok(Start::Damaged(name)) => {
            drop(name);
            0
        }
        Err(_) => 0,
    }
}

fn read(alloc: Global, files: FileSet) -> Result<Start, Memory> {
    match header(alloc) {
        Ok(header) => {
            let start = read_files(&header, files);
            drop(header);
            start
        }
        Err(refused) => {
            drop(files);
            Err(refused)
        }
    }
}

fn least_read<R: Runtime>(
    rt: &R,
    alloc: Global,
    nodes: &Graph,
    values: &Cache,
) -> io::Result<Duration> {
    let mut least = Duration::MAX;
    for _ in 0..3 {
        let set = files(alloc, nodes, values);
        let start = Instant::now(rt)?;
        let _count = count_of(alloc, set);
        least = least.min(start.elapsed(rt)?);
    }
    Ok(least)
}

fn least_plan<R: Runtime>(rt: &R, old: &FileSet, wanted: &FileSet) -> io::Result<Duration> {
    let mut least = Duration::MAX;
    for _ in 0..3 {
        let start = Instant::now(rt)?;
        let _changes = changes(old, wanted);
        least = least.min(start.elapsed(rt)?);
    }
    Ok(least)
}

fn print_all(values: &Cache) -> u8 {
    let mut all = 0;
    for value in values.as_slice() {
        all ^= print_of(value.1.as_slice()).0[0];
    }
    all
}

fn least_print<R: Runtime>(rt: &R, values: &Cache) -> io::Result<Duration> {
    let mut least = Duration::MAX;
    for _ in 0..3 {
        let start = Instant::now(rt)?;
        let _all = print_all(values);
        least = least.min(start.elapsed(rt)?);
    }
    Ok(least)
}

/// Prints how many files there are for 256 units with so many megabytes of objects, how many changes make them and keep
/// them, how many values are read of them, and how long all that took, beside the prints of the objects alone.
pub fn measure<R: Runtime>(rt: &R, alloc: Global, size: u32) -> io::Result<()> {
    match units(alloc, size as usize * 4_096) {
        Ok((nodes, values)) => {
            let told = told(rt, alloc, size, &nodes, &values);
            drop(nodes);
            drop(values);
            told
        }
        Err(_) => {
            println!(rt; "{size} MiB: no memory")?;
            Ok(())
        }
    }
}

fn told<R: Runtime>(
    rt: &R,
    alloc: Global,
    size: u32,
    nodes: &Graph,
    values: &Cache,
) -> io::Result<()> {
    let empty = FileSet::new(alloc);
    let set = files(alloc, nodes, values);
    let count = set.len();
    let all = changes(&empty, &set);
    let none = changes(&set, &set);
    drop(set);
    let read = count_of(alloc, files(alloc, nodes, values));
    println!(rt;
        "{size} MiB: {count} files, {all} changes to make them, {none} to keep them, {read} values read"
    )?;
    let set = files(alloc, nodes, values);
    let made = least_made(rt, alloc, nodes, values)?.as_micros();
    let fresh = least_plan(rt, &empty, &set)?.as_micros();
    let same = least_plan(rt, &set, &set)?.as_micros();
    drop(set);
    let read = least_read(rt, alloc, nodes, values)?.as_micros();
    let print = least_print(rt, values)?.as_micros();
    eprintln!(rt;
        "{size} MiB: made in {made} us, read in {read} us, planned afresh in {fresh} us, against itself in {same} us, prints in {print} us"
    )?;
    Ok(())
}
