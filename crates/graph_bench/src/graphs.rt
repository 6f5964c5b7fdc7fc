//! The bytes of a graph, written and read.

use crate::made::{graph, header};
use inc_base::{Bytes, Memory};
use inc_graph::{Graph, decode, encode, is_graph};
use inc_wire::Header;
use std::alloc::Global;
use std::io;
use std::rt::Runtime;
use std::time::{Duration, Instant};

/// The bytes of a graph, none where its nodes are no graph's or there is no memory.
fn bytes_of(alloc: Global, nodes: &Graph) -> Bytes {
    match written(alloc, nodes) {
        Ok(bytes) => bytes,
        Err(_) => Bytes::new(alloc),
    }
}

fn written(alloc: Global, nodes: &Graph) -> Result<Bytes, Memory> {
    if !is_graph(alloc, nodes)? {
        return Ok(Bytes::new(alloc));
    }
    let header: Header = header(alloc)?;
    encode(&header, nodes)
}

/// How many nodes the bytes are, 0 where they are no graph.
fn count_of(alloc: Global, bytes: &[u8]) -> usize {
    match decode(alloc, bytes) {
        Ok(Some((header, nodes))) => {
            drop(header);
            let count = nodes.len();
            drop(nodes);
            count
        }
        Ok(None) => 0,
        Err(_) => 0,
    }
}

fn least_read<R: Runtime>(rt: &R, alloc: Global, bytes: &[u8]) -> io::Result<Duration> {
    let mut least = Duration::MAX;
    for _ in 0..3 {
        let start = Instant::now(rt)?;
        let _count = count_of(alloc, bytes);
        least = least.min(start.elapsed(rt)?);
    }
    Ok(least)
}

fn least_written<R: Runtime>(rt: &R, alloc: Global, nodes: &Graph) -> io::Result<Duration> {
    let mut least = Duration::MAX;
    for _ in 0..3 {
        let start = Instant::now(rt)?;
        drop(bytes_of(alloc, nodes));
        least = least.min(start.elapsed(rt)?);
    }
    Ok(least)
}

fn nodes_of(alloc: Global, count: u32) -> Graph {
    match graph(alloc, count) {
        Ok(nodes) => nodes,
        Err(_) => Graph::new(alloc),
    }
}

/// Prints how many nodes and bytes a graph has, and how long testing and writing it, and reading it, took.
pub fn measure<R: Runtime>(rt: &R, alloc: Global, count: u32) -> io::Result<()> {
    let nodes = nodes_of(alloc, count);
    let bytes = bytes_of(alloc, &nodes);
    let read = count_of(alloc, bytes.as_slice());
    let len = bytes.len();
    println!(rt; "{count} nodes: {read} read of {len} bytes")?;
    let write = least_written(rt, alloc, &nodes)?.as_micros();
    let read = least_read(rt, alloc, bytes.as_slice())?.as_micros();
    eprintln!(rt; "{count} nodes: tested and written in {write} us, read in {read} us")?;
    Ok(())
}
