//! Graphs and kept values as they are read, and as they are printed.

ghost use Rattle.std.specs.Prelude.{◌≡◌, IfOk, IfSome};

use crate::words::{bytes, numbers, text, word};
use inc_base::{Bytes, Compiler, Copied, List, Memory, Name};
use inc_graph::{Cache, Graph, Node, Query, decode, decode_cache};
use inc_wire::{Header, print_of};
use std::alloc::Global;
use std::fmt::Write;

/// The header of crate `k`, by version 1 at level 0, or at level 1 where another is named.
pub fn header(alloc: Global, level: u8) -> Result<Option<Header>, Memory>
    ensures { IfOk result (λ found. IfSome found (λ h. h.format ≡ 1)) }
{
    match Name::of(alloc, b"k")? {
        Some(krate) => Ok(Some(Header {
            format: 1,
            compiler: Compiler {
                version: 1,
                level: if level == 0 { 0 } else { 1 },
            },
            krate,
        })),
        None => Ok(None),
    }
}

/// The node of these words: its kind, module, name, reads and value, from the second on.
pub fn node(alloc: Global, words: &[&str]) -> Result<Node, Memory> {
    let kind = match word(words, 1).parse::<u8>() {
        Ok(kind) => kind,
        Err(_) => 0,
    };
    let module = text(alloc, words, 2)?;
    let name = text(alloc, words, 3)?;
    let reads = numbers(alloc, words, 4)?;
    let value = bytes(alloc, words, 5)?;
    let print = print_of(value.as_slice());
    Ok(Node {
        query: Query { kind, module, name },
        print,
        reads,
    })
}

/// What bytes are as a graph's file: its crate, and the reads of each node, or that they are none.
pub fn told_graph(alloc: Global, bytes: &[u8]) -> Result<String, Memory> {
    match decode(alloc, bytes)? {
        Some((header, nodes)) => {
            let told = told_nodes(alloc, &header, &nodes);
            drop(header);
            drop(nodes);
            told
        }
        None => Ok(String::from_str(alloc, "no graph")?),
    }
}

fn told_nodes(alloc: Global, header: &Header, nodes: &Graph) -> Result<String, Memory> {
    let count = nodes.len();
    let level = header.compiler.level;
    let mut told = format!(in alloc; "{count} nodes at level {level}, reads")?;
    for node in nodes.as_slice() {
        push_reads(&mut told, node)?;
    }
    Ok(told)
}

fn push_reads(told: &mut String, node: &Node) -> Result<(), Memory> {
    told.push_str(" [")?;
    let mut first = true;
    for read in node.reads.as_slice() {
        if !first {
            told.push_str(",")?;
        }
        first = false;
        let number = format!(in *told.allocator(); "{read}")?;
        told.push_str(number.as_str())?;
    }
    told.push_str("]")?;
    Ok(())
}

/// What bytes are as a file of kept values: at which positions they stand, or that they are none.
pub fn told_cache(alloc: Global, bytes: &[u8]) -> Result<String, Memory> {
    match decode_cache(alloc, bytes)? {
        Some((header, values)) => {
            drop(header);
            let told = told_values(alloc, &values);
            drop(values);
            told
        }
        None => Ok(String::from_str(alloc, "no cache")?),
    }
}

/// At which positions values stand.
pub fn told_values(alloc: Global, values: &Cache) -> Result<String, Memory> {
    let mut told = String::from_str(alloc, "values at")?;
    for value in values.as_slice() {
        let at = value.0;
        let number = format!(in alloc; " {at}")?;
        told.push_str(number.as_str())?;
    }
    Ok(told)
}
