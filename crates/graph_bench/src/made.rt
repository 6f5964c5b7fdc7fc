//! Graphs and values that are made up.

ghost use Rattle.std.specs.Prelude.{◌≡◌, IfOk};

use inc_base::{Bytes, Compiler, List, Memory, Name};
use inc_graph::{Cache, Graph, Node, Query};
use inc_wire::{Header, print_of, put_number, put_text};
use std::alloc::Global;

/// The header of crate `k`.
pub fn header(alloc: Global) -> Result<Header, Memory>
    ensures { IfOk result (λ h. h.format ≡ 1) }
{
    match Name::of(alloc, b"k")? {
        Some(krate) => Ok(Header {
            format: 1,
            compiler: Compiler {
                version: 1,
                level: 1,
            },
            krate,
        }),
        None => Err(Memory),
    }
}

/// A name of a letter and a number of eight digits.
fn numbered(alloc: Global, number: u32) -> Result<Bytes, Memory> {
    let text = format!(in alloc; "f{number:08}")?;
    Bytes::of(alloc, text.as_bytes())
}

/// A node of kind 10 about this module.
fn unit(module: Bytes, value: &Bytes) -> Node {
    let alloc = module.allocator();
    Node {
        query: Query {
            kind: 10,
            module,
            name: Bytes::new(alloc),
        },
        print: print_of(value.as_slice()),
        reads: List::new(alloc),
    }
}

/// A node of another kind about this name, whose value is the name.
fn node(kind: u8, name: Bytes, reads: List<u32>) -> Node {
    let print = print_of(name.as_slice());
    Node {
        query: Query {
            kind,
            module: Bytes::new(name.allocator()),
            name,
        },
        print,
        reads,
    }
}

/// An object of no function, whose unit's text has so many bytes.
fn object(alloc: Global, len: usize) -> Result<Bytes, Memory> {
    let filled = Vec::from_elem(alloc, b'x', len)?;
    let text = Bytes::of(alloc, filled.as_slice())?;
    let mut bytes = Bytes::new(alloc);
    put_number(&mut bytes, 4, 0x494e_434f)?;
    put_number(&mut bytes, 2, 1)?;
    put_text(&mut bytes, text.as_slice())?;
    put_number(&mut bytes, 4, 0)?;
    Ok(bytes)
}

/// The ten positions from one on, fewer where that many aren't there.
fn ten_from(alloc: Global, first: u32, count: u32) -> Result<List<u32>, Memory> {
    let mut reads = List::new(alloc);
    for step in 0..10u32 {
        let at = u64::from(first) + u64::from(step);
        if at < u64::from(count) {
            reads.push(at as u32)?;
        }
    }
    Ok(reads)
}

/// A graph of so many nodes, a third of them of kind 2 and the others of kind 5 with ten reads each.
pub fn graph(alloc: Global, count: u32) -> Result<Graph, Memory> {
    let mut nodes = List::new(alloc);
    let items = count / 3;
    for number in 0..items {
        nodes.push(node(2, numbered(alloc, number)?, List::new(alloc)))?;
    }
    for number in items..count {
        let first = number % items.max(1);
        let reads = ten_from(alloc, first, items)?;
        nodes.push(node(5, numbered(alloc, number)?, reads))?;
    }
    Ok(nodes)
}

/// A graph of 256 units, whose objects have about so many bytes each.
pub fn units(alloc: Global, len: usize) -> Result<(Graph, Cache), Memory> {
    let mut nodes = List::new(alloc);
    let mut values = List::new(alloc);
    for number in 0..256u32 {
        let value = object(alloc, len)?;
        nodes.push(unit(numbered(alloc, number)?, &value))?;
        values.push((number, value))?;
    }
    Ok((nodes, values))
}
