//! The graph's file of a session, by the wanted header.

ghost use Rattle.std.specs.Prelude.{◌≡◌, Some, IfOk};
ghost use Rattle.std.specs.Option.{option_copied};
ghost use Rattle.inc_graph.specs.Forms.{IsFileHeader};
ghost use Rattle.inc_products.specs.Fronts.{BeginsWith, HasFront, IsFront, IsFrontOf};

use inc_base::{Bytes, Memory};
use inc_graph::{FILE_FORMAT, Graph, decode, put_file_header};
use inc_wire::{Header, take_header};
use std::alloc::Global;

/// What the graph's file of a session is (docs/FORMATS.md, "The dependency graph").
#[derive(Debug, Drop)]
pub enum Front {
    /// These nodes behind the wanted header.
    Graph(Graph),
    /// It begins with the header of another compiler or another crate.
    Other,
    /// It is missing, begins with no header, or begins with the wanted one and isn't in its grammar.
    Damaged,
}

/// What the graph's file is, by the wanted header: its nodes, that it is of another compiler or another crate, or that it
/// is damaged. `Memory` where there is none for the nodes. (docs/FORMATS.md, "The dependency graph")
pub fn read_front(alloc: Global, want: &Header, found: Option<&Bytes>) -> Result<Front, Memory>
    requires { want.now.format ≡ 1 }
    ensures { IfOk result (IsFront want.now (option_copied found.entry)) }
{
    match found {
        Some(bytes) => read_graph(alloc, want, bytes.as_slice()),
        None => Ok(Front::Damaged),
    }
}

fn read_graph(alloc: Global, want: &Header, bytes: &[u8]) -> Result<Front, Memory>
    requires { want.now.format ≡ 1 }
    ensures { IfOk result (IsFront want.now (Some bytes.now)) }
{
    let Some((header, _)) = take_header(alloc, bytes)? else {
        return Ok(Front::Damaged);
    };
    let format = header.format;
    drop(header);
    if format != FILE_FORMAT {
        return Ok(Front::Damaged);
    }
    if begins_with(alloc, want, bytes)? {
        return read_nodes(alloc, bytes);
    }
    Ok(Front::Other)
}

/// Whether the bytes begin with this header.
pub(crate) fn begins_with(alloc: Global, want: &Header, bytes: &[u8]) -> Result<bool, Memory>
    requires { want.now.format ≡ 1 }
    ensures is { IfOk result (BeginsWith want.now bytes.now) }
    ensures header { IfOk result (λ begins. IsFileHeader want.now) }
{
    let mut front = Bytes::new(alloc);
    put_file_header(&mut front, want)?;
    Ok(has_front(bytes, front.as_slice()))
}

fn has_front(bytes: &[u8], front: &[u8]) -> bool
    ensures { HasFront front.now bytes.now result }
{
    match bytes.strip_prefix(front) {
        Some(_rest) => true,
        None => false,
    }
}

fn read_nodes(alloc: Global, bytes: &[u8]) -> Result<Front, Memory>
    ensures { IfOk result (IsFrontOf bytes.now) }
{
    match decode(alloc, bytes) {
        Ok(Some((header, nodes))) => {
            drop(header);
            Ok(Front::Graph(nodes))
        }
        Ok(None) => Ok(Front::Damaged),
        Err(refused) => Err(refused),
    }
}
