//! The bytes of nodes and of graphs.

ghost use Rattle.std.specs.Prelude.{◌≡◌, All, IfOk};
ghost use Rattle.inc_wire.specs.Readings.{IsReadAs, Takes};
ghost use Rattle.inc_graph.specs.Forms.{FitsFile, FitsGraph, FitsNode, FitsPrint, HasRanges, file_form, graph_form, node_form, node_of, print_form};
ghost use Rattle.inc_graph.specs.Graphs.{HasQuery, IsGraph};
ghost use Rattle.inc_graph.specs.Kept.{IsKept};

use crate::file::{put_file_header, read_file};
use crate::node::{Graph, Node};
use crate::order::has_order;
use inc_base::{Bytes, List, Memory};
use inc_query::Query;
use inc_wire::{
    Byte, Cursor, Field, Header, Print, Read, put_all, put_number, put_text, take_list,
};
use std::alloc::Global;

/// The bytes of a graph's file, `dep-graph.bin`. `Memory` where there is none for them.
/// (docs/FORMATS.md, "The dependency graph")
pub fn encode(h: &Header, g: &Graph) -> Result<Bytes, Memory>
    requires header { h.now.format ≡ 1 }
    requires graph { IsGraph g.now }
    ensures bytes { IfOk result (λ bytes. bytes ≡ file_form graph_form (h.now, g.now)) }
    ensures range { IfOk result (λ bytes. FitsFile FitsGraph (h.now, g.now)) }
{
    let mut bytes = Bytes::new(g.allocator());
    put_file_header(&mut bytes, h)?;
    put_all::<NodeForm>(&mut bytes, g.as_slice())?;
    Ok(bytes)
}

/// The header and the graph that these bytes are, from the first to the last, or None exactly where they are no
/// `dep-graph.bin`. `Memory` where there is none for the graph. (docs/FORMATS.md, "The dependency graph")
pub fn decode(alloc: Global, b: &[u8]) -> Result<Option<(Header, Graph)>, Memory>
    ensures { IfOk result (IsReadAs (FitsFile FitsGraph) (file_form graph_form) b.now) }
{
    read_file::<GraphForm>(alloc, b)
}

/// The form of a graph: the list of its nodes.
pub struct GraphForm;

impl Read for GraphForm {
    type Value = Graph;

    ghost form = { graph_form };

    ghost fits = { FitsGraph };

    fn take(alloc: Global, from: &mut Cursor) -> Result<Option<Graph>, Memory> {
        let Some(nodes) = take_list::<NodeForm>(alloc, from)? else {
            return Ok(None);
        };
        keep_graph(alloc, nodes)
    }
}

/// The nodes, if they are those of a graph.
fn keep_graph(alloc: Global, nodes: Graph) -> Result<Option<Graph>, Memory>
    ensures { IfOk result (λ kept. All HasQuery nodes → IsKept IsGraph nodes kept) }
{
    match has_order(alloc, &nodes) {
        Ok(true) => Ok(Some(nodes)),
        Ok(false) => {
            drop(nodes);
            Ok(None)
        }
        Err(refused) => {
            drop(nodes);
            Err(refused)
        }
    }
}

/// The form of a node.
pub struct NodeForm;

/// What a node is read as.
type Fields = (Byte, (Bytes, (Bytes, (PrintForm, List<u32>))));

/// The values of those.
type Parts = (u8, (Bytes, (Bytes, (Print, List<u32>))));

impl Read for NodeForm {
    type Value = Node;

    ghost form = { node_form };

    ghost fits = { FitsNode };

    fn take(alloc: Global, from: &mut Cursor) -> Result<Option<Node>, Memory> {
        let Some(node) = take_node(alloc, from)? else {
            return Ok(None);
        };
        Ok(keep_node(node))
    }
}

impl Field for NodeForm {
    type Value = Node;

    ghost form = { node_form };

    ghost fits = { HasRanges };

    fn put(node: &Node, to: &mut Bytes) -> Result<(), Memory> {
        put_number(to, 1, u64::from(node.query.kind))?;
        put_text(to, node.query.module.as_slice())?;
        put_text(to, node.query.name.as_slice())?;
        PrintForm::put(&node.print, to)?;
        put_all::<u32>(to, node.reads.as_slice())
    }
}

/// Takes a node with any query.
fn take_node(alloc: Global, from: &mut Cursor) -> Result<Option<Node>, Memory>
    ensures { IfOk result (Takes HasRanges node_form from.old from.new) }
{
    let Some(parts) = Fields::take(alloc, from)? else {
        return Ok(None);
    };
    Ok(Some(node_of(parts)))
}

fn node_of(parts: Parts) -> Node
    ensures { result ≡ node_of parts }
{
    let (kind, (module, (name, (print, reads)))) = parts;
    Node {
        query: Query { kind, module, name },
        print,
        reads,
    }
}

/// The node, if its query is one of a graph.
fn keep_node(node: Node) -> Option<Node>
    ensures { IsKept HasQuery node result }
{
    if node.query.fits() {
        Some(node)
    } else {
        drop(node);
        None
    }
}

/// The form of a print: its 32 bytes.
pub struct PrintForm;

impl Read for PrintForm {
    type Value = Print;

    ghost form = { print_form };

    ghost fits = { FitsPrint };

    fn take(alloc: Global, from: &mut Cursor) -> Result<Option<Print>, Memory> {
        Ok(take_print(from))
    }
}

impl Field for PrintForm {
    type Value = Print;

    ghost form = { print_form };

    ghost fits = { FitsPrint };

    fn put(print: &Print, to: &mut Bytes) -> Result<(), Memory> {
        to.append(&print.0)
    }
}

fn take_print(from: &mut Cursor) -> Option<Print>
    ensures { Takes FitsPrint print_form from.old from.new result }
{
    let front = from.bytes(32)?;
    match front.as_array::<32>() {
        Some(bytes) => Some(Print(*bytes)),
        None => unreachable!(),
    }
}
