//! Whether nodes are those of a graph.

ghost use Rattle.std.specs.Prelude.{◌≡◌, ◌↔◌, ℕ, ◌+◌, ◌<◌, ◌≤◌, ◌^◌, ◌&&◌, [], None, All, IsTrue, IfOk, length, slice_index, slice_get, nat_lt, true, false};
ghost use Rattle.std.specs.Option.{option_copied, option_map_or};
ghost use Rattle.inc_graph.specs.Graphs.{HasQuery, IsGraph};
ghost use Rattle.inc_graph.specs.Order.{ascends, are_lower, differ_from, have_reads, is_above, is_node_below};

use crate::node::{Graph, Node};
use inc_base::Memory;
use std::alloc::Global;

/// Whether nodes are those of a graph: each query is one of a graph, queries ascend strictly, and the reads of each node
/// are nodes of lower kinds and differ. It goes over nodes and reads once. `Memory` where there is none for a number
/// per node. (docs/FORMATS.md, "The dependency graph")
pub fn is_graph(alloc: Global, nodes: &Graph) -> Result<bool, Memory>
    ensures { IfOk result (λ is. IsTrue is ↔ IsGraph nodes.now) }
{
    if !have_queries(nodes.as_slice()) {
        return Ok(false);
    }
    has_order(alloc, nodes)
}

/// Whether nodes ascend, and their reads are as they should be.
pub(crate) fn has_order(alloc: Global, nodes: &Graph) -> Result<bool, Memory>
    ensures { IfOk result (λ is. is ≡ (ascends is_node_below None nodes.now && have_reads nodes.now nodes.now)) }
{
    if !ascend(nodes.as_slice()) {
        return Ok(false);
    }
    have_reads(alloc, nodes)
}

fn have_queries(nodes: &[Node]) -> bool
    ensures { IsTrue result ↔ All HasQuery nodes.now }
{
    nodes.iter().all(has_query)
}

fn has_query(node: &Node) -> bool
    ensures { IsTrue result ↔ HasQuery node.now }
{
    node.query.fits()
}

/// Whether nodes ascend strictly by their queries.
fn ascend(nodes: &[Node]) -> bool
    ensures { result ≡ ascends is_node_below None nodes.now }
{
    let mut before: Option<&Node> = None;
    for node in nodes {
        if !is_above(before, node) {
            return false;
        }
        before = Some(node);
    }
    true
}

fn is_above(before: Option<&Node>, node: &Node) -> bool
    ensures { result ≡ is_above is_node_below (option_copied before.entry) node.now }
{
    match before {
        None => true,
        Some(before) => before.query.cmp(&node.query).is_lt(),
    }
}

/// Whether the reads of each node are nodes of lower kinds and differ. Each node has a stamp of its own, which its
/// reads leave at their positions.
fn have_reads(alloc: Global, graph: &Graph) -> Result<bool, Memory>
    ensures { IfOk result (λ b. b ≡ have_reads graph.now graph.now) }
{
    let nodes = graph.as_slice();
    let mut stamps = Vec::from_elem(alloc, 0u32, nodes.len())?;
    let mut stamp: u32 = 0;
    for node in nodes {
        stamp += 1;
        if !has_reads(nodes, &mut stamps, stamp, node) {
            return Ok(false);
        }
    }
    Ok(true)
}

fn has_reads(nodes: &[Node], stamps: &mut [u32], stamp: u32, node: &Node) -> bool
    requires long { length stamps.old ≡ length nodes.now }
    requires older { (q : ℕ) → slice_index stamps.old q < stamp }
    ensures test { result ≡ (are_lower nodes.now node.now.query.kind node.now.reads && differ_from [] node.now.reads) }
    ensures older { (q : ℕ) → slice_index stamps.new q < stamp + 1 }
{
    are_lower(nodes, node.query.kind, node.reads.as_slice())
        && reads_differ(node.reads.as_slice(), stamps, stamp)
}

fn are_lower(nodes: &[Node], kind: u8, reads: &[u32]) -> bool
    ensures test { result ≡ are_lower nodes.now kind reads.now }
    ensures within { result ≡ true → (k : ℕ) → k < length reads.now → slice_index reads.now k < length nodes.now }
{
    for read in reads {
        if !is_lower(nodes, kind, *read) {
            return false;
        }
    }
    true
}

fn is_lower(nodes: &[Node], kind: u8, read: u32) -> bool
    ensures test { result ≡ option_map_or (λ x. nat_lt x.query.kind kind) (slice_get nodes.now read) false }
    ensures within { result ≡ true → read < length nodes.now }
{
    match nodes.get(read as usize) {
        None => false,
        Some(node) => node.query.kind < kind,
    }
}

/// Whether the reads differ: each leaves its stamp at its position.
fn reads_differ(reads: &[u32], stamps: &mut [u32], stamp: u32) -> bool
    requires within { (k : ℕ) → k < length reads.now → slice_index reads.now k < length stamps.old }
    requires older { (q : ℕ) → slice_index stamps.old q < stamp }
    ensures test { result ≡ differ_from [] reads.now }
    ensures older { (q : ℕ) → slice_index stamps.new q ≤ stamp }
{
    for read in reads {
        let at = *read as usize;
        if stamps[at] == stamp {
            return false;
        }
        stamps[at] = stamp;
    }
    true
}
