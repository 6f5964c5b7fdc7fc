//! Whether a file is as it should be.

ghost use Rattle.std.specs.Prelude.{◌≡◌, ◌↔◌, ◌+◌, ◌∷◌, false, IfOk, IsTrue, List};
ghost use Rattle.std.specs.Option.{option_copied, option_map_or};
ghost use Rattle.std.specs.Str.{bytes_eq};
ghost use Rattle.sha2.specs.Sha256.{sha256};
ghost use Rattle.inc_graph.specs.Forms.{file_form};
ghost use Rattle.inc_graph.specs.declared.node.Node.{Node};
ghost use Rattle.inc_products.specs.Loads.{HoldsKept, are_kept_from, has_print_at, is_value_of};
ghost use Rattle.inc_products.specs.Saved.{products_form, products_of};
ghost use Rattle.inc_products.specs.Starts.{IsObject, IsWell, IsWellCache, IsWellObject};

use crate::front::begins_with;
use crate::part::Part;
use crate::saved::is_kept_kind;
use inc_base::{Bytes, Memory};
use inc_graph::{Cache, Graph, Node, decode_cache};
use inc_wire::{Header, print_of};
use rs_object::decode_object;

/// Whether a file is well. `products` is the wanted list of the units' files.
pub(crate) fn is_well(
    want: &Header,
    nodes: &Graph,
    products: &Bytes,
    part: Part,
    bytes: &Bytes,
) -> Result<bool, Memory>
    requires format { want.now.format ≡ 1 }
    requires products { products.now ≡ file_form products_form (want.now, products_of nodes.now) }
    ensures { IfOk result (λ is. IsTrue is ↔ IsWell want.now nodes.now part bytes.now) }
{
    match part {
        Part::Graph => Ok(true),
        Part::Cache => is_well_cache(want, nodes, bytes),
        Part::Products => Ok(same_bytes(bytes.as_slice(), products.as_slice())),
        Part::Object(at) => is_well_object(nodes.as_slice(), at, bytes),
    }
}

fn same_bytes(a: &[u8], b: &[u8]) -> bool
    ensures { IsTrue result ↔ (a.now ≡ b.now) }
{
    a == b
}

fn is_well_cache(want: &Header, nodes: &Graph, bytes: &Bytes) -> Result<bool, Memory>
    requires { want.now.format ≡ 1 }
    ensures { IfOk result (λ is. IsTrue is ↔ IsWellCache want.now nodes.now bytes.now) }
{
    if !begins_with(bytes.allocator(), want, bytes.as_slice())? {
        return Ok(false);
    }
    holds_kept(nodes, bytes)
}

fn holds_kept(nodes: &Graph, bytes: &Bytes) -> Result<bool, Memory>
    ensures { IfOk result (λ is. IsTrue is ↔ HoldsKept nodes.now bytes.now) }
{
    match decode_cache(bytes.allocator(), bytes.as_slice()) {
        Ok(Some((header, values))) => {
            drop(header);
            let are = are_kept(nodes, &values);
            drop(values);
            Ok(are)
        }
        Ok(None) => Ok(false),
        Err(refused) => Err(refused),
    }
}

/// Whether values are exactly those of the nodes of kinds 4 to 8, each with its node's print.
fn are_kept(graph: &Graph, values: &Cache) -> bool
    ensures { result ≡ are_kept_from 0 graph.now values.now }
{
    let nodes = graph.as_slice();
    let mut rest = values.as_slice();
    let mut at: u32 = 0;
    for node in nodes {
        match kept_left(at, node, rest) {
            Some(more) => rest = more,
            None => return false,
        }
        at += 1;
    }
    rest.is_empty()
}

/// What follows a node's value, where its kind is kept; None where the value isn't the first.
fn kept_left<'a>(at: u32, node: &Node, values: &'a [(u32, Bytes)]) -> Option<&'a [(u32, Bytes)]>
    ensures { (ns : List Node) → are_kept_from at (node.now ∷ ns) values.now ≡ option_map_or (are_kept_from (at + 1) ns) (option_copied result) false }
{
    if !is_kept_kind(node.query.kind) {
        return Some(values);
    }
    match values {
        [value, more @ ..] => {
            if is_value_of(at, node, value) {
                Some(more)
            } else {
                None
            }
        }
        [] => None,
    }
}

fn is_value_of(at: u32, node: &Node, value: &(u32, Bytes)) -> bool
    ensures { result ≡ is_value_of at node.now value.now }
{
    value.0 == at && has_print(node, value.1.as_slice())
}

fn has_print(node: &Node, bytes: &[u8]) -> bool
    ensures { result ≡ bytes_eq (sha256 bytes.now) node.now.print.0 }
{
    print_of(bytes).0 == node.print.0
}

fn is_well_object(nodes: &[Node], at: u32, bytes: &Bytes) -> Result<bool, Memory>
    ensures { IfOk result (λ is. IsTrue is ↔ IsWellObject nodes.now at bytes.now) }
{
    if !has_print_at(nodes, at, bytes.as_slice()) {
        return Ok(false);
    }
    is_object(bytes)
}

fn has_print_at(nodes: &[Node], at: u32, bytes: &[u8]) -> bool
    ensures { result ≡ has_print_at nodes.now at bytes.now }
{
    match nodes.get(at as usize) {
        None => false,
        Some(node) => has_print(node, bytes),
    }
}

fn is_object(bytes: &Bytes) -> Result<bool, Memory>
    ensures { IfOk result (λ is. IsTrue is ↔ IsObject bytes.now) }
{
    match decode_object(bytes.allocator(), bytes.as_slice()) {
        Ok(Some(object)) => {
            drop(object);
            Ok(true)
        }
        Ok(None) => Ok(false),
        Err(refused) => Err(refused),
    }
}
