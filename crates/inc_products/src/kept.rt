//! The values that the files of a session hold.

ghost use Rattle.std.specs.Prelude.{◌≡◌, ◌++◌, ◌+◌, ◌∷◌, IfOk, List, OnOk};
ghost use Rattle.inc_graph.specs.Graphs.{HasQuery, IsGraph};
ghost use Rattle.inc_graph.specs.declared.node.Node.{Node};
ghost use Rattle.inc_products.specs.Loads.{HasKept, HasValues, IsKeptOf, bytes_at, objects_from};

use crate::named::FileSet;
use crate::names::{cache_name, object_name};
use inc_base::{Bytes, Copied, Label, List, Memory};
use inc_graph::{Cache, Graph, Node, decode_cache};
use inc_query::OBJECT;

/// The values in the cache's file, and behind them the objects of the nodes of kind 10.
pub(crate) fn values_of(nodes: &Graph, set: &FileSet) -> Result<Cache, Memory>
    requires { IsGraph nodes.now }
    ensures { IfOk result (HasValues nodes.now set.now) }
{
    let mut values = kept_in(set)?;
    match push_objects(&mut values, nodes, set) {
        Ok(()) => Ok(values),
        Err(refused) => {
            drop(values);
            Err(refused)
        }
    }
}

/// The values in the cache's file, none where there is no such file.
fn kept_in(set: &FileSet) -> Result<Cache, Memory>
    ensures { IfOk result (HasKept set.now) }
{
    let name = cache_name(set.allocator())?;
    let kept = match set.get(&name) {
        Some(bytes) => kept_of(bytes),
        None => Ok(List::new(set.allocator())),
    };
    drop(name);
    kept
}

fn kept_of(bytes: &Bytes) -> Result<Cache, Memory>
    ensures { IfOk result (IsKeptOf bytes.now) }
{
    match decode_cache(bytes.allocator(), bytes.as_slice()) {
        Ok(Some((header, values))) => {
            drop(header);
            Ok(values)
        }
        Ok(None) => Ok(List::new(bytes.allocator())),
        Err(refused) => Err(refused),
    }
}

fn push_objects(values: &mut Cache, graph: &Graph, set: &FileSet) -> Result<(), Memory>
    requires { IsGraph graph.now }
    ensures { OnOk result (values.new ≡ values.old ++ objects_from set.now 0 graph.now) }
{
    let nodes = graph.as_slice();
    let mut at: u32 = 0;
    for node in nodes {
        push_object(values, set, at, node)?;
        at += 1;
    }
    Ok(())
}

/// Adds the object of a node, if it has one.
fn push_object(values: &mut Cache, set: &FileSet, at: u32, node: &Node) -> Result<(), Memory>
    requires { HasQuery node.now }
    ensures { OnOk result ((rest : List Node) → values.new ++ objects_from set.now (at + 1) rest ≡ values.old ++ objects_from set.now at (node.now ∷ rest)) }
{
    if node.query.kind != OBJECT {
        return Ok(());
    }
    let name = object_name(set.allocator(), node.query.module.as_slice())?;
    let bytes = copy_file(set, &name);
    drop(name);
    values.push((at, bytes?))
}

/// The bytes of a file, empty where there is none.
fn copy_file(set: &FileSet, name: &Label) -> Result<Bytes, Memory>
    ensures { IfOk result (λ bytes. bytes ≡ bytes_at name.now set.now) }
{
    match set.get(name) {
        Some(bytes) => bytes.copy(),
        None => Ok(Bytes::new(set.allocator())),
    }
}
