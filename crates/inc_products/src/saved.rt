//! The files of a session, made of a graph and the values kept of it.

ghost use Rattle.std.specs.Prelude.{◌≡◌, ◌++◌, ◌+◌, ◌<◌, ◌∷◌, List, [], length, IfOk, IsTrue, OnOk, slice_get};
ghost use Rattle.std.specs.Option.{option_copied};
ghost use Rattle.std.specs.Map.{lookup};
ghost use Rattle.std.specs.Ordering.{nat_cmp};
ghost use Rattle.std.specs.BTreeMap.{is_at};
ghost use Rattle.inc_graph.specs.Forms.{cache_form, file_form, graph_form};
ghost use Rattle.inc_graph.specs.Graphs.{HasOrder, HasQuery, IsGraph};
ghost use Rattle.inc_graph.specs.declared.node.Node.{Node};
ghost use Rattle.inc_products.specs.Named.{is_keyed, place_in, with_value};
ghost use Rattle.inc_products.specs.Saved.{Value, cache_name, demanded, files_of, graph_name, is_kept_kind, kept_of, kind_at, products_form, products_from, products_name, products_of, value_of, with_object, with_objects};

use crate::named::{FileSet, Named};
use crate::names::{cache_name, graph_name, object_name, products_name};
use crate::part::Part;
use inc_base::{Bytes, Copied, Label, List, Memory};
use inc_graph::{Cache, Graph, Node, encode, encode_cache, put_file_header};
use inc_query::OBJECT;
use inc_wire::{Header, put_all};
use std::alloc::Global;

/// The files of a session: the graph, the values of kinds 4 to 8, the list of the units' files, and an object for each
/// node of kind 10. `Memory` where there is none for them. (docs/FORMATS.md, "Files")
pub fn files_of(h: &Header, g: &Graph, c: &Cache) -> Result<FileSet, Memory>
    requires header { h.now.format ≡ 1 }
    requires graph { IsGraph g.now }
    requires order { HasOrder c.now }
    ensures { IfOk result (λ set. set ≡ files_of h.now g.now c.now) }
{
    let mut files = FileSet::new(g.allocator());
    match put_files(&mut files, h, g, c) {
        Ok(()) => Ok(files),
        Err(refused) => {
            drop(files);
            Err(refused)
        }
    }
}

fn put_files(files: &mut FileSet, h: &Header, g: &Graph, c: &Cache) -> Result<(), Memory>
    requires header { h.now.format ≡ 1 }
    requires graph { IsGraph g.now }
    requires order { HasOrder c.now }
    requires empty { files.old ≡ [] }
    ensures { OnOk result (files.new ≡ files_of h.now g.now c.now) }
{
    put_graph(files, h, g)?;
    put_cache(files, h, g, c)?;
    put_products(files, h, g)?;
    put_objects(files, g, c)
}

fn put_graph(files: &mut FileSet, h: &Header, g: &Graph) -> Result<(), Memory>
    requires header { h.now.format ≡ 1 }
    requires graph { IsGraph g.now }
    ensures { OnOk result (files.new ≡ with_value files.old graph_name (file_form graph_form (h.now, g.now))) }
{
    let name = graph_name(g.allocator())?;
    let bytes = encode(h, g)?;
    files.put(name, bytes)
}

fn put_cache(files: &mut FileSet, h: &Header, g: &Graph, c: &Cache) -> Result<(), Memory>
    requires header { h.now.format ≡ 1 }
    requires order { HasOrder c.now }
    ensures { OnOk result (files.new ≡ with_value files.old cache_name (file_form cache_form (h.now, kept_of g.now c.now))) }
{
    let name = cache_name(g.allocator())?;
    let kept = kept_of(g, c)?;
    let bytes = encode_cache(h, &kept)?;
    files.put(name, bytes)
}

fn put_products(files: &mut FileSet, h: &Header, g: &Graph) -> Result<(), Memory>
    requires header { h.now.format ≡ 1 }
    requires graph { IsGraph g.now }
    ensures { OnOk result (files.new ≡ with_value files.old products_name (file_form products_form (h.now, products_of g.now))) }
{
    let name = products_name(g.allocator())?;
    let bytes = encode_products(h, g)?;
    files.put(name, bytes)
}

fn put_objects(files: &mut FileSet, g: &Graph, c: &Cache) -> Result<(), Memory>
    requires graph { IsGraph g.now }
    requires order { HasOrder c.now }
    ensures { OnOk result (files.new ≡ with_objects (value_of c.now) 0 g.now files.old) }
{
    let nodes = g.as_slice();
    let mut at: u32 = 0;
    for node in nodes {
        put_object(files, at, node, c)?;
        at += 1;
    }
    Ok(())
}

/// Puts the object of a node, if it has one.
fn put_object(files: &mut FileSet, at: u32, node: &Node, c: &Cache) -> Result<(), Memory>
    requires query { HasQuery node.now }
    requires order { HasOrder c.now }
    ensures { OnOk result (files.new ≡ with_object (value_of c.now) at node.now files.old) }
{
    if node.query.kind != OBJECT {
        return Ok(());
    }
    let name = object_name(c.allocator(), node.query.module.as_slice())?;
    let bytes = copy_value(c, at)?;
    files.put(name, bytes)
}

/// The value of a node, empty where there is none.
fn copy_value(c: &Cache, at: u32) -> Result<Bytes, Memory>
    requires { HasOrder c.now }
    ensures { IfOk result (λ bytes. bytes ≡ value_of c.now at) }
{
    match value_at(c.as_slice(), at) {
        Some(bytes) => bytes.copy(),
        None => Ok(Bytes::new(c.allocator())),
    }
}

fn value_at(values: &[(u32, Bytes)], at: u32) -> Option<&Bytes>
    requires { HasOrder values.now }
    ensures { option_copied result ≡ lookup (is_at (nat_cmp at)) values.now }
{
    let place = place_of(values, at);
    if stands_at(values, place, at) {
        Some(&values[place].1)
    } else {
        None
    }
}

/// How many values stand before this position.
fn place_of(values: &[(u32, Bytes)], at: u32) -> usize
    requires { HasOrder values.now }
    ensures { result ≡ place_in nat_cmp at values.now }
{
    values.partition_point(|value| value.0.cmp(&at).is_lt())
}

fn stands_at(values: &[(u32, Bytes)], place: usize, at: u32) -> bool
    ensures test { result ≡ is_keyed nat_cmp at (slice_get values.now place) }
    ensures within { IsTrue result → place < length values.now }
{
    match values.get(place) {
        Some(value) => at.cmp(&value.0).is_eq(),
        None => false,
    }
}

/// The values of kinds 4 to 8.
fn kept_of(g: &Graph, c: &Cache) -> Result<Cache, Memory>
    ensures { IfOk result (λ kept. kept ≡ kept_of g.now c.now) }
{
    let mut kept = List::new(c.allocator());
    let values = c.as_slice();
    for value in values {
        keep_value(&mut kept, g, value)?;
    }
    Ok(kept)
}

fn keep_value(kept: &mut Cache, g: &Graph, value: &(u32, Bytes)) -> Result<(), Memory>
    ensures { OnOk result ((rest : List Value) → kept.new ++ kept_of g.now rest ≡ kept.old ++ kept_of g.now (value.now ∷ rest)) }
{
    if !is_kept_kind(kind_at(g.as_slice(), value.0)) {
        return Ok(());
    }
    let bytes = value.1.copy()?;
    kept.push((value.0, bytes))
}

pub(crate) fn is_kept_kind(kind: u8) -> bool
    ensures { result ≡ is_kept_kind kind }
{
    4 <= kind && kind <= 8
}

/// The kind of a node, 0 where there is none.
fn kind_at(nodes: &[Node], at: u32) -> u8
    ensures { result ≡ kind_at nodes.now at }
{
    match nodes.get(at as usize) {
        Some(node) => node.query.kind,
        None => 0,
    }
}

/// The bytes of the list of the units' files.
pub(crate) fn encode_products(h: &Header, g: &Graph) -> Result<Bytes, Memory>
    requires header { h.now.format ≡ 1 }
    requires graph { IsGraph g.now }
    ensures { IfOk result (λ bytes. bytes ≡ file_form products_form (h.now, products_of g.now)) }
{
    let products = products_of(g)?;
    let mut bytes = Bytes::new(g.allocator());
    put_file_header(&mut bytes, h)?;
    put_all::<(Bytes, (Bytes, u32))>(&mut bytes, products.as_slice())?;
    Ok(bytes)
}

fn products_of(g: &Graph) -> Result<List<(Bytes, (Bytes, u32))>, Memory>
    requires { IsGraph g.now }
    ensures { IfOk result (λ products. products ≡ products_of g.now) }
{
    let nodes = g.as_slice();
    let mut products = List::new(g.allocator());
    let mut at: u32 = 0;
    for node in nodes {
        push_product(&mut products, at, node)?;
        at += 1;
    }
    Ok(products)
}

/// Adds the file of a node's object, if it has one.
fn push_product(
    products: &mut List<(Bytes, (Bytes, u32))>,
    at: u32,
    node: &Node,
) -> Result<(), Memory>
    requires { HasQuery node.now }
    ensures { OnOk result ((rest : List Node) → products.new ++ products_from (at + 1) rest ≡ products.old ++ products_from at (node.now ∷ rest)) }
{
    if node.query.kind != OBJECT {
        return Ok(());
    }
    let alloc = products.allocator();
    let module = node.query.module.copy()?;
    let name = object_name(alloc, node.query.module.as_slice())?;
    let file = Bytes::of(alloc, name.bytes())?;
    products.push((module, (file, at)))
}

/// The parts of the files that a graph demands, by the names of the files.
pub fn demanded(g: &Graph) -> Result<Named<Part>, Memory>
    requires { IsGraph g.now }
    ensures { IfOk result (λ parts. parts ≡ demanded g.now) }
{
    let mut parts = Named::new(g.allocator());
    match put_parts(&mut parts, g) {
        Ok(()) => Ok(parts),
        Err(refused) => {
            drop(parts);
            Err(refused)
        }
    }
}

fn put_parts(parts: &mut Named<Part>, g: &Graph) -> Result<(), Memory>
    requires graph { IsGraph g.now }
    requires empty { parts.old ≡ [] }
    ensures { OnOk result (parts.new ≡ demanded g.now) }
{
    let alloc = g.allocator();
    parts.put(graph_name(alloc)?, Part::Graph)?;
    parts.put(cache_name(alloc)?, Part::Cache)?;
    parts.put(products_name(alloc)?, Part::Products)?;
    put_object_parts(parts, g)
}

fn put_object_parts(parts: &mut Named<Part>, g: &Graph) -> Result<(), Memory>
    requires graph { IsGraph g.now }
    ensures { OnOk result (parts.new ≡ with_objects Part.Object 0 g.now parts.old) }
{
    let nodes = g.as_slice();
    let mut at: u32 = 0;
    for node in nodes {
        put_object_part(parts, at, node)?;
        at += 1;
    }
    Ok(())
}

fn put_object_part(parts: &mut Named<Part>, at: u32, node: &Node) -> Result<(), Memory>
    requires { HasQuery node.now }
    ensures { OnOk result (parts.new ≡ with_object Part.Object at node.now parts.old) }
{
    if node.query.kind != OBJECT {
        return Ok(());
    }
    let name = object_name(parts.allocator(), node.query.module.as_slice())?;
    parts.put(name, Part::Object(at))
}
