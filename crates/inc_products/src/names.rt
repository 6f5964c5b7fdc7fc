//! The names of a session's files.

ghost use Rattle.std.specs.Prelude.{◌≡◌, IfOk};
ghost use Rattle.inc_base.specs.Texts.{IsLabel};
ghost use Rattle.inc_query.specs.Queries.{IsModule};
ghost use Rattle.inc_products.specs.Saved.{cache_name, graph_name, object_name, products_name, unit_text};

use inc_base::{Bytes, Label, Memory};
use std::alloc::Global;

/// The name of the graph's file, `dep-graph.bin`.
pub fn graph_name(alloc: Global) -> Result<Label, Memory>
    ensures { IfOk result (λ name. name ≡ graph_name) }
{
    label(alloc, b"dep-graph.bin")
}

/// The name of the cache, `query-cache.bin`.
pub fn cache_name(alloc: Global) -> Result<Label, Memory>
    ensures { IfOk result (λ name. name ≡ cache_name) }
{
    label(alloc, b"query-cache.bin")
}

/// The name of the list of the units' files, `work-products.bin`.
pub fn products_name(alloc: Global) -> Result<Label, Memory>
    ensures { IfOk result (λ name. name ≡ products_name) }
{
    label(alloc, b"work-products.bin")
}

/// The name of a unit's object: `u-crate.o` of the root, whose module is empty, and else `u-`, the module and `.o`.
pub fn object_name(alloc: Global, unit: &[u8]) -> Result<Label, Memory>
    requires { IsModule unit.now }
    ensures { IfOk result (λ name. name ≡ object_name unit.now) }
{
    let text = object_text(alloc, unit)?;
    label(alloc, text.as_slice())
}

fn object_text(alloc: Global, unit: &[u8]) -> Result<Bytes, Memory>
    ensures { IfOk result (λ text. text ≡ object_name unit.now) }
{
    let mut text = Bytes::of(alloc, b"u-")?;
    text.append(unit_text(unit))?;
    text.append(b".o")?;
    Ok(text)
}

fn unit_text(unit: &[u8]) -> &[u8]
    ensures { result.now ≡ unit_text unit.now }
{
    if unit.is_empty() { b"crate" } else { unit }
}

fn label(alloc: Global, text: &[u8]) -> Result<Label, Memory>
    requires { IsLabel text.now }
    ensures { IfOk result (λ label. label ≡ text.now) }
{
    match Label::of(alloc, text)? {
        Some(label) => Ok(label),
        None => unreachable!(),
    }
}
