//! The limits of a text.

ghost use Rattle.std.specs.Prelude.{◌≡◌, IfOk, IfErr, Some, None};
ghost use Rattle.std.specs.List.{list_any};
ghost use Rattle.rs_queries.specs.Limits.{has_many, is_past, limit_by, over_limit, tree_limit};
ghost use Rattle.rs_queries.specs.Reading.{IsReading, what_was_read};

use crate::reading::{Reading, read};
use inc_base::Memory;
use rs_lower::is_within_limits;
use rs_tree::{Crate, Placed};
use std::alloc::Global;

/// A limit of a text (docs/LANGUAGE.md, "Limits").
#[derive(Clone, Copy, Debug, PartialEq, Eq)]
pub enum Limit {
    /// It has more than 1,048,576 bytes.
    Text,
    /// It has more than 256 modules.
    Modules,
    /// It has more than 4,096 items, or a function of more than 65,535 slots or labels.
    Items,
}

/// The most bytes of a text.
const BYTES: usize = 1_048_576;

/// The most modules.
const MODULES: usize = 256;

/// The most items.
const ITEMS: usize = 4_096;

/// The reading of a text that passes no limit, or the first of the limits, in their order, that it passes. Modules and items are
/// counted in texts that have a tree; a text of too many bytes isn't read. `Memory` where there is none for the tree
/// (docs/LANGUAGE.md, "Limits").
pub fn read_within(alloc: Global, text: &[u8]) -> Result<Result<Reading, Limit>, Memory>
    ensures within { IfOk result (λ r. IfOk r (λ it. IsReading text.now it × (over_limit text.now ≡ None))) }
    ensures past { IfOk result (λ r. IfErr r (λ limit. over_limit text.now ≡ Some limit)) }
{
    if text.len() > BYTES {
        return Ok(Err(Limit::Text));
    }
    let reading = read(alloc, text)?;
    match limit_of(&reading) {
        None => Ok(Ok(reading)),
        Some(limit) => {
            drop(reading);
            Ok(Err(limit))
        }
    }
}

/// The first of the limits that a text passes, as `read_within` has them; none where it passes none. `Memory` as there.
pub fn over_limit(alloc: Global, text: &[u8]) -> Result<Option<Limit>, Memory>
    ensures { IfOk result (λ l. l ≡ over_limit text.now) }
{
    match read_within(alloc, text)? {
        Ok(reading) => {
            drop(reading);
            Ok(None)
        }
        Err(limit) => Ok(Some(limit)),
    }
}

fn limit_of(reading: &Reading) -> Option<Limit>
    ensures { result ≡ limit_by (what_was_read reading.now) }
{
    match reading {
        Reading::Tree(tree) => tree_limit(tree),
        Reading::Fault(_) => None,
    }
}

fn tree_limit(tree: &Crate) -> Option<Limit>
    ensures { result ≡ tree_limit tree.now }
{
    if tree.modules.len() > MODULES {
        return Some(Limit::Modules);
    }
    if has_many(tree.items.as_slice()) {
        return Some(Limit::Items);
    }
    None
}

fn has_many(items: &[Placed]) -> bool
    ensures { result ≡ has_many items.now }
{
    items.len() > ITEMS || has_past(items)
}

fn has_past(items: &[Placed]) -> bool
    ensures { result ≡ list_any is_past items.now }
{
    items.iter().any(|placed| is_past(placed))
}

fn is_past(placed: &Placed) -> bool
    ensures { result ≡ is_past placed.now }
{
    !is_within_limits(&placed.item)
}
