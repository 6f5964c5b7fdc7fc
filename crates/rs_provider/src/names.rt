//! Tests of values that were read.

ghost use Rattle.std.specs.Prelude.{◌≡◌, [], codes, IfOk};
ghost use Rattle.std.specs.List.{list_all};
ghost use Rattle.inc_base.specs.Texts.{is_name_byte};
ghost use Rattle.rs_plans.specs.Names.{are_new, are_places, is_index, is_item_place, is_module, is_name, is_name_or_none, is_place, is_placed};

use crate::seen::Seen;
use inc_base::{Bytes, List, Memory};
use rs_tree::{Index, IndexItem, Place};
use std::alloc::Global;

/// Whether the names of an index are those of queries.
pub(crate) fn is_index(index: &Index) -> bool
    ensures { result ≡ is_index index.now }
{
    are_modules(index.modules.as_slice()) && are_items(index.items.as_slice())
}

fn are_modules(modules: &[Bytes]) -> bool
    ensures { result ≡ list_all is_module modules.now }
{
    modules.iter().all(|module| is_module(module.as_slice()))
}

fn are_items(items: &[IndexItem]) -> bool
    ensures { result ≡ list_all is_item_place items.now }
{
    items.iter().all(|item| is_item_place(item))
}

fn is_item_place(item: &IndexItem) -> bool
    ensures { result ≡ is_item_place item.now }
{
    is_placed(item.module.as_slice(), item.name.as_slice())
}

fn is_placed(module: &[u8], name: &[u8]) -> bool
    ensures { result ≡ is_placed module.now name.now }
{
    is_module(module) && is_name_or_none(name)
}

fn is_module(text: &[u8]) -> bool
    ensures { result ≡ is_module text.now }
{
    is_name_or_none(text) && text != b"crate".as_slice()
}

fn is_name_or_none(text: &[u8]) -> bool
    ensures { result ≡ is_name_or_none text.now }
{
    text == b"".as_slice() || is_name(text)
}

fn is_name(text: &[u8]) -> bool
    ensures { result ≡ is_name text.now }
{
    0 < text.len() && text.len() <= 64 && are_name_bytes(text)
}

fn are_name_bytes(text: &[u8]) -> bool
    ensures { result ≡ list_all is_name_byte text.now }
{
    text.iter().all(|byte| is_name_byte(*byte))
}

fn is_name_byte(byte: u8) -> bool
    ensures { result ≡ is_name_byte byte }
{
    byte.is_ascii_alphanumeric() || byte == b'_'
}

// ---- Places.

/// Whether these are places of items, each once.
pub(crate) fn are_places(places: &List<Place>) -> Result<bool, Memory>
    ensures { IfOk result (λ b. b ≡ are_places places.now) }
{
    if !all_are_places(places.as_slice()) {
        return Ok(false);
    }
    are_new(places.allocator(), places.as_slice())
}

fn all_are_places(places: &[Place]) -> bool
    ensures { result ≡ list_all is_place places.now }
{
    places.iter().all(|place| is_place(place))
}

fn is_place(place: &Place) -> bool
    ensures { result ≡ is_place place.now }
{
    is_placed(place.module.as_slice(), place.name.as_slice())
}

fn are_new(alloc: Global, places: &[Place]) -> Result<bool, Memory>
    ensures { IfOk result (λ b. b ≡ are_new [] places.now) }
{
    let mut seen = Seen::new(alloc);
    for place in places {
        if !seen.add(place)? {
            return Ok(false);
        }
    }
    Ok(true)
}
