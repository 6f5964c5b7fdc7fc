//! The bytes of the values that are kept of a graph.

ghost use Rattle.std.specs.Prelude.{◌≡◌, ◌↔◌, IfOk, IsTrue, None};
ghost use Rattle.std.specs.Option.{option_copied};
ghost use Rattle.inc_wire.specs.Readings.{IsReadAs};
ghost use Rattle.inc_graph.specs.Forms.{FitsCache, FitsFile, cache_form, file_form};
ghost use Rattle.inc_graph.specs.Graphs.{HasOrder};
ghost use Rattle.inc_graph.specs.Kept.{IsKept};
ghost use Rattle.inc_graph.specs.Order.{ascends, is_above, is_value_below};

use crate::file::{put_file_header, read_file};
use crate::node::Cache;
use inc_base::{Bytes, Memory};
use inc_wire::{Cursor, Header, Read, put_all, take_list};
use std::alloc::Global;

/// The bytes of a file of values, `query-cache.bin`. `Memory` where there is none for them.
/// (docs/FORMATS.md, "The kept values")
pub fn encode_cache(h: &Header, c: &Cache) -> Result<Bytes, Memory>
    requires header { h.now.format ≡ 1 }
    requires order { HasOrder c.now }
    ensures bytes { IfOk result (λ bytes. bytes ≡ file_form cache_form (h.now, c.now)) }
    ensures range { IfOk result (λ bytes. FitsFile FitsCache (h.now, c.now)) }
{
    let mut bytes = Bytes::new(c.allocator());
    put_file_header(&mut bytes, h)?;
    put_all::<(u32, Bytes)>(&mut bytes, c.as_slice())?;
    Ok(bytes)
}

/// The header and the values that these bytes are, from the first to the last, or None exactly where they are no
/// `query-cache.bin`. Which nodes the positions are of isn't asked. `Memory` where there is none for the values.
/// (docs/FORMATS.md, "The kept values")
pub fn decode_cache(alloc: Global, b: &[u8]) -> Result<Option<(Header, Cache)>, Memory>
    ensures { IfOk result (IsReadAs (FitsFile FitsCache) (file_form cache_form) b.now) }
{
    read_file::<CacheForm>(alloc, b)
}

/// The form of kept values: the list of them.
pub struct CacheForm;

impl Read for CacheForm {
    type Value = Cache;

    ghost form = { cache_form };

    ghost fits = { FitsCache };

    fn take(alloc: Global, from: &mut Cursor) -> Result<Option<Cache>, Memory> {
        let Some(values) = take_list::<(u32, Bytes)>(alloc, from)? else {
            return Ok(None);
        };
        Ok(keep_ordered(values))
    }
}

/// The values, if their positions ascend strictly.
fn keep_ordered(values: Cache) -> Option<Cache>
    ensures { IsKept HasOrder values result }
{
    if has_order(&values) {
        Some(values)
    } else {
        drop(values);
        None
    }
}

/// Whether positions ascend strictly.
pub fn has_order(values: &Cache) -> bool
    ensures { IsTrue result ↔ HasOrder values.now }
{
    ascend(values.as_slice())
}

fn ascend(values: &[(u32, Bytes)]) -> bool
    ensures { result ≡ ascends is_value_below None values.now }
{
    let mut before: Option<&(u32, Bytes)> = None;
    for value in values {
        if !is_above(before, value) {
            return false;
        }
        before = Some(value);
    }
    true
}

fn is_above(before: Option<&(u32, Bytes)>, value: &(u32, Bytes)) -> bool
    ensures { result ≡ is_above is_value_below (option_copied before.entry) value.now }
{
    match before {
        None => true,
        Some(before) => before.0 < value.0,
    }
}
