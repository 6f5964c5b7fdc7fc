ghost use Rattle.std.specs.Prelude.{◌≡◌, map, IfOk};
ghost use Rattle.rs_lookup.specs.Places.{item_name};

use crate::places::Places;
use inc_base::Memory;
use rs_tree::IndexItem;
use std::alloc::Global;

/// The places of items, ready for look-ups.
pub fn places_of_items<'a>(alloc: Global, items: &'a [IndexItem]) -> Result<Places<'a>, Memory>
    ensures { IfOk result (λ p. p ≡ map item_name items.now) }
{
    let mut keys = Vec::new(alloc);
    for item in items {
        keys.push((item.module.as_slice(), item.name.as_slice()))?;
    }
    Places::new(alloc, keys)
}
