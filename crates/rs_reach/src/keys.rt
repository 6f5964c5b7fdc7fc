ghost use Rattle.std.specs.Prelude.{◌≡◌, IfOk};
ghost use Rattle.rs_reach.specs.Places.{call_names};

use inc_base::{List, Memory};
use rs_lookup::Places;
use rs_tree::Place;
use std::alloc::Global;

/// The places whose calls are known, ready for look-ups.
pub fn places_of_calls<'a>(
    alloc: Global,
    calls: &'a [(Place, List<Place>)],
) -> Result<Places<'a>, Memory>
    ensures { IfOk result (λ p. p ≡ call_names calls.now) }
{
    let mut keys = Vec::new(alloc);
    for (place, _) in calls {
        keys.push((place.module.as_slice(), place.name.as_slice()))?;
    }
    Places::new(alloc, keys)
}
