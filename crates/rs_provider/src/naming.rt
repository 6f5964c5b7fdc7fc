//! The items that paths lead to.

ghost use Rattle.std.specs.Prelude.{◌≡◌, IfOk, OnOk, []};
ghost use Rattle.rs_plans.specs.Plans.{named_items};
ghost use Rattle.rs_reach.specs.Calls.{with_item};
ghost use Rattle.rs_provider.specs.Naming.{HaveSame, with_new};

use crate::left::Left;
use crate::seen::Seen;
use inc_base::{Copied, List, Memory};
use rs_tree::{Found, Place};
use std::alloc::Global;

/// The items that these lead to, each the first time only.
pub(crate) fn named_items(found: &List<Found>) -> Result<Left, Memory>
    ensures { IfOk result (λ left. left ≡ named_items found.now) }
{
    let places = named_places(found.allocator(), found.as_slice())?;
    Left::of(places)
}

fn named_places(alloc: Global, found: &[Found]) -> Result<List<Place>, Memory>
    ensures { IfOk result (λ places. places ≡ named_items found.now) }
{
    let mut seen = Seen::new(alloc);
    let mut places = List::new(alloc);
    for one in found {
        push_new(&mut seen, &mut places, one)?;
    }
    Ok(places)
}

fn push_new(seen: &mut Seen, places: &mut List<Place>, found: &Found) -> Result<(), Memory>
    requires { HaveSame seen.old places.old }
    ensures places { OnOk result (places.new ≡ with_new places.old (with_item found.now [])) }
    ensures seen { OnOk result (HaveSame seen.new places.new) }
{
    match found {
        Found::Item(place) => {
            if !seen.add(place)? {
                return Ok(());
            }
            places.push(place.copy()?)
        }
        Found::Local => Ok(()),
        Found::Private => Ok(()),
        Found::Absent => Ok(()),
    }
}
