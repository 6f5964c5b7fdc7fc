ghost use Rattle.std.specs.Prelude.{◌≡◌, ◌-◌, ◌^◌, length, min, count_by, reverse};
ghost use Rattle.inc_fs.specs.Lists.{AreDistinct};
ghost use Rattle.inc_laws.specs.Drawn.{drawn_in, is_drawing};

use inc_fs::{Op, Reply};
use inc_proto::{Content, Event, Ground};

/// How many names were drawn in a ground; they all differ (docs/PROTOCOL.md, "What every legal history
/// keeps"). The count stands still at `u32::MAX`.
pub fn names_once<C: Content>(ground: &Ground<C>) -> u32
    ensures count { result ≡ min (length (drawn_in ground.now.history)) (2 ^ 32 - 1) }
    ensures differ { AreDistinct (drawn_in ground.now.history) }
{
    ground.legal();
    let count = draws_among(ground.history());
    if count < u32::MAX as usize {
        count as u32
    } else {
        u32::MAX
    }
}

/// How many of these events are draws that were answered by a pair.
fn draws_among(events: &[Event]) -> usize
    ensures { result ≡ count_by is_drawing events.now }
{
    let mut count = 0;
    for event in events {
        if is_drawing(event) {
            count += 1;
        }
    }
    count
}

fn is_drawing(event: &Event) -> bool
    ensures { result ≡ is_drawing event.now }
{
    matches!(event, Event::Did(_, Op::Draw, Reply::Drawn(_, _)))
}
