ghost use Rattle.std.specs.Prelude.{◌≡◌, ◌↔◌, ◌⊎◌, IsTrue};
ghost use Rattle.std.specs.declared.cmp.Ordering.TheVariants.{Greater};
ghost use Rattle.inc_names.specs.declared.session.SessionName.{SessionName};
ghost use Rattle.inc_names.specs.Entries.{IsNewer, name_order};

use crate::session::SessionName;

/// Whether the session a is newer than b: by moment, then by random part, as numbers.
/// (docs/PROTOCOL.md, "Names")
pub fn newer(a: SessionName, b: SessionName) -> bool
    ensures { IsTrue result ↔ IsNewer a b }
{
    a.moment > b.moment || a.moment == b.moment && a.random > b.random
}

/// Sessions stand in one total order: newer is greater in `name_order`, of two that differ exactly one is
/// newer, and what is newer than a newer one is newer still.
pub fn names_are_ordered()
    ensures greater { (a b : SessionName) → IsNewer a b ↔ (name_order a b ≡ Greater) }
    ensures total { (a b : SessionName) → IsNewer a b ⊎ (a ≡ b) ⊎ IsNewer b a }
    ensures one { (a b : SessionName) → IsNewer a b → ¬ IsNewer b a }
    ensures through { (a b c : SessionName) → IsNewer a b → IsNewer b c → IsNewer a c }
{}
