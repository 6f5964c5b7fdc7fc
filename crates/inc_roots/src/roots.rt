ghost use Rattle.std.specs.Prelude.{◌≡◌, ℕ, ◌<◌, List, IfOk, OnOk, IsTrue, drop, length, map};
ghost use Rattle.std.specs.List.{All, count_by};
ghost use Rattle.inc_query.specs.Plans.{denote};
ghost use Rattle.inc_query.specs.Queries.{IsQuery};
ghost use Rattle.inc_query.specs.Ticks.{rise};
ghost use Rattle.inc_engine.specs.Builds.{Before, setup, stale};
ghost use Rattle.inc_roots.specs.Asked.{AsksAll};

use inc_base::{Bytes, List, Memory};
use inc_engine::Engine;
use inc_query::{Providers, Query, Tally};
use std::alloc::Global;

/// The values of some roots, which are asked one after the other. `Memory` where the engine answers it, and where there is none for the
/// list of the values.
pub fn ask_all<P: Providers>(
    alloc: Global,
    engine: &mut Engine<P>,
    roots: &[Query],
    meter: &mut P::Tick,
) -> Result<List<Bytes>, Memory>
    requires kinds { All (λ q. q.kind < P.height) roots.now }
    requires queries { All IsQuery roots.now }
    ensures many { IfOk result (λ vs. length vs ≡ length roots.now) }
    ensures values { IfOk result (λ vs. (s : List ℕ) → Before (setup (P.plan engine.old.setting) P.kept P.ticking P.height engine.old.input engine.old.nodes engine.old.cache) s → vs ≡ map (denote (P.plan engine.old.setting) engine.old.input) roots.now) }
    ensures asks { OnOk result (AsksAll (setup (P.plan engine.old.setting) P.kept P.ticking P.height engine.old.input engine.old.nodes engine.old.cache) roots.now engine.old.asked engine.new.asked) }
    ensures ticks { OnOk result ((s : List ℕ) → Before (setup (P.plan engine.old.setting) P.kept P.ticking P.height engine.old.input engine.old.nodes engine.old.cache) s → IsTrue (P.kept P.ticking) → P.Tick.count meter.new ≡ rise (P.Tick.count meter.old) (count_by (stale (setup (P.plan engine.old.setting) P.kept P.ticking P.height engine.old.input engine.old.nodes engine.old.cache) s) (drop (length engine.old.asked) engine.new.asked))) }
    ensures same { engine.new ≡ record engine.old { asked = engine.new.asked; failed = engine.new.failed } }
{
    let mut values: List<Bytes> = List::new(alloc);
    for root in roots {
        let value = engine.get(root, meter)?;
        values.push(value)?;
    }
    Ok(values)
}
