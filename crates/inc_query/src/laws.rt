ghost use Rattle.std.specs.Prelude.{◌≡◌, List, ℕ};
ghost use Rattle.inc_base.specs.Meters.{ticked};
ghost use Rattle.inc_query.specs.Ticks.{rise};
ghost use Rattle.inc_query.specs.Laws.{LawOfReads};

use crate::providers::Providers;
use inc_base::Meter;

/// The law of reads, for each provider and setting: where the first reads of a query have equal values under two
/// inputs, the next read is the same under both, or both end there with equal values. So the reads that a query
/// made decide, in their order, whether its value is still right (docs/ARCHITECTURE.md, "How a query runs").
pub fn law_of_reads<P: Providers>()
    ensures { (setting : List ℕ) → LawOfReads (P.plan setting) }
{}

/// A tick of a meter is a rise by one.
pub fn tick_raises(meter: &Meter)
    ensures { ticked meter.now ≡ rise meter.now 1 }
{
    let _count = meter.count();
}
