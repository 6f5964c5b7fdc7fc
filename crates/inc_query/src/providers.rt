ghost use Rattle.std.specs.Prelude.{◌≡◌, ℕ, ◌+◌, ◌<◌, ◌≤◌, ◌==◌, List, [], Bool, IfOk, OnErr};
ghost use Rattle.inc_query.specs.Plans.{Plan, follow, Asked, ReadsFit};
ghost use Rattle.inc_query.specs.Ticks.{rise, ticks};
ghost use Rattle.inc_query.specs.declared.query.Query.{Query};
ghost use Rattle.inc_query.specs.declared.answer.Answer.TheVariants.{Value};

use crate::answer::Answer;
use crate::query::Query;
use inc_base::{Bytes, List, Memory, Meter};

/// A count that code which is generic over it can neither make nor raise.
pub trait Tally {
    ghost count: { Self → ℕ };
}

impl Tally for Meter {
    ghost count = { λ meter. meter };
}

/// What answers queries, one read at a time.
///
/// It stands for an input, whose bytes are the value of each query of kind 0, and has a setting, which is plain
/// data. What it says of a query of another kind is the plan of the query under the setting: the same for each
/// input, so the input is seen through reads alone (docs/ARCHITECTURE.md, "How a query runs").
pub trait Providers: Drop {
    /// What counts the values of the ticking kind. Only `next` raises it.
    type Tick: Tally;

    ghost setting: { Self → List ℕ };

    ghost input: { Self → List ℕ };

    /// Queries have kinds below this.
    ghost height: { ℕ };

    /// The kinds whose values are kept for the next input.
    ghost kept: { ℕ → Bool };

    /// The kind whose values are counted.
    ghost ticking: { ℕ };

    /// What is done for a query of a kind above 0, by the setting.
    ghost plan: { List ℕ → Query → Plan };

    /// How many kinds of queries it answers.
    fn kinds(&self) -> u8
        ensures { result ≡ height };

    /// Whether the values of a kind are kept for the next input.
    fn keeps(&self, kind: u8) -> bool
        ensures { result ≡ kept kind };

    /// The next read of a query after these reads, or its value. The count rises by one where the value of a query
    /// of the ticking kind is answered, and by at most one with `Memory`.
    fn next(
        &self,
        q: &Query,
        known: &List<(Query, Bytes)>,
        meter: &mut Self::Tick,
    ) -> Result<Answer, Memory>
        requires kind { q.now.kind < height }
        requires asked { Asked known.now (plan (setting self.now) q.now) }
        ensures start { q.now.kind ≡ 0 → IfOk result (λ a. a ≡ Value (input self.now)) }
        ensures step { 0 < q.now.kind → IfOk result (λ a. a ≡ follow (plan (setting self.now) q.now) known.now) }
        ensures ticks { IfOk result (λ a. Self.Tick.count meter.new ≡ rise (Self.Tick.count meter.old) (ticks (q.now.kind == ticking) a)) }
        ensures refused_least { OnErr result (Self.Tick.count meter.old ≤ Self.Tick.count meter.new) }
        ensures refused_most { OnErr result (Self.Tick.count meter.new ≤ rise (Self.Tick.count meter.old) 1) };

    /// The input isn't counted.
    ghost ticks_above: { 0 < ticking };

    /// The reads of a plan are of lower kinds, none comes twice, and they have the form of queries where the query
    /// has it.
    ghost fits: { (s : List ℕ) (q : Query) → ReadsFit q [] (plan s q) };
}
