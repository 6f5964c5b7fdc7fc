ghost use Rattle.std.specs.Prelude.{◌≡◌, ◌∷◌, ◌==◌, [], ℕ, IfOk};
ghost use Rattle.inc_query.specs.Plans.{follow};
ghost use Rattle.rs_plans.specs.Plans.{plan_of};
ghost use Rattle.rs_queries.specs.Reading.{IsReading};
ghost use Rattle.rs_provider.specs.Kept.{is_counted};

use crate::desk::Desk;
use crate::lasts::Lasts;
use crate::resuming::{fed_all, resumed};
use inc_base::{Bytes, Compiler, Copied, List, Memory, Meter};
use inc_query::{Answer, Providers, Query, tick_raises};
use rs_queries::Reading;
use std::rc::Rc;

/// The compiler's queries of a text: what each reads, in order, and its value, by a compiler (docs/FORMATS.md, "Queries").
///
/// Where a value that is read isn't in its form, the query's value is nothing. It keeps what it read last of a text and of an index, the items, and
/// the queries that were asked last (docs/ARCHITECTURE.md, "How a query runs").
#[derive(Drop)]
pub struct Rust {
    pub text: Bytes,
    pub compiler: Compiler,
    desk: Desk,
    lasts: Lasts,
}

impl Rust {
    /// The queries of this text, by this compiler.
    pub fn new(text: Bytes, compiler: Compiler) -> Rust
        ensures text { result.text ≡ text }
        ensures compiler { result.compiler ≡ compiler }
    {
        let desk = Desk::new(text.allocator());
        Rust {
            text,
            compiler,
            desk,
            lasts: Lasts::new(),
        }
    }

    /// The queries of a text that was read already and isn't read again, by this compiler. `Memory` where there is none to keep it.
    pub fn of_reading(text: Bytes, compiler: Compiler, reading: Rc<Reading>) -> Result<Rust, Memory>
        requires { IsReading text reading.value }
        ensures text { IfOk result (λ r. r.text ≡ text) }
        ensures compiler { IfOk result (λ r. r.compiler ≡ compiler) }
    {
        match Desk::of_reading(&text, reading) {
            Ok(desk) => Ok(Rust {
                text,
                compiler,
                desk,
                lasts: Lasts::new(),
            }),
            Err(refused) => {
                drop(text);
                drop(compiler);
                Err(refused)
            }
        }
    }

    /// What a query of a kind above 0 says after these reads.
    fn said(&self, q: &Query, known: &List<(Query, Bytes)>) -> Result<Answer, Memory>
        ensures { IfOk result (λ a. a ≡ follow (plan_of (self.now.compiler.version ∷ self.now.compiler.level ∷ []) q.now) known.now) }
    {
        let kept = self.lasts.take(q.kind);
        let begun = resumed(kept, self.compiler.level, q, known)?;
        let begun = fed_all(&self.desk, begun, known.as_slice())?;
        let answer = begun.state.answer(known.allocator());
        self.lasts.keep(begun);
        answer
    }
}

impl Providers for Rust {
    type Tick = Meter;

    ghost use Rattle.std.specs.Prelude.{[], ◌∷◌};
    ghost use Rattle.std.proofs.Common.{arith};
    ghost use Rattle.rs_plans.specs.Plans.{plan_of};
    ghost use Rattle.rs_plans.proofs.Fits.{plans_fit};
    ghost use Rattle.rs_provider.specs.Kept.{is_kept};

    ghost setting = { λ r. r.compiler.version ∷ r.compiler.level ∷ [] };

    ghost input = { λ r. r.text };

    ghost height = { 11 };

    ghost kept = { is_kept };

    ghost ticking = { 10 };

    ghost plan = { plan_of };

    fn kinds(&self) -> u8 {
        11
    }

    fn keeps(&self, kind: u8) -> bool {
        (4 <= kind && kind <= 8) || kind == 10
    }

    #[tactic(auto, using(crate::proofs::Ticks::rise_none, crate::proofs::Ticks::rise_least))]
    fn next(
        &self,
        q: &Query,
        known: &List<(Query, Bytes)>,
        meter: &mut Meter,
    ) -> Result<Answer, Memory> {
        if q.kind == 0 {
            return Ok(Answer::Value(self.text.copy()?));
        }
        let answer = self.said(q, known)?;
        if is_counted(q, &answer) {
            tick_raises(meter);
            meter.tick();
        }
        Ok(answer)
    }

    ghost ticks_above = { Prim.omega arith };

    ghost fits = { plans_fit };
}

// Whether it is an object's value.
fn is_counted(q: &Query, answer: &Answer) -> bool
    ensures { result ≡ is_counted (q.now.kind == 10) answer.now }
{
    match answer {
        Answer::Value(_) => q.kind == 10,
        Answer::Read(_) => false,
    }
}
