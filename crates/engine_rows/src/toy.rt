ghost use Rattle.std.specs.Prelude.{◌≡◌, ℕ, ◌<◌, List, [], IfOk, take, drop, length};
ghost use Rattle.inc_query.specs.declared.answer.Answer.TheVariants.{Value};
ghost use Rattle.engine_rows.specs.Toy.{plan, is_kept, fits, text};
ghost use Rattle.inc_query.specs.declared.query.Query.{Query};

use inc_base::{Bytes, Copied, List, Memory, Meter};
use inc_query::{Answer, Providers, Query, tick_raises};
use std::alloc::Global;

/// Kind 1 is one byte of the text, kind 2 a copy of it.
#[derive(Debug, Drop)]
pub struct Toy {
    pub text: Bytes,
}

impl Providers for Toy {
    type Tick = Meter;

    ghost use Rattle.std.specs.Prelude.{[]};
    ghost use Rattle.std.proofs.Common.{arith};
    ghost use Rattle.engine_rows.specs.Toy.{plan, is_kept, fits};

    ghost setting = { λ t. [] };

    ghost input = { λ t. t.text };

    ghost height = { 3 };

    ghost kept = { is_kept };

    ghost ticking = { 2 };

    ghost plan = { plan };

    fn kinds(&self) -> u8 {
        3
    }

    fn keeps(&self, kind: u8) -> bool {
        kind == 2
    }

    #[tactic(auto, using(crate::specs::Toy::rise_none, crate::specs::Toy::rise_least))]
    fn next(
        &self,
        q: &Query,
        known: &List<(Query, Bytes)>,
        meter: &mut Meter,
    ) -> Result<Answer, Memory> {
        if q.kind == 0 {
            return Ok(Answer::Value(self.text.copy()?));
        }
        match known.as_slice() {
            [] => Ok(Answer::Read(read_of(known.allocator(), q)?)),
            [first, ..] => {
                if q.kind == 1 {
                    byte_at(&first.1, q.name.len())
                } else {
                    let value = first.1.copy()?;
                    tick_raises(meter);
                    meter.tick();
                    Ok(Answer::Value(value))
                }
            }
        }
    }

    ghost ticks_above = { Prim.omega arith };

    ghost fits = { fits };
}

/// The one read of a query.
fn read_of(alloc: Global, q: &Query) -> Result<Query, Memory>
    ensures one { q.now.kind ≡ 1 → IfOk result (λ r. r ≡ text) }
    ensures two { q.now.kind ≡ 2 → IfOk result (λ r. r ≡ record { kind = 1; «module» = q.now.module; name = q.now.name }) }
{
    if q.kind == 1 {
        Ok(Query {
            kind: 0,
            module: Bytes::new(alloc),
            name: Bytes::new(alloc),
        })
    } else {
        Ok(Query {
            kind: 1,
            module: q.module.copy()?,
            name: q.name.copy()?,
        })
    }
}

fn byte_at(text: &Bytes, at: usize) -> Result<Answer, Memory>
    ensures { IfOk result (λ a. a ≡ Value (take 1 (drop at text.now))) }
{
    let bytes = text.as_slice();
    let value = if at < bytes.len() {
        Bytes::of(text.allocator(), &bytes[at..at + 1])?
    } else {
        Bytes::new(text.allocator())
    };
    Ok(Answer::Value(value))
}
