ghost use Rattle.std.specs.Prelude.{◌≡◌, ◌≢◌, ◌+◌, ◌<◌, ◌^◌, [], IfOk, OnOk, Some, length};
ghost use Rattle.std.specs.List.{Contains};
ghost use Rattle.inc_query.specs.Queries.{IsQuery};
ghost use Rattle.inc_graph.specs.Graphs.{queries_of};
ghost use Rattle.inc_engine.specs.Builds.{at, setup};
ghost use Rattle.inc_engine.specs.Marking.{asked, Sound, Grew, IsAt, DidRun, Settled, Marked, IsValue, IsRunOf};

use crate::done::{Done, Ran};
use crate::memo::Memo;
use crate::previous::{Previous, find_green, kept_value, same_print};
use inc_base::{Bytes, Copied, List, Memory};
use inc_query::{Answer, Providers, Query, Tally};
use inc_wire::print_of;
use std::alloc::Global;

/// The entry of a query that was run.
fn done_of(q: &Query, ran: Ran) -> Result<Done, Memory>
    ensures { IfOk result (λ d. IsRunOf q.now ran d) }
{
    let query = q.copy()?;
    let Ran { reads, value } = ran;
    let print = print_of(value.as_slice());
    Ok(Done {
        query,
        print,
        reads,
        value: Some(value),
        ran: true,
    })
}

/// Runs a query, read by read.
#[cycle(engine)]
fn run<P: Providers>(
    alloc: Global,
    p: &P,
    previous: &Previous,
    memo: &mut Memo,
    q: &Query,
    meter: &mut P::Tick,
) -> Result<Ran, Memory>
    requires kind { q.now.kind < P.height }
    requires query { IsQuery q.now }
    requires sound { Sound (setup (P.plan (P.setting p.now)) P.kept P.ticking P.height (P.input p.now) previous.now.graph previous.now.cache) memo.old }
    ensures sound { OnOk result (Sound (setup (P.plan (P.setting p.now)) P.kept P.ticking P.height (P.input p.now) previous.now.graph previous.now.cache) memo.new) }
    ensures run { IfOk result (λ r. DidRun (setup (P.plan (P.setting p.now)) P.kept P.ticking P.height (P.input p.now) previous.now.graph previous.now.cache) q.now memo.old memo.new (P.Tick.count meter.old) (P.Tick.count meter.new) r) }
{
    let mut known: List<(Query, Bytes)> = List::new(alloc);
    let mut reads: List<u32> = List::new(alloc);
    for _ in 0..u32::MAX {
        match p.next(q, &known, meter)? {
            Answer::Read(r) => {
                let (place, value) = value_of(alloc, p, previous, memo, &r, meter)?;
                known.push((r, value))?;
                reads.push(place)?;
            }
            Answer::Value(value) => {
                drop(known);
                return Ok(Ran { reads, value });
            }
        }
    }
    Err(Memory)
}

/// Where a query is, and its value, for which it is run again where its value wasn't kept.
#[cycle(engine)]
pub(crate) fn value_of<P: Providers>(
    alloc: Global,
    p: &P,
    previous: &Previous,
    memo: &mut Memo,
    q: &Query,
    meter: &mut P::Tick,
) -> Result<(u32, Bytes), Memory>
    requires kind { q.now.kind < P.height }
    requires query { IsQuery q.now }
    requires sound { Sound (setup (P.plan (P.setting p.now)) P.kept P.ticking P.height (P.input p.now) previous.now.graph previous.now.cache) memo.old }
    ensures sound { OnOk result (Sound (setup (P.plan (P.setting p.now)) P.kept P.ticking P.height (P.input p.now) previous.now.graph previous.now.cache) memo.new) }
    ensures grew { OnOk result (Grew (setup (P.plan (P.setting p.now)) P.kept P.ticking P.height (P.input p.now) previous.now.graph previous.now.cache) q.now memo.old memo.new (q.now.kind + 1) (P.Tick.count meter.old) (P.Tick.count meter.new)) }
    ensures value { IfOk result (λ r. IsValue (setup (P.plan (P.setting p.now)) P.kept P.ticking P.height (P.input p.now) previous.now.graph previous.now.cache) q.now r.1) }
    ensures place { IfOk result (λ r. IsAt memo.new r.0 q.now) }
{
    let place = visit(alloc, p, previous, memo, q, meter)?;
    if let Some(value) = &memo.entry(place).value {
        let value = value.copy()?;
        return Ok((place, value));
    }
    let ran = run(alloc, p, previous, memo, q, meter)?;
    let kept = ran.value.copy()?;
    memo.keep(place, kept);
    Ok((place, ran.value))
}

/// Finds a query green, its value copied where it is kept, or leaves it to a run.
#[cycle(engine)]
fn mark<P: Providers>(
    alloc: Global,
    p: &P,
    previous: &Previous,
    memo: &mut Memo,
    place: usize,
    meter: &mut P::Tick,
) -> Result<Option<Done>, Memory>
    requires within { place < length previous.now.graph }
    requires above { 0 < (at (queries_of previous.now.graph) place).kind }
    requires kind { (at (queries_of previous.now.graph) place).kind < P.height }
    requires sound { Sound (setup (P.plan (P.setting p.now)) P.kept P.ticking P.height (P.input p.now) previous.now.graph previous.now.cache) memo.old }
    ensures sound { OnOk result (Sound (setup (P.plan (P.setting p.now)) P.kept P.ticking P.height (P.input p.now) previous.now.graph previous.now.cache) memo.new) }
    ensures grew { OnOk result (Grew (setup (P.plan (P.setting p.now)) P.kept P.ticking P.height (P.input p.now) previous.now.graph previous.now.cache) (at (queries_of previous.now.graph) place) memo.old memo.new (at (queries_of previous.now.graph) place).kind (P.Tick.count meter.old) (P.Tick.count meter.new)) }
    ensures marked { IfOk result (λ d. Marked (setup (P.plan (P.setting p.now)) P.kept P.ticking P.height (P.input p.now) previous.now.graph previous.now.cache) (asked memo.new) (at (queries_of previous.now.graph) place) d) }
{
    let nodes = previous.graph.as_slice();
    let node = &nodes[place];
    let mut reads: List<u32> = List::new(alloc);
    for position in node.reads.as_slice() {
        let read = &nodes[*position as usize];
        let i = visit(alloc, p, previous, memo, &read.query, meter)?;
        if !same_print(&memo.entry(i).print, &read.print) {
            return Ok(None);
        }
        reads.push(i)?;
    }
    match kept_value(p, previous, place, node.query.kind)? {
        Some(value) => Ok(Some(Done {
            query: node.query.copy()?,
            print: node.print,
            reads,
            value,
            ran: false,
        })),
        None => Ok(None),
    }
}

/// A new entry for a query: found green, or run.
#[cycle(engine)]
fn settle<P: Providers>(
    alloc: Global,
    p: &P,
    previous: &Previous,
    memo: &mut Memo,
    q: &Query,
    meter: &mut P::Tick,
) -> Result<Done, Memory>
    requires kind { q.now.kind < P.height }
    requires query { IsQuery q.now }
    requires sound { Sound (setup (P.plan (P.setting p.now)) P.kept P.ticking P.height (P.input p.now) previous.now.graph previous.now.cache) memo.old }
    ensures sound { OnOk result (Sound (setup (P.plan (P.setting p.now)) P.kept P.ticking P.height (P.input p.now) previous.now.graph previous.now.cache) memo.new) }
    ensures settled { IfOk result (λ d. Settled (setup (P.plan (P.setting p.now)) P.kept P.ticking P.height (P.input p.now) previous.now.graph previous.now.cache) q.now memo.old memo.new (P.Tick.count meter.old) (P.Tick.count meter.new) d) }
{
    match find_green(previous, q) {
        None => {
            let ran = run(alloc, p, previous, memo, q, meter)?;
            done_of(q, ran)
        }
        Some(place) => match mark(alloc, p, previous, memo, place, meter)? {
            Some(done) => Ok(done),
            None => {
                let ran = run(alloc, p, previous, memo, q, meter)?;
                done_of(q, ran)
            }
        },
    }
}

/// Sees that a query is in the memo, and where.
#[cycle(engine)]
fn visit<P: Providers>(
    alloc: Global,
    p: &P,
    previous: &Previous,
    memo: &mut Memo,
    q: &Query,
    meter: &mut P::Tick,
) -> Result<u32, Memory>
    requires kind { q.now.kind < P.height }
    requires query { IsQuery q.now }
    requires sound { Sound (setup (P.plan (P.setting p.now)) P.kept P.ticking P.height (P.input p.now) previous.now.graph previous.now.cache) memo.old }
    ensures sound { OnOk result (Sound (setup (P.plan (P.setting p.now)) P.kept P.ticking P.height (P.input p.now) previous.now.graph previous.now.cache) memo.new) }
    ensures grew { OnOk result (Grew (setup (P.plan (P.setting p.now)) P.kept P.ticking P.height (P.input p.now) previous.now.graph previous.now.cache) q.now memo.old memo.new (q.now.kind + 1) (P.Tick.count meter.old) (P.Tick.count meter.new)) }
    ensures place { IfOk result (λ i. IsAt memo.new i q.now) }
{
    if let Some(i) = memo.find(q) {
        return Ok(i);
    }
    let done = settle(alloc, p, previous, memo, q, meter)?;
    let place = memo.enter(done)?;
    Ok(place)
}
