ghost use Rattle.std.specs.Prelude.{◌≡◌, ◌≢◌, ◌+◌, ◌<◌, ◌^◌, ℕ, List, IfOk, IsTrue, IsSome, length, map, slice_index_or};
ghost use Rattle.std.specs.Prelude.{IsSorted, IsPermutation};
ghost use Rattle.std.specs.List.{All, AllByRecursion, Contains, count_by};
ghost use Rattle.inc_query.specs.Queries.{query_cmp};
ghost use Rattle.inc_graph.specs.Graphs.{IsGraph, IsCache, queries_of};
ghost use Rattle.inc_engine.specs.Builds.{at, setup, Before, IsBuildOf, is_red};
ghost use Rattle.inc_engine.specs.Marking.{asked, Sound};
ghost use Rattle.inc_engine.specs.Finish.{IsNodeOf, IsValueOf, IsCacheOf, HasKept};

use crate::done::Done;
use crate::memo::Memo;
use crate::previous::Previous;
use crate::work::{Work, work_of};
use inc_base::{Bytes, Copied, List, MOST, Memory};
use inc_graph::{Cache, Graph, Node};
use inc_query::{Providers, Query};
use std::alloc::Global;

/// The queries that were asked, in order.
fn order_of(alloc: Global, memo: &[Done]) -> Result<Vec<Query>, Memory>
    ensures same { IfOk result (λ order. IsPermutation (asked memo.now) order.items) }
    ensures sorted { IfOk result (λ order. IsSorted query_cmp order.items) }
{
    let mut order: Vec<Query> = Vec::new(alloc);
    for done in memo {
        order.push(done.query.copy()?)?;
    }
    order.sort()?;
    Ok(order)
}

/// The position of a query in the order.
fn place_of(order: &[Query], q: &Query) -> usize
    requires sorted { IsSorted query_cmp order.now }
    requires there { Contains order.now q.now }
    ensures within { result < length order.now }
    ensures is { at order.now result ≡ q.now }
{
    match order.binary_search(q) {
        Ok(i) => i,
        Err(_) => unreachable!(),
    }
}

/// The positions of the entries in the order.
fn ranks_of(alloc: Global, order: &[Query], memo: &[Done]) -> Result<Vec<u32>, Memory>
    requires few { length order.now < 2 ^ 32 }
    requires sorted { IsSorted query_cmp order.now }
    requires there { All (λ d. Contains order.now d.query) memo.now }
    ensures are { IfOk result (λ ranks. map (at order.now) ranks.items ≡ asked memo.now) }
    ensures within { IfOk result (λ ranks. AllByRecursion (λ i. i < length order.now) ranks.items) }
{
    let mut ranks: Vec<u32> = Vec::new(alloc);
    for done in memo {
        let rank = place_of(order, &done.query);
        ranks.push(rank as u32)?;
    }
    Ok(ranks)
}

/// Positions in the memo as positions in the order.
fn placed(alloc: Global, ranks: &[u32], reads: &[u32]) -> Result<List<u32>, Memory>
    requires { All (λ i. i < length ranks.now) reads.now }
    ensures { IfOk result (λ places. places ≡ map (λ i. slice_index_or ranks.now i 0) reads.now) }
{
    let mut places: List<u32> = List::new(alloc);
    for read in reads {
        places.push(ranks[*read as usize])?;
    }
    Ok(places)
}

/// The node of an entry.
fn node_of(alloc: Global, order: &[Query], ranks: &[u32], done: &Done) -> Result<Node, Memory>
    requires { All (λ i. i < length ranks.now) done.now.reads }
    ensures query { IfOk result (λ n. n.query ≡ done.now.query) }
    ensures print { IfOk result (λ n. n.print ≡ done.now.print) }
    ensures reads { IfOk result (λ n. n.reads ≡ map (λ i. slice_index_or ranks.now i 0) done.now.reads) }
{
    let reads = placed(alloc, ranks, done.reads.as_slice())?;
    Ok(Node {
        query: done.query.copy()?,
        print: done.print,
        reads,
    })
}

/// The nodes of the queries that were asked, in order.
fn nodes_of(alloc: Global, order: &[Query], ranks: &[u32], memo: &Memo) -> Result<Graph, Memory>
    requires asked { All (Contains (asked memo.now)) order.now }
    requires are { map (at order.now) ranks.now ≡ asked memo.now }
    requires ranks { AllByRecursion (λ i. i < length order.now) ranks.now }
    requires reads { All (λ d. All (λ i. i < length ranks.now) d.reads) memo.now }
    ensures queries { IfOk result (λ ns. queries_of ns ≡ order.now) }
    ensures nodes { IfOk result (λ ns. All (IsNodeOf order.now memo.now) ns) }
{
    let mut nodes: Graph = List::new(alloc);
    for q in order {
        match memo.find(q) {
            Some(place) => {
                let node = node_of(alloc, order, ranks, memo.entry(place))?;
                nodes.push(node)?;
            }
            None => unreachable!(),
        }
    }
    Ok(nodes)
}

/// The kept value of a query that was asked.
fn value_at(memo: &Memo, q: &Query) -> Result<Bytes, Memory>
    requires asked { Contains (asked memo.now) q.now }
    requires kept { All (λ d. d.query ≡ q.now → IsSome d.value) memo.now }
    ensures { IfOk result (λ v. IsValueOf memo.now q.now v) }
{
    match memo.find(q) {
        Some(place) => {
            let done = memo.entry(place);
            match &done.value {
                Some(value) => {
                    let copied = value.copy()?;
                    Ok(copied)
                }
                None => unreachable!(),
            }
        }
        None => unreachable!(),
    }
}

/// The kept values, by position.
fn cache_of<P: Providers>(
    alloc: Global,
    p: &P,
    order: &[Query],
    memo: &Memo,
) -> Result<Cache, Memory>
    requires few { length order.now < 2 ^ 32 }
    requires asked { All (Contains (asked memo.now)) order.now }
    requires kept { All (λ d. IsTrue (P.kept d.query.kind) → IsSome d.value) memo.now }
    ensures { IfOk result (λ c. IsCacheOf P.kept memo.now order.now (length order.now) c) }
{
    let mut cache: Cache = List::new(alloc);
    for (i, q) in order.iter().enumerate() {
        if p.keeps(q.kind) {
            let value = value_at(memo, q)?;
            cache.push((i as u32, value))?;
        }
    }
    Ok(cache)
}

/// The graph and the cache of the queries that were asked, and what was done for them.
pub(crate) fn graph_of<P: Providers>(
    alloc: Global,
    p: &P,
    previous: &Previous,
    memo: &Memo,
) -> Result<(Graph, Cache, Work), Memory>
    requires sound { Sound (setup (P.plan (P.setting p.now)) P.kept P.ticking P.height (P.input p.now) previous.now.graph previous.now.cache) memo.now }
    ensures asked { IfOk result (λ r. IsPermutation (asked memo.now) (queries_of r.0)) }
    ensures graph { IfOk result (λ r. IsGraph r.0) }
    ensures kinds { IfOk result (λ r. All (λ n. n.query.kind < P.height) r.0) }
    ensures cache { IfOk result (λ r. IsCache r.0 r.1) }
    ensures kept { IfOk result (λ r. HasKept P.kept r.0 r.1) }
    ensures of { IfOk result (λ r. (s : List ℕ) → Before (setup (P.plan (P.setting p.now)) P.kept P.ticking P.height (P.input p.now) previous.now.graph previous.now.cache) s → IsBuildOf (P.plan (P.setting p.now)) P.kept (P.input p.now) r.0 r.1) }
    ensures all { IfOk result (λ r. r.2.ran + r.2.green ≡ length r.0) }
    ensures red { IfOk result (λ r. (s : List ℕ) → Before (setup (P.plan (P.setting p.now)) P.kept P.ticking P.height (P.input p.now) previous.now.graph previous.now.cache) s → r.2.red ≡ count_by (is_red (setup (P.plan (P.setting p.now)) P.kept P.ticking P.height (P.input p.now) previous.now.graph previous.now.cache) s) (asked memo.now)) }
{
    let entries = memo.as_slice();
    let order = order_of(alloc, entries)?;
    let queries = order.as_slice();
    let ranks = ranks_of(alloc, queries, entries)?;
    let nodes = nodes_of(alloc, queries, ranks.as_slice(), memo)?;
    let cache = cache_of(alloc, p, queries, memo)?;
    let work = work_of(previous, entries);
    Ok((nodes, cache, work))
}
