ghost use Rattle.std.specs.Prelude.{◌≡◌, ℕ, ◌+◌, ◌<◌, List, [], true, false, IsTrue, IfOk, OnOk, OnErr, IsErr, drop, length, IsPermutation};
ghost use Rattle.std.specs.List.{All, count_by};
ghost use Rattle.inc_query.specs.Queries.{IsQuery};
ghost use Rattle.inc_query.specs.Plans.{denote};
ghost use Rattle.inc_query.specs.Ticks.{rise};
ghost use Rattle.inc_graph.specs.Graphs.{IsGraph, IsCache, queries_of};
ghost use Rattle.inc_engine.specs.Builds.{setup, Before, IsBuildOf, Asks, stale, is_red};
ghost use Rattle.inc_engine.specs.Finish.{HasKept};

use crate::cycle::value_of;
use crate::finish::graph_of;
use crate::memo::Memo;
use crate::previous::Previous;
use crate::work::Work;
use inc_base::{Bytes, List, Memory};
use inc_graph::{Cache, Graph};
use inc_query::{Providers, Query, Tally};
use std::alloc::Global;
use std::marker::Model;

/// A build by queries, over the graph and the cache of an earlier build.
///
/// Contracts see what it was given and the queries that it was asked, in the order in which they were settled.
/// After `Memory` from `get` it answers `Memory` from then on (docs/ARCHITECTURE.md, "How a query runs").
#[derive(Drop)]
pub struct Engine<P: Providers> {
    alloc: Global,
    p: P,
    previous: Previous,
    memo: Memo,
    failed: bool,
}

impl<P: Providers> Model for Engine<P> {
    ghost use Rattle.std.specs.Prelude.{◌≡◌, false};
    ghost use Rattle.inc_engine.specs.Builds.{Build, setup};
    ghost use Rattle.inc_engine.specs.Marking.{Sound, asked};

    ghost Value = { Build };

    ghost view = { λ e. record { setting = P.setting e.p; input = P.input e.p; nodes = e.previous.graph; cache = e.previous.cache; asked = asked e.memo; failed = e.failed } };

    ghost invariant = { λ e. e.failed ≡ false → Sound (setup (P.plan (P.setting e.p)) P.kept P.ticking P.height (P.input e.p) e.previous.graph e.previous.cache) e.memo };
}

impl<P: Providers> Engine<P> {
    /// A build over nothing.
    pub fn fresh(alloc: Global, p: P) -> Engine<P>
        ensures { result ≡ record { setting = P.setting p; input = P.input p; nodes = []; cache = []; asked = []; failed = false } }
    {
        Engine::with_previous(alloc, p, List::new(alloc), List::new(alloc))
    }

    /// A build over the graph and the cache of an earlier one. They may be of any build: what `get` and `finish`
    /// promise of values holds where they are those of queries asked of some input under the same setting.
    pub fn with_previous(alloc: Global, p: P, graph: Graph, cache: Cache) -> Engine<P>
        requires graph { IsGraph graph }
        requires cache { IsCache graph cache }
        ensures { result ≡ record { setting = P.setting p; input = P.input p; nodes = graph; cache = cache; asked = []; failed = false } }
    {
        Engine {
            alloc,
            p,
            previous: Previous { graph, cache },
            memo: Memo::new(alloc),
            failed: false,
        }
    }

    /// The value of a query. What of it and its reads was asked before isn't asked again; the rest is found green
    /// or run.
    pub fn get(&mut self, q: &Query, meter: &mut P::Tick) -> Result<Bytes, Memory>
        requires kind { q.now.kind < P.height }
        requires query { IsQuery q.now }
        ensures value { IfOk result (λ v. (s : List ℕ) → Before (setup (P.plan self.old.setting) P.kept P.ticking P.height self.old.input self.old.nodes self.old.cache) s → v ≡ denote (P.plan self.old.setting) self.old.input q.now) }
        ensures asks { OnOk result (Asks (setup (P.plan self.old.setting) P.kept P.ticking P.height self.old.input self.old.nodes self.old.cache) q.now self.old.asked self.new.asked) }
        ensures ticks { OnOk result ((s : List ℕ) → Before (setup (P.plan self.old.setting) P.kept P.ticking P.height self.old.input self.old.nodes self.old.cache) s → IsTrue (P.kept P.ticking) → P.Tick.count meter.new ≡ rise (P.Tick.count meter.old) (count_by (stale (setup (P.plan self.old.setting) P.kept P.ticking P.height self.old.input self.old.nodes self.old.cache) s) (drop (length self.old.asked) self.new.asked))) }
        ensures same { self.new ≡ record self.old { asked = self.new.asked; failed = self.new.failed } }
        ensures failed { OnErr result (self.new.failed ≡ true) }
        ensures stays { self.old.failed ≡ true → IsErr result }
    {
        if self.failed {
            return Err(Memory);
        }
        match value_of(
            self.alloc,
            &self.p,
            &self.previous,
            &mut self.memo,
            q,
            meter,
        ) {
            Ok((_, value)) => Ok(value),
            Err(error) => {
                self.failed = true;
                Err(error)
            }
        }
    }

    /// The graph and the cache of the queries that were asked, and what was done for them. Whatever the earlier
    /// build was, they have the form that `with_previous` asks for, and the cache has exactly the nodes of kept
    /// kinds.
    pub fn finish(self) -> Result<(Graph, Cache, Work), Memory>
        ensures asked { IfOk result (λ r. IsPermutation self.asked (queries_of r.0)) }
        ensures graph { IfOk result (λ r. IsGraph r.0) }
        ensures kinds { IfOk result (λ r. All (λ n. n.query.kind < P.height) r.0) }
        ensures cache { IfOk result (λ r. IsCache r.0 r.1) }
        ensures kept { IfOk result (λ r. HasKept P.kept r.0 r.1) }
        ensures of { IfOk result (λ r. (s : List ℕ) → Before (setup (P.plan self.setting) P.kept P.ticking P.height self.input self.nodes self.cache) s → IsBuildOf (P.plan self.setting) P.kept self.input r.0 r.1) }
        ensures all { IfOk result (λ r. r.2.ran + r.2.green ≡ length r.0) }
        ensures red { IfOk result (λ r. (s : List ℕ) → Before (setup (P.plan self.setting) P.kept P.ticking P.height self.input self.nodes self.cache) s → r.2.red ≡ count_by (is_red (setup (P.plan self.setting) P.kept P.ticking P.height self.input self.nodes self.cache) s) self.asked) }
        ensures stays { self.failed ≡ true → IsErr result }
    {
        let Engine {
            alloc,
            p,
            previous,
            memo,
            failed,
        } = self;
        if failed {
            return Err(Memory);
        }
        graph_of(alloc, &p, &previous, &memo)
    }
}
