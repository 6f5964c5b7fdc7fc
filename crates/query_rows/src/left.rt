//! One build over another.

use inc_base::{Bytes, Compiler, List, Memory, Meter};
use inc_engine::Work;
use inc_graph::{Cache, Graph};
use rs_build::{Queried, build};
use rs_provider::Rust;
use rs_queries::{Compiled, compile_read, read};
use std::alloc::Global;
use std::marker::Model;

/// What a build left: a graph, and the values that are kept of it.
#[derive(Drop)]
pub struct Left {
    pub graph: Graph,
    pub cache: Cache,
}

impl Model for Left {
    ghost use Rattle.std.specs.Prelude.{ℕ, List};
    ghost use Rattle.inc_graph.specs.declared.node.Node.{Node};
    ghost use Rattle.inc_graph.specs.Graphs.{IsGraph, IsCache};

    ghost Value = { List Node × List (ℕ × List ℕ) };

    ghost view = { λ l. (l.graph, l.cache) };

    ghost invariant = { λ l. IsGraph l.graph × IsCache l.graph l.cache };
}

/// What a build did: its diagnostics, how many objects it made of how many units, and whether all that it gives is what a build by direct calls
/// gives.
#[derive(Drop)]
pub struct Done {
    pub diags: Bytes,
    pub emitted: u64,
    pub units: u32,
    pub work: Work,
    pub is_clean: bool,
}

impl Left {
    /// Nothing was built yet.
    pub fn nothing(alloc: Global) -> Left {
        Left {
            graph: List::new(alloc),
            cache: List::new(alloc),
        }
    }

    /// A build of a text over what was left, which leaves its own.
    pub fn build(
        self,
        alloc: Global,
        text: &[u8],
        compiler: Compiler,
    ) -> Result<(Left, Done), Memory> {
        let Left { graph, cache } = self;
        let reading = read(alloc, text)?;
        let provider = Rust::new(Bytes::of(alloc, text)?, compiler);
        let mut meter = Meter::new();
        let queried = build(alloc, provider, &reading, graph, cache, &mut meter)?;
        let mut other = Meter::new();
        let direct = compile_read(alloc, &reading, compiler, &mut other)?;
        let is_clean = are_same(&queried.compiled, &direct);
        let Queried {
            compiled,
            graph,
            cache,
            work,
        } = queried;
        let done = Done {
            diags: diags_of(compiled),
            emitted: meter.count(),
            units: direct.units,
            work,
            is_clean,
        };
        Ok((Left { graph, cache }, done))
    }
}

fn diags_of(compiled: Compiled) -> Bytes {
    let Compiled {
        diags,
        units: _,
        built,
    } = compiled;
    drop(built);
    diags
}

fn are_same(one: &Compiled, other: &Compiled) -> bool {
    if one.units != other.units || one.diags != other.diags {
        return false;
    }
    match (&one.built, &other.built) {
        (Some(one), Some(other)) => one.image == other.image && one.objects == other.objects,
        (None, None) => true,
        _ => false,
    }
}
