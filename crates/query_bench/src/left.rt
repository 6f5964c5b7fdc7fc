//! One build over another.

use inc_base::{Bytes, Compiler, List, Memory, Meter, VERSION};
use inc_engine::Work;
use inc_graph::{Cache, Graph};
use rs_build::{Queried, build};
use rs_provider::Rust;
use rs_queries::read;
use std::alloc::Global;
use std::marker::Model;
use std::rc::Rc;

/// What a build left: a graph, and the values that are kept of it.
#[derive(Drop)]
pub struct Left {
    graph: Graph,
    cache: Cache,
}

impl Model for Left {
    ghost use Rattle.std.specs.Prelude.{ℕ, List};
    ghost use Rattle.inc_graph.specs.declared.node.Node.{Node};
    ghost use Rattle.inc_graph.specs.Graphs.{IsGraph, IsCache};

    ghost Value = { List Node × List (ℕ × List ℕ) };

    ghost view = { λ l. (l.graph, l.cache) };

    ghost invariant = { λ l. IsGraph l.graph × IsCache l.graph l.cache };
}

impl Left {
    /// Nothing was built yet.
    pub fn nothing(alloc: Global) -> Left {
        Left {
            graph: List::new(alloc),
            cache: List::new(alloc),
        }
    }

    /// A build of a text over what was left, which leaves its own; how many objects it made, and what the engine did.
    pub fn build(self, alloc: Global, text: &[u8]) -> Result<(Left, u64, Work), Memory> {
        let Left { graph, cache } = self;
        let reading = match Rc::new(alloc, read(alloc, text)?) {
            Ok(reading) => reading,
            Err(refused) => {
                drop(refused);
                return Err(Memory);
            }
        };
        let compiler = Compiler {
            version: VERSION,
            level: 1,
        };
        let provider = Rust::of_reading(Bytes::of(alloc, text)?, compiler, reading.clone()?)?;
        let mut meter = Meter::new();
        let queried = build(alloc, provider, reading.as_ref(), graph, cache, &mut meter)?;
        let Queried {
            compiled,
            graph,
            cache,
            work,
        } = queried;
        drop(compiled);
        Ok((Left { graph, cache }, meter.count(), work))
    }
}
