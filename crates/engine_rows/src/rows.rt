//! Rows: texts and names, each built over the row before.
use crate::toy::Toy;
use inc_base::{Bytes, Memory, Meter};
use inc_engine::{Engine, Work};
use inc_graph::{Cache, Graph};
use inc_query::Query;
use std::alloc::Global;
use std::marker::Model;

/// What a build left: a graph, and the values that are kept of it.
#[derive(Drop)]
struct Left {
    graph: Graph,
    cache: Cache,
}

impl Model for Left {
    ghost use Rattle.std.specs.Prelude.{ℕ, List};
    ghost use Rattle.inc_graph.specs.declared.node.Node.{Node};
    ghost use Rattle.inc_graph.specs.Graphs.{IsGraph, IsCache};

    ghost Value = { List Node × List (ℕ × List ℕ) };

    ghost view = { λ l. (l.graph, l.cache) };

    ghost invariant = { λ l. IsGraph l.graph × IsCache l.graph l.cache };
}

/// The answers so far, and what the last build left.
#[derive(Drop)]
pub struct Rows {
    alloc: Global,
    answers: Bytes,
    left: Option<Left>,
}

impl Rows {
    pub fn new(alloc: Global) -> Rows {
        Rows {
            alloc,
            answers: Bytes::new(alloc),
            left: None,
        }
    }

    pub fn answers(&self) -> &[u8] {
        self.answers.as_slice()
    }

    /// Builds the next row, which has no line feed, and writes its answers.
    pub fn read(&mut self, line: &[u8]) -> Result<(), Memory> {
        let alloc = self.alloc;
        let mut words = line.split(|byte| *byte == b' ');
        let Some(text) = words.next() else {
            return Ok(());
        };
        let toy = Toy {
            text: Bytes::of(alloc, text)?,
        };
        let mut engine = match self.left.take() {
            Some(left) => {
                let Left { graph, cache } = left;
                Engine::with_previous(alloc, toy, graph, cache)
            }
            None => Engine::fresh(alloc, toy),
        };
        let mut meter = Meter::new();
        for name in words {
            let value = ask(alloc, &mut engine, name, &mut meter)?;
            self.answers.append(value.as_slice())?;
            self.answers.append(b" ")?;
        }
        let (graph, cache, work) = engine.finish()?;
        self.left = Some(Left { graph, cache });
        self.tell(work, meter.count())
    }

    fn tell(&mut self, work: Work, ticks: u64) -> Result<(), Memory> {
        let alloc = self.alloc;
        let text = format!(in alloc;
            "ran {} green {} red {} ticks {ticks}\n",
            work.ran, work.green, work.red
        )?;
        self.answers.append(text.as_bytes())
    }
}

fn ask(
    alloc: Global,
    engine: &mut Engine<Toy>,
    name: &[u8],
    meter: &mut Meter,
) -> Result<Bytes, Memory> {
    let q = Query {
        kind: 2,
        module: Bytes::new(alloc),
        name: Bytes::of(alloc, name)?,
    };
    if !q.fits() {
        return Ok(Bytes::new(alloc));
    }
    engine.get(&q, meter)
}
