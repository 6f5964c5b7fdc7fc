//! A build of a text by its queries.

ghost use Rattle.std.specs.Prelude.{◌≡◌, ◌≤◌, ◌∷◌, ℕ, List, [], length, Ok, IfOk, OnOk, IsPermutation};
ghost use Rattle.std.specs.List.{count_by};
ghost use Rattle.inc_query.specs.Ticks.{rise};
ghost use Rattle.inc_query.specs.declared.query.Query.{Query};
ghost use Rattle.inc_graph.specs.Graphs.{IsCache, IsGraph, queries_of};
ghost use Rattle.inc_engine.specs.Builds.{stale};
ghost use Rattle.inc_engine.specs.Finish.{HasKept};
ghost use Rattle.inc_roots.specs.Asked.{AsksAll};
ghost use Rattle.rs_text.specs.Text.{text_of};
ghost use Rattle.rs_queries.specs.Built.{IsCompiled, emitted};
ghost use Rattle.rs_queries.specs.Reading.{IsReading};
ghost use Rattle.rs_plans.specs.Steps.{whole};
ghost use Rattle.rs_provider.specs.Kept.{is_kept};
ghost use Rattle.plan_laws.specs.Assembled.{IsAssembled, roots_by, roots_read};
ghost use Rattle.rs_build.specs.Over.{HasTicked, IsAsBefore, IsOver, IsReached, IsReadAssembled, WasAsked, begun, kept_values, reached_graph, setup_of, value_of};

use crate::asked::index_query;
use crate::laws::fresh_builds_make_all;
use crate::tree::compiled_tree;
use inc_base::{Compiler, List, Memory, Meter};
use inc_engine::{Engine, Work};
use inc_graph::{Cache, Graph};
use inc_roots::{ask_all, one_graph};
use plan_laws::builds_by_queries_are_clean;
use range_laws::texts_fit;
use rs_grammar::trees_are_tidy;
use rs_names::index;
use rs_provider::Rust;
use rs_queries::{Compiled, Reading, compile_read};
use rs_text::texts_are_read;
use rs_tree::Crate;
use std::alloc::Global;

/// What a build by queries gives.
#[derive(Drop)]
pub struct Queried {
    /// The text's diagnostics, how many units it has, and what is built of it.
    pub compiled: Compiled,
    /// The queries that the roots reach, each with the print of its value and with its reads.
    pub graph: Graph,
    /// The values that are kept of them.
    pub cache: Cache,
    /// How many of them were run and how many found green.
    pub work: Work,
}

/// Compiles a text by its queries, over the graph and the cache of an earlier build, which are empty where there is none: its roots are
/// asked, what they say is put together, and the engine is finished (docs/ARCHITECTURE.md, "How a query runs").
///
/// What is compiled is what the clean build says of the text, where it has at most 1,048,576 bytes, and the graph and the cache are those of the text and of no other, whatever
/// was taken over from the earlier build. The meter rises by the objects that were made anew: where there is no
/// earlier build by all, as the clean build's does. `Memory` where there is none for any of this.
pub fn build(
    alloc: Global,
    provider: Rust,
    reading: &Reading,
    graph: Graph,
    cache: Cache,
    meter: &mut Meter,
) -> Result<Queried, Memory>
    requires reading { IsReading provider.text reading.now }
    requires graph { IsGraph graph }
    requires cache { IsCache graph cache }
    ensures compiled { IfOk result (λ q. (s : List ℕ) → IsOver (begun provider.text provider.compiler graph cache) s → length provider.text ≤ 1048576 → IsCompiled provider.text provider.compiler.level q.compiled) }
    ensures graph { IfOk result (λ q. (s : List ℕ) → IsOver (begun provider.text provider.compiler graph cache) s → q.graph ≡ reached_graph provider.compiler provider.text) }
    ensures cache { IfOk result (λ q. (s : List ℕ) → IsOver (begun provider.text provider.compiler graph cache) s → q.cache ≡ kept_values provider.compiler provider.text) }
    ensures ticked { IfOk result (λ q. (s : List ℕ) → IsOver (begun provider.text provider.compiler graph cache) s → meter.new ≡ rise meter.old (count_by (stale (setup_of (begun provider.text provider.compiler graph cache)) s) (queries_of q.graph))) }
    ensures fresh { IfOk result (λ q. graph ≡ [] → cache ≡ [] → meter.new ≡ rise meter.old (emitted q.compiled)) }
    ensures is_graph { IfOk result (λ q. IsGraph q.graph) }
    ensures is_cache { IfOk result (λ q. IsCache q.graph q.cache) }
    ensures kept { IfOk result (λ q. HasKept is_kept q.graph q.cache) }
{
    builds_by_queries_are_clean();
    texts_fit();
    fresh_builds_make_all();
    let compiler = provider.compiler;
    let mut engine = Engine::with_previous(alloc, provider, graph, cache);
    match compiled_read(alloc, &mut engine, reading, compiler, meter) {
        Ok(compiled) => finished(engine, compiled),
        Err(refused) => {
            drop(engine);
            Err(refused)
        }
    }
}

/// What is compiled of a text that was read, by the values of its roots.
fn compiled_read(
    alloc: Global,
    engine: &mut Engine<Rust>,
    reading: &Reading,
    compiler: Compiler,
    meter: &mut Meter,
) -> Result<Compiled, Memory>
    requires { IsReading engine.old.input reading.now }
    ensures compiled { IfOk result (λ c. (s : List ℕ) → IsOver engine.old s → IsReadAssembled (value_of engine.old) engine.old.input compiler.level c) }
    ensures asked { OnOk result ((s : List ℕ) → IsOver engine.old s → WasAsked (roots_read (value_of engine.old) (text_of engine.old.input)) engine.old engine.new) }
    ensures ticked { OnOk result (HasTicked engine.old engine.new meter.old meter.new) }
    ensures same { OnOk result (IsAsBefore engine.old engine.new) }
{
    match reading {
        Reading::Tree(tree) => compiled_text(alloc, engine, tree, meter),
        Reading::Fault(_) => compiled_fault(alloc, engine, reading, compiler, meter),
    }
}

/// Of a text with a tree. A value that should be a unit's object and is none says that there is no memory for it.
fn compiled_text(
    alloc: Global,
    engine: &mut Engine<Rust>,
    tree: &Crate,
    meter: &mut Meter,
) -> Result<Compiled, Memory>
    requires { text_of engine.old.input ≡ Ok tree.now }
    ensures compiled { IfOk result (λ c. (s : List ℕ) → IsOver engine.old s → IsAssembled (value_of engine.old) tree.now c) }
    ensures asked { OnOk result ((s : List ℕ) → IsOver engine.old s → WasAsked (roots_by (value_of engine.old) tree.now) engine.old engine.new) }
    ensures ticked { OnOk result (HasTicked engine.old engine.new meter.old meter.new) }
    ensures same { OnOk result (IsAsBefore engine.old engine.new) }
{
    texts_are_read();
    trees_are_tidy();
    let index = index(tree)?;
    match compiled_tree(alloc, engine, tree, &index, meter)? {
        Some(compiled) => Ok(compiled),
        None => Err(Memory),
    }
}

/// Of a text with a fault: its one root is the index.
fn compiled_fault(
    alloc: Global,
    engine: &mut Engine<Rust>,
    reading: &Reading,
    compiler: Compiler,
    meter: &mut Meter,
) -> Result<Compiled, Memory>
    ensures compiled { IfOk result (λ c. (bytes : List ℕ) → IsReading bytes reading.now → IsCompiled bytes compiler.level c) }
    ensures asked { OnOk result (WasAsked (whole 1 ∷ []) engine.old engine.new) }
    ensures ticked { OnOk result (HasTicked engine.old engine.new meter.old meter.new) }
    ensures same { OnOk result (IsAsBefore engine.old engine.new) }
{
    ask_index(alloc, engine, meter)?;
    let mut own = Meter::new();
    compile_read(alloc, reading, compiler, &mut own)
}

fn ask_index(alloc: Global, engine: &mut Engine<Rust>, meter: &mut Meter) -> Result<(), Memory>
    ensures asked { OnOk result (WasAsked (whole 1 ∷ []) engine.old engine.new) }
    ensures ticked { OnOk result (HasTicked engine.old engine.new meter.old meter.new) }
    ensures same { OnOk result (IsAsBefore engine.old engine.new) }
{
    let mut roots = List::new(alloc);
    roots.push(index_query(alloc))?;
    let values = ask_all(alloc, engine, roots.as_slice(), meter)?;
    drop(values);
    Ok(())
}

/// The graph and the cache of an engine that was asked some roots, beside what is compiled.
fn finished(engine: Engine<Rust>, compiled: Compiled) -> Result<Queried, Memory>
    ensures compiled { IfOk result (λ q. q.compiled ≡ compiled) }
    ensures is { IfOk result (λ q. (s : List ℕ) (roots : List Query) → IsOver engine s → AsksAll (setup_of engine) roots [] engine.asked → IsReached engine roots q.graph q.cache) }
    ensures asked { IfOk result (λ q. IsPermutation engine.asked (queries_of q.graph)) }
    ensures is_graph { IfOk result (λ q. IsGraph q.graph) }
    ensures is_cache { IfOk result (λ q. IsCache q.graph q.cache) }
    ensures kept { IfOk result (λ q. HasKept is_kept q.graph q.cache) }
{
    one_graph();
    match engine.finish() {
        Ok((graph, cache, work)) => Ok(Queried {
            compiled,
            graph,
            cache,
            work,
        }),
        Err(refused) => {
            drop(compiled);
            Err(refused)
        }
    }
}
