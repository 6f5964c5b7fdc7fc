//! The files of a session, read back.

ghost use Rattle.std.specs.Prelude.{◌≡◌, ◌↔◌, IfOk, IsTrue};
ghost use Rattle.inc_graph.specs.Graphs.{IsGraph};
ghost use Rattle.inc_products.specs.Fronts.{IsGraphFile};
ghost use Rattle.inc_products.specs.Loads.{IsLoaded};
ghost use Rattle.inc_products.specs.Named.{value_at};
ghost use Rattle.inc_products.specs.Saved.{graph_name};
ghost use Rattle.inc_products.specs.Starts.{IsStart};

use crate::front::{Front, read_front};
use crate::kept::values_of;
use crate::named::FileSet;
use crate::names::graph_name;
use crate::start::Start;
use crate::walk::first_damaged;
use inc_base::{Label, Memory};
use inc_graph::{Cache, Graph};
use inc_wire::Header;

/// What the files of a session are: the graph and the values whose files they are, by the wanted header; or that the
/// graph is of another compiler or another crate; or the first file, by its name, that isn't as it should be. A file
/// that the graph demands and the set lacks counts at its name, and so does one that isn't demanded. `Memory` where
/// there is none for graph and values. (docs/FORMATS.md, "Files")
pub fn read_files(want: &Header, set: FileSet) -> Result<Start, Memory>
    requires { want.now.format ≡ 1 }
    ensures { IfOk result (IsStart want.now set) }
{
    let start = read_set(want, &set);
    drop(set);
    start
}

fn read_set(want: &Header, set: &FileSet) -> Result<Start, Memory>
    requires { want.now.format ≡ 1 }
    ensures { IfOk result (IsStart want.now set.now) }
{
    let name = graph_name(set.allocator())?;
    match read_front(set.allocator(), want, set.get(&name)) {
        Ok(Front::Graph(nodes)) => {
            drop(name);
            load(want, nodes, set)
        }
        Ok(Front::Other) => {
            drop(name);
            Ok(Start::OtherCompiler)
        }
        Ok(Front::Damaged) => Ok(Start::Damaged(name)),
        Err(refused) => {
            drop(name);
            Err(refused)
        }
    }
}

/// What the other files are, beside the graph's.
#[derive(Debug, Drop)]
pub(crate) enum Loaded {
    /// All are well, with these values.
    Whole(Cache),
    /// The file of this name is the first damaged one.
    Damaged(Label),
}

fn load(want: &Header, nodes: Graph, set: &FileSet) -> Result<Start, Memory>
    requires format { want.now.format ≡ 1 }
    requires graph { IsGraphFile want.now (value_at graph_name set.now) nodes }
    ensures { IfOk result (IsStart want.now set.now) }
{
    match load_values(want, &nodes, set) {
        Ok(Loaded::Whole(values)) => Ok(Start::Whole(nodes, values)),
        Ok(Loaded::Damaged(name)) => {
            drop(nodes);
            Ok(Start::Damaged(name))
        }
        Err(refused) => {
            drop(nodes);
            Err(refused)
        }
    }
}

fn load_values(want: &Header, nodes: &Graph, set: &FileSet) -> Result<Loaded, Memory>
    requires format { want.now.format ≡ 1 }
    requires graph { IsGraph nodes.now }
    ensures { IfOk result (IsLoaded want.now nodes.now set.now) }
{
    let _pairs = set.pairs();
    match first_damaged(want, nodes, set)? {
        Some(name) => Ok(Loaded::Damaged(name)),
        None => Ok(Loaded::Whole(values_of(nodes, set)?)),
    }
}
