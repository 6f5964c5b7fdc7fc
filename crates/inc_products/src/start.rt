use inc_base::Label;
use inc_graph::{Cache, Graph};

/// What the files of a session are read as (docs/FORMATS.md, "Files").
#[derive(Debug, Drop)]
pub enum Start {
    /// They are the files of this graph and these values.
    Whole(Graph, Cache),
    /// The graph is of another compiler or another crate.
    OtherCompiler,
    /// The file of this name is the first that isn't as it should be.
    Damaged(Label),
}
