ghost use Rattle.std.proofs.Common.{rules};

use inc_base::{Bytes, Copied, List};
use inc_query::Query;
use inc_wire::Print;

/// A query, the print of its value, and the positions in the graph of the queries that it read, in the order in
/// which they were first read (docs/FORMATS.md, "The dependency graph").
#[derive(Clone, Debug, Drop)]
pub struct Node {
    pub query: Query,
    pub print: Print,
    pub reads: List<u32>,
}

impl Copied for Node {
    ghost same = { Prim.search rules };
}

/// The nodes, in the order of their queries (`IsGraph` of `specs/Graphs.antt`).
pub type Graph = List<Node>;

/// Values that are kept, each with the position of its node, in the order of the positions (`IsCache` of
/// `specs/Graphs.antt`).
pub type Cache = List<(u32, Bytes)>;
