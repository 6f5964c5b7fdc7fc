//! Dependency graphs and the values kept of them, and the bytes of both.
//!
//! A graph is the list of its nodes: queries, each with the print of its value and the positions of the queries that
//! it read. Below it stand `inc_base`, `inc_wire` and `inc_query`. Open `specs/Graphs.antt` first, which says what
//! nodes and values are together, then `specs/Forms.antt`, which says which bytes they have.
#![tactic(auto)]

mod file;
mod laws;
mod node;
mod nodes;
mod order;
mod values;

pub use file::{FILE_FORMAT, put_file_header, read_file};
pub use inc_query::{Answer, Providers, Query, Tally};
pub use laws::{files_are_read_back, files_differ};
pub use node::{Cache, Graph, Node};
pub use nodes::{GraphForm, NodeForm, decode, encode};
pub use order::is_graph;
pub use values::{CacheForm, decode_cache, encode_cache, has_order};
