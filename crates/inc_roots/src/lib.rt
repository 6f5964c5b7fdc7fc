//! Roots: the graph of an input by the queries that are asked first, and what is kept of it.
//!
//! `inc_query`, `inc_graph` and `inc_engine` stand below. Open `specs/Rooted.antt` for the graph of some roots, and `laws` for why what an
//! engine finishes with is that graph.
#![tactic(auto)]

mod laws;
mod roots;

pub use laws::{fresh_builds, one_graph};
pub use roots::ask_all;
