//! Red-green marking: a build by queries over the graph and the cache of an earlier one.
//!
//! An `Engine` answers queries by its provider, each once, and finds a query of the earlier build green where the
//! values that it read then are still the same. `inc_query` and `inc_graph` stand below. Open `specs/Builds.antt`
//! for what an engine answers, and `cycle` for how it marks.
#![tactic(auto)]

mod build;
mod cycle;
mod done;
mod finish;
mod laws;
mod memo;
mod previous;
mod work;

pub use build::Engine;
pub use laws::builds_follow;
pub use work::Work;
