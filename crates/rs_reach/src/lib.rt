//! What is reached by calls: the functions that an item calls, and those that are never used; and what leads back to itself.
//!
//! One search over the items of an index, by their numbers: each function that is found is asked for its calls.
//! `rs_lookup` stands below, what warns and constants above. Open `specs/Search.antt` first, then `specs/Dead.antt`,
//! `specs/Calls.antt` and `specs/Cycles.antt`.
#![tactic(auto)]

mod calls;
mod classes;
mod cycles;
mod dead;
mod keys;
mod laws;
mod marks;
mod reached;
pub mod search;

pub use calls::{Callees, calls_of, places_at};
pub use cycles::in_cycles;
pub use dead::{dead_items, is_marked, number_if, place_of};
pub use keys::places_of_calls;
pub use laws::search_is_exact;
pub use reached::reached_from;
