//! Checking: what is wrong in an item, and which of its locals are never read.
//!
//! One walk over a body types its expressions by `rs_types`, with the locals in scope. `rs_names` and `rs_types` stand
//! below, and what gathers the diagnostics of a text above. Open `specs/Items.antt`, then `specs/Bodies.antt`.
#![tactic(auto)]

mod body;
mod ends;
mod item;
mod lines;
mod params;
mod unused;

pub use item::{check_in, check_item};
