//! What is built of a text without errors, as laws: its units have names that differ, and its objects link.
//!
//! `rs_queries` stands below. Open `specs/Told.antt` first, and then `src/laws.rt`.
#![tactic(auto)]

mod laws;

pub use laws::{objects_link, units_have_names};
