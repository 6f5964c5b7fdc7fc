//! Lines of diagnostics: a place of the text, a number and a text, their order, and how they are printed.
//!
//! `rs_tree` stands below, and what gathers the diagnostics of a text above. Open `specs/Lines.antt` first.
#![tactic(auto)]

mod laws;
mod line;
mod lines;

pub use laws::lines_are_told;
pub use line::Line;
pub use lines::Lines;
