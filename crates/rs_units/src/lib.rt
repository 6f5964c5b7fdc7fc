//! The units of a program: which modules are compiled to an object of their own, and the functions of each.
//!
//! `rs_reach` stands below, whose search the members come from. Open `specs/Units.antt` and `specs/Members.antt` first.
#![tactic(auto)]

mod graph;
mod kinds;
mod known;
mod laws;
mod owners;

pub use graph::{CallGraph, members, wanted};
pub use laws::members_are_reached;
pub use owners::units;
