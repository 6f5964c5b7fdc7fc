//! Diagnostics: what can be wrong in a text that parses, with its number and its text.
//!
//! `rs_tree` stands below; what types expressions, checks items and prints lines stands above. Open
//! `specs/Faults.antt` for the text of each.
#![tactic(auto)]

mod fault;

pub use fault::{Fault, Want};
