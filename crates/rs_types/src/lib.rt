//! The types of expressions, and what is wrong in them.
//!
//! A `Typer` walks an expression once, takes what its paths lead to from a list, and keeps the diagnostics and the locals
//! that were read. `rs_tree`, `rs_lookup` and `rs_diag` stand below; constants and checking stand above. Open
//! `specs/Types.antt` for the rules.
#![tactic(auto)]

mod locals;
mod needs;
mod paths;
mod sigs;
mod typer;

pub use locals::Local;
pub use sigs::Sigs;
pub use typer::{Answers, Typer};
