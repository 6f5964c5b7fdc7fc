//! A session: it asks for its steps one by one, is fed the replies, and ends with an outcome.
//!
//! `inc_base`, `inc_fs`, `inc_names`, `inc_wire`, `inc_proto`, `inc_laws`, `inc_plan`, `inc_products`, `rs_queries` and `rs_build`
//! stand below. A session touches no directory; whoever drives it makes its steps. Its order is a plan: open
//! `specs/Order.antt` first, and the files that it names for its parts; then `specs/Ends.antt`, which says with
//! which steps it ends how. The code is a walk through the plan (`specs/Made.antt`).
#![tactic(auto)]

mod compile;
mod failing;
mod laws;
mod naming;
mod ops;
mod outcome;
mod part;
mod queue;
mod saved;
mod saving;
mod session;
mod task;

pub use laws::{outcomes_have_causes, steps_are_permitted};
pub use outcome::{Outcome, Used};
pub use saved::Saved;
pub use session::Session;
