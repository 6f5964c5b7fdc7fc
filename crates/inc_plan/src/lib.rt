//! Plans: what is asked of a directory step by step, and how it goes on by each reply.
//!
//! `inc_base`, `inc_fs` and `inc_proto` stand below. A session states its order once, as a plan, and its code
//! walks through it. Open `specs/Plan.antt` first: what a plan asks for after some steps, which steps follow
//! it, and when each step that it asks for is permitted; then `specs/PlanLaws.antt`.
#![tactic(auto)]

mod laws;

pub use laws::plans_are_followed;
