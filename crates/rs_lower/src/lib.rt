//! Lowering: from the tree of a function to its intermediate form.
//!
//! Labels and slots are numbered as the tree is gone through, and each path's answer is taken in order of the text. At level 1 what has a
//! value is pushed in place of its parts, which were lowered before.
//!
//! `rs_tree`, `rs_forms`, `rs_lookup`, `rs_value` and `rs_types` stand below. Open `specs/Lowered.antt` first, and then `specs/Code.antt`
//! and `specs/Reduced.antt`.
#![tactic(auto)]

mod answers;
mod body;
mod count;
mod expr;
mod fixed;
mod function;
mod known;
mod locals;
mod lowering;
mod settle;
mod types;

pub use function::{is_within_limits, lower};
pub use lowering::Lowering;
