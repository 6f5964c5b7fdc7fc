//! The value of an expression whose paths have values: numbers of 64 bits, with the first fault that is met.
//!
//! `rs_tree` stands below; what gives constants their values and what folds stand above. Open `specs/Value.antt`.
#![tactic(auto)]

mod operators;
mod trap;
mod value;

pub use operators::{combine, compare, given, unary};
pub use trap::Trap;
pub use value::value_of;
