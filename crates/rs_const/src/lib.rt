//! The values of constants: numbers and truth values, or why there is none.
//!
//! The constants that expressions name are settled in an order in which each comes after those that it names; what is left
//! then reaches itself or leads to what does. `rs_types` and `rs_value` stand below, what checks and what lowers stand
//! above. Open `specs/Constants.antt` for the rules.
#![tactic(auto)]

mod known;
mod order;
mod settle;
mod value;
mod worth;

pub use known::Entry;
pub use value::{const_value, const_values};
