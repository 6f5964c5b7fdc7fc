//! What the compiler does for each kind of query: the plans of the eleven kinds.
//!
//! A plan says which values a query reads, in order, and which value it gives; `inc_query` says what follows from plans. Everything that
//! finds something of a text stands below: the forms of values in `rs_forms`, `rs_answers` and `rs_object`, and what they are values of
//! in the crates of the passes. What answers queries by these plans stands above. Open `specs/Plans.antt` first.
#![tactic(auto)]

mod laws;

pub use laws::plans_fit;
