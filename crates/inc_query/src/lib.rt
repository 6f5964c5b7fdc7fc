//! Queries: what is asked of a text, and what a type that answers them means.
//!
//! A query has a kind, a module and a name. What answers queries is a type with the trait `Providers`; what it
//! means is a plan for each query, from which the query's value and its reads follow, and with them the law of
//! reads. `inc_base` stands below. Open `specs/Queries.antt` for the form of a query, and `specs/Plans.antt` for
//! plans.
#![tactic(auto)]

mod answer;
mod laws;
mod providers;
mod query;

pub use answer::Answer;
pub use laws::{law_of_reads, tick_raises};
pub use providers::{Providers, Tally};
pub use query::{KINDS, OBJECT, Query};
