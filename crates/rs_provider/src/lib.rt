//! The provider of the compiler's queries: `Rust`, which answers each as its plan says.
//!
//! A query on its way is a state, which waits for a value or is done; a value that comes leads it on. What is left of the query's plan in
//! each state is said in `specs/Rests.antt`, and each step is proved to go on as the plan does. `rs_plans` stands below with the plans, and
//! the passes of the compiler, which find what the plans say. Open `specs/Rests.antt` first, then `src/state.rt` and `src/provider.rt`.
#![tactic(auto)]

mod answering;
mod beginning;
mod begun;
mod check;
mod constants;
mod desk;
mod each;
mod feeding;
mod form;
mod indexed;
mod items;
mod kept;
mod known;
mod labels;
mod lasts;
mod left;
mod names;
mod naming;
mod object;
mod provider;
mod readied;
mod reading;
mod resuming;
mod search;
mod seeking;
mod seen;
mod sig;
mod state;
mod subject;
mod text;
mod using;
mod walk;
mod worth;

pub use provider::Rust;
pub use reading::places_in;
