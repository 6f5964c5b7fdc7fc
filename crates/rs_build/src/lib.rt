//! A build by queries: the roots of a text are asked of an engine, and what they say is put together.
//!
//! `rs_provider` answers the queries, `inc_engine` marks them, and `plan_laws` says what their values are; all stand below. Open
//! `specs/Assembled.antt` of `plan_laws` for what is told and made of the values of the roots, then `build`.
#![tactic(auto)]

mod asked;
mod asking;
mod laws;
mod made;
mod queried;
mod told;
mod tree;

pub use laws::fresh_builds_make_all;
pub use queried::{Queried, build};
