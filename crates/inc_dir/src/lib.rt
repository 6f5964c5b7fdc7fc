//! The directory as a session sees it: a trait, and two of them for tests and models.
//!
//! `inc_base`, `inc_fs`, `inc_names` and `inc_proto` stand below. A `Dir` may tell its history, which stays
//! legal, and whatever it is, its replies are of the kinds of the table. `MemDir` works over a ground in
//! memory and tells all; `ReplayDir` answers from a list and tells nothing. Open the trait in `dir` first,
//! and `specs/Growth.antt` of `inc_proto` for what "tells on" means.
#![tactic(auto)]

mod dir;
mod faults;
mod foreign;
mod mem;
mod replay;

pub use dir::Dir;
pub use foreign::Foreign;
pub use mem::MemDir;
pub use replay::ReplayDir;
