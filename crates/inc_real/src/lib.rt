//! The directory of sessions on a folder of the system: its files, folders, hard links and file locks.
//!
//! `inc_base`, `inc_fs` and `inc_dir` stand below. `RealDir` keeps the contract of a directory whatever the
//! system answers; what its steps do to the files is told in docs/PROTOCOL.md, "The directory on the system's
//! files", and is in no contract. Open `RealDir` first, and then `Folder` in `folder`, which makes the steps.
#![tactic(auto)]

mod draws;
mod folder;
mod handles;
mod names;
mod places;
mod real;
mod replies;
mod stop;
mod things;

pub use real::RealDir;
pub use stop::Failure;
