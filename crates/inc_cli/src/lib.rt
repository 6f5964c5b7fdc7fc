//! The top calls of the program, over any source, directory and sinks.
//!
//! `run` reads words and a text, drives a session through a directory or makes a clean build, and writes what it
//! came to; it serves `build` and `clean`. Every crate of the repository but the program itself stands below. Open `run`
//! first: its clauses are the theorem. They are spelled in `specs/Run.antt`, over the words of `inc_words`, the order
//! of a session's steps in `inc_session`, the growth of a history in `inc_proto` and the clean build of `rs_queries`.
#![tactic(auto)]

mod answer;
mod build;
mod clean;
mod command;
mod output;
mod source;
mod status;
mod top;
mod visit;

pub use status::Status;
pub use top::run;
