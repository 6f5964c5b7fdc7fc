//! Rows of texts for the programs that show by rows what a compiler says of them: headings, and a text under each.
//!
//! `inc_base` stands below. Who asks gives an `Answer`; `Rows` cuts its input into headings and texts. Open `rows` first.
#![tactic(auto)]

mod rows;

pub use rows::{Answer, Rows};
