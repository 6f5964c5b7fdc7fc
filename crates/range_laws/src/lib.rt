//! Ranges, as laws: what the compiler makes of a text of at most 1,048,576 bytes is in the ranges of its types.
//!
//! `plan_laws` and all that it speaks of stand below. Open `src/texts.rt` first, and then `specs/Bounded.antt`.
#![tactic(auto)]

mod diagnostics;
mod forms;
mod texts;
mod trees;

pub use diagnostics::{constants_fit, diagnostics_fit};
pub use forms::{forms_fit, objects_fit};
pub use texts::texts_fit;
pub use trees::{trees_are_bounded, trees_fit};
