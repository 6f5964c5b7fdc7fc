//! Tests of checking: the diagnostics of texts, by rows.
//!
//! Expected lines are written from the rules of docs/LANGUAGE.md, "Statements" and "Diagnostics". Open `src/rows.rt`.
#![tactic(auto)]

#[cfg(test)]
mod rows;
#[cfg(test)]
mod text;
