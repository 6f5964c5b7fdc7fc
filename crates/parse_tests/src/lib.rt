//! Tests of the lexer and the parser, on texts: their tokens, which have a tree, which fault the others have, and
//! the trees, printed.
//!
//! Each expected place and tree is written from the rules of docs/LANGUAGE.md. Open `src/answer.rt` first for
//! how faults are written, and `src/print.rt` for how trees are.
#![tactic(auto)]

#[cfg(test)]
mod answer;
#[cfg(test)]
mod faults;
#[cfg(test)]
mod nesting;
#[cfg(test)]
mod print;
#[cfg(test)]
mod print_statement;
#[cfg(test)]
mod speed;
#[cfg(test)]
mod text;
#[cfg(test)]
mod tokens;
#[cfg(test)]
mod trees;
