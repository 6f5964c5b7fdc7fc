//! The parser: the tree that fits the tokens, or the first fault.
//!
//! Below it stand `rs_tree`, `rs_grammar`, which has the grammar and what `parse` answers (its
//! `specs/Correct.antt`), and `rs_reader`, which reads what nests in nothing. Open `specs/Reading.antt` of
//! `rs_reader` first: what each function of the parser is proved to do.
#![tactic(auto)]

mod body;
mod expression;
mod item;
mod optional;
mod parser;
mod part;
mod statement;

pub use parser::parse;
pub use rs_grammar::SyntaxFault;
pub use rs_reader::DEEPEST;
