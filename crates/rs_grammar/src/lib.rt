//! The grammar of the language as a value, what a parse answers, and what both say together.
//!
//! Below it stand `inc_base` and `rs_tree`; the functions that parse stand above, in `rs_parse`. Open
//! `specs/Grammar.antt` first: the forms, what matches them and what is a front of them; then
//! `specs/Correct.antt`, what a list of tokens is answered.
#![tactic(auto)]

mod fault;
mod laws;
mod lexed;
mod named;
mod sited;

pub use fault::SyntaxFault;
pub use laws::{
    answers_are_one, answers_are_there, grammars_agree, items_parse_again, parts_stand,
    places_turn, trees_are_tidy,
};
pub use lexed::{absolute, are_lexed};
pub use named::Named;
pub use sited::Sited;
