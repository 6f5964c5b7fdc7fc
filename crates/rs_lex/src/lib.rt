//! The lexer: from the bytes of a text to its tokens, or to its first fault.
//!
//! Below it stand `inc_base` and `rs_tree`, whose `Kind` says what a token is. A text is cut into
//! separators, comments and tokens, each the longest at its place. Open `specs/Tokens.antt` first.
#![tactic(auto)]

mod fault;
mod laws;
mod length;
mod lexer;
mod place;
mod step;

pub use fault::LexFault;
pub use laws::texts_are_answered;
pub use lexer::lex;
pub use place::end_of;
