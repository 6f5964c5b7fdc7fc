//! A text, lexed and parsed: its tree, or the first of its faults.
//!
//! Below it stand `rs_lex` and `rs_parse`. Open `specs/Text.antt` first: what a text is read as, as a function
//! of its bytes, and what that says of it.
#![tactic(auto)]

mod fault;
mod laws;
mod text;

pub use fault::TextFault;
pub use laws::{lexed_tokens_are_lexed, lexed_tokens_fit, texts_are_read};
pub use text::read_text;
