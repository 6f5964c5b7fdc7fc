//! The reader of tokens: those that are left of a text, what is seen of them, and the forms that hold no
//! other form of their kind.
//!
//! Below it stand `rs_tree` and `rs_grammar`; the forms that hold each other stand above, in `rs_parse`. Open
//! `specs/Reading.antt` first: what each function that reads is proved to do; then `src/tokens.rt`.
#![tactic(auto)]

mod end;
mod fault;
mod forms;
mod lexeme;
mod nesting;
mod optional;
mod params;
mod paths;
mod signs;
mod tokens;
mod twice;
mod typing;

pub use end::{effect, finish};
pub use fault::Fault;
pub use forms::{
    all_of, and_of, arith_of, call_of, compared, fitted, grouped, or_none, or_of, path_of, signed,
};
pub use lexeme::{Lexeme, kinds_of};
pub use nesting::{DEEPEST, first_too_deep};
pub use optional::optional_token;
pub use params::parameters;
pub use paths::route;
pub use signs::{cmp_sign, literal, product_sign, sum_sign, unary_sign};
pub use tokens::{Tokens, Whole};
pub use twice::check_names;
pub use typing::{optional_gives, optional_typing, type_name};
