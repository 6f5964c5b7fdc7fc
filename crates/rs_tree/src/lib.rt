//! The trees of the language, what the passes over them answer, and what a token is.
//!
//! Below it stands `inc_base`. Trees recurse through `Items` and `Boxed`, so that contracts see lists
//! and values; definitions go over the plain mirror of them. Open `specs/Plain.antt` first, and
//! `specs/Kinds.antt` for what a token is.
#![tactic(auto)]

mod answers;
mod copies;
mod index;
mod ir;
mod keyword;
mod kind;
mod laws;
mod place;
mod sign;
mod token;
mod tree;
mod word;

pub use answers::{Const, Diag, Found};
pub use index::{Index, IndexFault, IndexItem, Sig, TextFault};
pub use ir::{Instr, Ir};
pub use kind::{Kind, is_token, kind_of};
pub use laws::{
    answers_stand_at_leaves, mirrors_differ, mirrors_have_parts, orders_are_total, parts_weigh_less,
};
pub use place::{At, Place};
pub use sign::sign_of;
pub use token::Token;
pub use tree::{
    ArithOp, Body, CmpOp, Crate, Expr, Form, Item, Param, Path, Placed, Stmt, Typ, UnaryOp,
};
pub use word::{GREATEST, is_identifier, is_word_byte, number_of};
