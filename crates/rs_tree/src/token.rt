ghost use Rattle.std.proofs.Common.{rules};

use crate::place::At;
use inc_base::{Bytes, Copied};

/// A token: where it begins, and its text.
#[derive(Clone, Debug, Drop)]
pub struct Token {
    pub at: At,
    pub text: Bytes,
}

impl Copied for Token {
    ghost same = { Prim.search rules };
}
