//! What stands at the beginning of a text.

ghost use Rattle.std.specs.Prelude.{◌≡◌};
ghost use Rattle.std.specs.Option.{option_map};
ghost use Rattle.rs_lex.specs.Scan.{piece_at, token_at, word_at};
ghost use Rattle.rs_lex.specs.Steps.{measured};

use crate::length::{comment_length, form_length, is_blank};
use rs_tree::is_token;

/// What stands at a place: its length, and whether it is a token.
#[derive(Clone, Copy)]
pub struct Step {
    pub length: usize,
    pub token: bool,
}

/// What stands here, or None where nothing does.
pub fn next_step(rest: &[u8]) -> Option<Step>
    ensures { result ≡ option_map measured (piece_at rest.now) }
{
    match rest {
        [] => None,
        [first, ..] if is_blank(*first) => Some(Step {
            length: 1,
            token: false,
        }),
        _ => word_step(rest),
    }
}

fn word_step(rest: &[u8]) -> Option<Step>
    ensures { result ≡ option_map measured (word_at rest.now) }
{
    match comment_length(rest) {
        0 => token_step(rest),
        length => Some(Step {
            length,
            token: false,
        }),
    }
}

fn token_step(rest: &[u8]) -> Option<Step>
    ensures { result ≡ option_map measured (token_at rest.now) }
{
    let length = form_length(rest);
    if is_token(&rest[..length]) {
        Some(Step {
            length,
            token: true,
        })
    } else {
        None
    }
}
