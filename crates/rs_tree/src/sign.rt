//! The signs, and the one string.

ghost use Rattle.std.specs.Prelude.{◌≡◌, [], ◌∷◌, List, ℕ};
ghost use Rattle.rs_tree.specs.Kinds.{kind_in, of_length, signs};

use crate::kind::Kind;

/// What the sign or the string is, or None for another text.
pub fn sign_of(text: &[u8]) -> Option<Kind>
    ensures { result ≡ kind_in signs text.now }
{
    match text {
        [byte] => sign_of_one(*byte),
        [first, second] => sign_of_two(*first, *second),
        [_, _, _, _] => string_of(text),
        _ => None,
    }
}

#[tactic(auto, unfolding(crate::specs::Kinds::signs))]
fn sign_of_one(byte: u8) -> Option<Kind>
    ensures { result ≡ kind_in signs (byte ∷ []) }
{
    match byte {
        b'(' => Some(Kind::LeftParen),
        b')' => Some(Kind::RightParen),
        b'{' => Some(Kind::LeftBrace),
        b'}' => Some(Kind::RightBrace),
        b'[' => Some(Kind::LeftBracket),
        b']' => Some(Kind::RightBracket),
        b'#' => Some(Kind::Hash),
        b';' => Some(Kind::Semicolon),
        b',' => Some(Kind::Comma),
        b':' => Some(Kind::Colon),
        b'=' => Some(Kind::Assign),
        b'<' => Some(Kind::Less),
        b'>' => Some(Kind::Greater),
        b'+' => Some(Kind::Plus),
        b'-' => Some(Kind::Minus),
        b'*' => Some(Kind::Star),
        b'/' => Some(Kind::Slash),
        b'%' => Some(Kind::Percent),
        b'!' => Some(Kind::Not),
        _ => None,
    }
}

#[tactic(auto, unfolding(crate::specs::Kinds::signs))]
fn sign_of_two(first: u8, second: u8) -> Option<Kind>
    ensures { result ≡ kind_in signs (first ∷ second ∷ []) }
{
    match (first, second) {
        (b':', b':') => Some(Kind::DoubleColon),
        (b'-', b'>') => Some(Kind::Arrow),
        (b'=', b'=') => Some(Kind::Equal),
        (b'!', b'=') => Some(Kind::NotEqual),
        (b'<', b'=') => Some(Kind::AtMost),
        (b'>', b'=') => Some(Kind::AtLeast),
        (b'&', b'&') => Some(Kind::And),
        (b'|', b'|') => Some(Kind::Or),
        _ => None,
    }
}

#[tactic(auto, unfolding(crate::specs::Kinds::signs))]
fn string_of(text: &[u8]) -> Option<Kind>
    ensures { result ≡ kind_in (of_length 4 signs) text.now }
{
    if text == b"\"{}\"".as_slice() {
        Some(Kind::Text)
    } else {
        None
    }
}
