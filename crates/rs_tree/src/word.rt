//! Identifiers and numbers, by their bytes.

ghost use Rattle.std.specs.Prelude.{◌≡◌, ◌<◌, ◌≤◌, ◌^◌, true, IfSome, MatchOption};
ghost use Rattle.std.specs.Option.{SomeIff};
ghost use Rattle.std.specs.List.{list_all};
ghost use Rattle.std.specs.Char.{is_ascii_digit};
ghost use Rattle.rs_tree.specs.Words.{begins, is_identifier, is_letter, is_number, is_number_byte, is_word_byte, value_of};

/// The greatest number, 9223372036854775807.
pub const GREATEST: u64 = 9_223_372_036_854_775_807;

/// Whether an identifier may begin with this byte: a letter or `_`.
fn is_letter(byte: u8) -> bool
    ensures { result ≡ is_letter byte }
{
    byte.is_ascii_alphabetic() || byte == b'_'
}

/// Whether a word may hold this byte: a letter, a digit or `_`.
pub fn is_word_byte(byte: u8) -> bool
    ensures { result ≡ is_word_byte byte }
{
    byte.is_ascii_alphanumeric() || byte == b'_'
}

fn is_number_byte(byte: u8) -> bool
    ensures { result ≡ is_number_byte byte }
{
    byte.is_ascii_digit() || byte == b'_'
}

fn begins_with_letter(text: &[u8]) -> bool
    ensures { result ≡ begins is_letter text.now }
{
    match text {
        [first, ..] => is_letter(*first),
        [] => false,
    }
}

fn begins_with_digit(text: &[u8]) -> bool
    ensures { result ≡ begins is_ascii_digit text.now }
{
    match text {
        [first, ..] => first.is_ascii_digit(),
        [] => false,
    }
}

fn are_word_bytes(text: &[u8]) -> bool
    ensures { result ≡ list_all is_word_byte text.now }
{
    text.iter().all(|byte| is_word_byte(*byte))
}

fn are_number_bytes(text: &[u8]) -> bool
    ensures { result ≡ list_all is_number_byte text.now }
{
    text.iter().all(|byte| is_number_byte(*byte))
}

/// Whether the text is an identifier; keywords are.
pub fn is_identifier(text: &[u8]) -> bool
    ensures { result ≡ is_identifier text.now }
{
    begins_with_letter(text) && text.len() <= 64 && are_word_bytes(text) && text != b"_".as_slice()
}

/// The value of the digits, or None where it is past the greatest number.
fn value_within(text: &[u8]) -> Option<u64>
    requires { list_all is_number_byte text.now ≡ true }
    ensures { MatchOption result (2 ^ 63 ≤ value_of text.now) (λ v. (v ≡ value_of text.now) × (v < 2 ^ 63)) }
{
    let mut value = 0;
    for byte in text {
        if *byte != b'_' {
            let digit = u64::from(*byte - b'0');
            if value > (GREATEST - digit) / 10 {
                return None;
            }
            value = value * 10 + digit;
        }
    }
    Some(value)
}

/// The value of a number's text, or None for a text that is no number. A number has a digit first,
/// then digits and `_`, which count for nothing, and is at most `GREATEST` (docs/LANGUAGE.md, "Tokens").
pub fn number_of(text: &[u8]) -> Option<u64>
    ensures value { SomeIff result (is_number text.now ≡ true) (value_of text.now) }
    ensures small { IfSome result (λ v. v < 2 ^ 63) }
{
    if !begins_with_digit(text) || !are_number_bytes(text) {
        return None;
    }
    value_within(text)
}
