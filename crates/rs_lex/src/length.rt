//! How long the forms at the beginning of a text are.

ghost use Rattle.std.specs.Prelude.{◌≡◌, ◌≤◌, true, false, max, take, length, nat_eq, nat_le, ◌&&◌};
ghost use Rattle.std.specs.Cmp.Lexicographic.{pointwise};
ghost use Rattle.std.specs.List.{list_any, prefix_len, take_while};
ghost use Rattle.rs_tree.specs.Words.{is_word_byte};
ghost use Rattle.rs_lex.specs.Pieces.{is_blank, is_comment_byte, is_doc, is_mark, refused};
ghost use Rattle.rs_lex.specs.Scan.{form_length, is_comment, longest_front, comment_length};

use rs_tree::{is_word_byte, sign_of};

pub fn is_blank(byte: u8) -> bool
    ensures { result ≡ is_blank byte }
{
    byte == b'\t' || byte == b'\n' || byte == b'\r' || byte == b' '
}

fn is_comment_byte(byte: u8) -> bool
    ensures { result ≡ is_comment_byte byte }
{
    byte == b'\t' || byte == b'\r' || (byte >= 32 && byte <= 126)
}

fn word_length(rest: &[u8]) -> usize
    ensures { result ≡ prefix_len is_word_byte rest.now }
{
    rest.iter().take_while(|byte| is_word_byte(**byte)).count()
}

fn comment_run(rest: &[u8]) -> usize
    ensures { result ≡ prefix_len is_comment_byte rest.now }
{
    rest.iter()
        .take_while(|byte| is_comment_byte(**byte))
        .count()
}

#[tactic(auto, unfolding(crate::specs::Pieces::refused))]
fn is_refused(text: &[u8]) -> bool
    ensures { result ≡ list_any (pointwise nat_eq text.now) refused }
{
    text == b"<-".as_slice() || text == b"//".as_slice() || text == b"/*".as_slice()
}

fn is_mark(text: &[u8]) -> bool
    ensures { result ≡ is_mark text.now }
{
    sign_of(text).is_some() || is_refused(text)
}

fn begins_with_mark(rest: &[u8], count: usize) -> bool
    ensures { result ≡ (nat_le count (length rest.now) && is_mark (take count rest.now)) }
{
    count <= rest.len() && is_mark(&rest[..count])
}

fn mark_length(rest: &[u8]) -> usize
    ensures { result ≡ longest_front is_mark 4 rest.now }
{
    let mut count = 4;
    while count > 0 && !begins_with_mark(rest, count) {
        count -= 1;
    }
    count
}

pub fn form_length(rest: &[u8]) -> usize
    ensures value { result ≡ form_length rest.now }
    ensures within { result ≤ length rest.now }
{
    match word_length(rest) {
        0 => mark_length(rest),
        length => length,
    }
}

fn is_doc(text: &[u8]) -> bool
    ensures { result ≡ is_doc text.now }
{
    text.starts_with(b"//!".as_slice())
        || (text.starts_with(b"///".as_slice()) && !text.starts_with(b"////".as_slice()))
}

fn is_comment(text: &[u8]) -> bool
    ensures { result ≡ is_comment text.now }
{
    text.starts_with(b"//".as_slice()) && !is_doc(text)
}

/// The length of the comment that begins here, or 0.
pub fn comment_length(rest: &[u8]) -> usize
    ensures { result ≡ comment_length rest.now }
{
    if !rest.starts_with(b"//".as_slice()) {
        return 0;
    }
    let count = comment_run(rest);
    if is_comment(&rest[..count]) { count } else { 0 }
}
