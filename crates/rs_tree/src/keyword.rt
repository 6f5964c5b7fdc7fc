//! The keywords, by their length.

ghost use Rattle.std.specs.Prelude.{◌≡◌, length, List, ℕ, map};
ghost use Rattle.rs_tree.specs.Kinds.{keywords, kind_in, of_length};

use crate::kind::Kind;

/// What the keyword is, or None for another text.
pub fn keyword_of(text: &[u8]) -> Option<Kind>
    ensures { result ≡ kind_in keywords text.now }
{
    match text.len() {
        2 => two_letters(text),
        3 => three_letters(text),
        4 => four_letters(text),
        5 => five_letters(text),
        6 => six_letters(text),
        7 => seven_letters(text),
        8 => eight_letters(text),
        _ => None,
    }
}

fn row_of(rows: &[(&[u8], Kind)], text: &[u8]) -> Option<Kind>
    ensures { result ≡ kind_in (map (λ r. (r.0.now, r.1)) rows.now) text.now }
{
    for row in rows {
        if text == row.0 {
            return Some(row.1);
        }
    }
    None
}

#[tactic(auto, unfolding(crate::specs::Kinds::keywords))]
fn two_letters(text: &[u8]) -> Option<Kind>
    ensures { result ≡ kind_in (of_length 2 keywords) text.now }
{
    row_of(
        &[
            (b"as".as_slice(), Kind::Reserved),
            (b"do".as_slice(), Kind::Reserved),
            (b"fn".as_slice(), Kind::Fn),
            (b"if".as_slice(), Kind::If),
            (b"in".as_slice(), Kind::Reserved),
        ],
        text,
    )
}

#[tactic(auto, unfolding(crate::specs::Kinds::keywords))]
fn three_letters(text: &[u8]) -> Option<Kind>
    ensures { result ≡ kind_in (of_length 3 keywords) text.now }
{
    row_of(
        &[
            (b"box".as_slice(), Kind::Reserved),
            (b"dyn".as_slice(), Kind::Reserved),
            (b"for".as_slice(), Kind::Reserved),
            (b"gen".as_slice(), Kind::Reserved),
            (b"i64".as_slice(), Kind::Int),
            (b"let".as_slice(), Kind::Let),
            (b"mod".as_slice(), Kind::Mod),
            (b"mut".as_slice(), Kind::Mut),
            (b"pub".as_slice(), Kind::Pub),
            (b"ref".as_slice(), Kind::Reserved),
            (b"try".as_slice(), Kind::Reserved),
            (b"use".as_slice(), Kind::Reserved),
        ],
        text,
    )
}

#[tactic(auto, unfolding(crate::specs::Kinds::keywords))]
fn four_letters(text: &[u8]) -> Option<Kind>
    ensures { result ≡ kind_in (of_length 4 keywords) text.now }
{
    row_of(
        &[
            (b"bool".as_slice(), Kind::Bool),
            (b"else".as_slice(), Kind::Else),
            (b"enum".as_slice(), Kind::Reserved),
            (b"impl".as_slice(), Kind::Reserved),
            (b"loop".as_slice(), Kind::Reserved),
            (b"move".as_slice(), Kind::Reserved),
            (b"priv".as_slice(), Kind::Reserved),
            (b"self".as_slice(), Kind::Reserved),
            (b"Self".as_slice(), Kind::Reserved),
            (b"true".as_slice(), Kind::True),
            (b"type".as_slice(), Kind::Reserved),
        ],
        text,
    )
}

#[tactic(auto, unfolding(crate::specs::Kinds::keywords))]
fn five_letters(text: &[u8]) -> Option<Kind>
    ensures { result ≡ kind_in (of_length 5 keywords) text.now }
{
    row_of(
        &[
            (b"async".as_slice(), Kind::Reserved),
            (b"await".as_slice(), Kind::Reserved),
            (b"break".as_slice(), Kind::Reserved),
            (b"const".as_slice(), Kind::Const),
            (b"crate".as_slice(), Kind::Crate),
            (b"false".as_slice(), Kind::False),
            (b"final".as_slice(), Kind::Reserved),
            (b"macro".as_slice(), Kind::Reserved),
            (b"match".as_slice(), Kind::Reserved),
            (b"super".as_slice(), Kind::Reserved),
            (b"trait".as_slice(), Kind::Reserved),
            (b"where".as_slice(), Kind::Reserved),
            (b"while".as_slice(), Kind::While),
            (b"yield".as_slice(), Kind::Reserved),
        ],
        text,
    )
}

#[tactic(auto, unfolding(crate::specs::Kinds::keywords))]
fn six_letters(text: &[u8]) -> Option<Kind>
    ensures { result ≡ kind_in (of_length 6 keywords) text.now }
{
    row_of(
        &[
            (b"become".as_slice(), Kind::Reserved),
            (b"extern".as_slice(), Kind::Reserved),
            (b"inline".as_slice(), Kind::Inline),
            (b"return".as_slice(), Kind::Return),
            (b"static".as_slice(), Kind::Reserved),
            (b"struct".as_slice(), Kind::Reserved),
            (b"typeof".as_slice(), Kind::Reserved),
            (b"unsafe".as_slice(), Kind::Reserved),
        ],
        text,
    )
}

#[tactic(auto, unfolding(crate::specs::Kinds::keywords))]
fn seven_letters(text: &[u8]) -> Option<Kind>
    ensures { result ≡ kind_in (of_length 7 keywords) text.now }
{
    row_of(
        &[
            (b"println".as_slice(), Kind::Println),
            (b"unsized".as_slice(), Kind::Reserved),
            (b"virtual".as_slice(), Kind::Reserved),
        ],
        text,
    )
}

#[tactic(auto, unfolding(crate::specs::Kinds::keywords))]
fn eight_letters(text: &[u8]) -> Option<Kind>
    ensures { result ≡ kind_in (of_length 8 keywords) text.now }
{
    row_of(
        &[
            (b"abstract".as_slice(), Kind::Reserved),
            (b"continue".as_slice(), Kind::Reserved),
            (b"override".as_slice(), Kind::Reserved),
        ],
        text,
    )
}
