ghost use Rattle.std.specs.Prelude.{◌≡◌, ◌++◌, ◌<◌, ◌^◌, length, IfSome, IfNone};
ghost use Rattle.inc_wire.specs.Forms.{IsWidth, number_form, text_form, BeginsWithText};

use std::marker::Model;

/// Reads fields off the front of bytes. Contracts see the bytes that are left.
/// (docs/FORMATS.md, "Fields")
#[derive(Drop)]
pub struct Cursor<'a> {
    rest: &'a [u8],
}

impl<'a> Model for Cursor<'a> {
    ghost use Rattle.std.specs.Prelude.{List, ℕ};

    ghost Value = { List ℕ };

    ghost view = { λ c. c.rest.now };
}

impl<'a> Cursor<'a> {
    /// At the front of these bytes.
    pub fn new(b: &'a [u8]) -> Cursor<'a>
        ensures { result ≡ b.now }
    {
        Cursor { rest: b }
    }

    /// How many bytes are left.
    pub fn left(&self) -> usize
        ensures { result ≡ length self.now }
    {
        self.rest.len()
    }

    /// The bytes that are left.
    pub(crate) fn rest(&self) -> &'a [u8]
        ensures { result.now ≡ self.now }
    {
        self.rest
    }

    /// Takes a number in 1, 2, 4 or 8 bytes. None exactly where too few are left; then nothing is taken.
    pub fn number(&mut self, width: u8) -> Option<u64>
        requires { IsWidth width }
        ensures some { IfSome result (λ v. (v < 256 ^ width) × (self.old ≡ number_form width v ++ self.new)) }
        ensures none { IfNone result ((length self.old < width) × (self.new ≡ self.old)) }
    {
        let width = usize::from(width);
        if self.rest.len() < width {
            return None;
        }
        let (field, rest) = self.rest.split_at(width);
        self.rest = rest;
        Some(number_of(field))
    }

    /// Takes so many bytes. None exactly where fewer are left; then nothing is taken.
    pub fn bytes(&mut self, n: usize) -> Option<&'a [u8]>
        ensures some { IfSome result (λ front. (length front.now ≡ n) × (self.old ≡ front.now ++ self.new)) }
        ensures none { IfNone result ((length self.old < n) × (self.new ≡ self.old)) }
    {
        if self.rest.len() < n {
            return None;
        }
        let (front, rest) = self.rest.split_at(n);
        self.rest = rest;
        Some(front)
    }

    /// Takes a text. None exactly where too few bytes are left for its length or for as many as that
    /// says; then nothing is taken.
    pub fn text(&mut self) -> Option<&'a [u8]>
        ensures some { IfSome result (λ text. (length text.now < 2 ^ 32) × (self.old ≡ text_form text.now ++ self.new)) }
        ensures none { IfNone result ((¬ BeginsWithText self.old) × (self.new ≡ self.old)) }
    {
        let mut ahead = Cursor { rest: self.rest };
        let len = ahead.number(4)? as usize;
        if ahead.rest.len() < len {
            return None;
        }
        let (text, rest) = ahead.rest.split_at(len);
        self.rest = rest;
        Some(text)
    }
}

/// The number in 1, 2, 4 or 8 bytes.
fn number_of(bytes: &[u8]) -> u64
    requires { IsWidth (length bytes.now) }
    ensures fits { result < 256 ^ length bytes.now }
    ensures form { number_form (length bytes.now) result ≡ bytes.now }
{
    match bytes {
        [a] => u64::from(*a),
        [a, b] => u64::from(u16::from_be_bytes([*a, *b])),
        [a, b, c, d] => u64::from(u32::from_be_bytes([*a, *b, *c, *d])),
        [a, b, c, d, e, f, g, h] => u64::from_be_bytes([*a, *b, *c, *d, *e, *f, *g, *h]),
        _ => unreachable!(),
    }
}
