//! Places in a text.

ghost use Rattle.std.specs.Prelude.{◌≡◌, ◌+◌, ◌<◌, ◌^◌, length, IfOk};
ghost use Rattle.rs_lex.specs.Places.{place_of, place_after};

use inc_base::{MOST, Memory};
use rs_tree::At;

/// The place of a text's first byte.
pub const FIRST: At = At { line: 1, column: 1 };

/// The place after some bytes that begin at `at`.
pub fn place_after(at: At, bytes: &[u8]) -> At
    requires line { at.line + length bytes.now < 2 ^ 32 }
    requires column { at.column + length bytes.now < 2 ^ 32 }
    ensures { result ≡ place_after at bytes.now }
{
    let mut place = at;
    for byte in bytes {
        if *byte == b'\n' {
            place = At {
                line: place.line + 1,
                column: 1,
            };
        } else {
            place.column += 1;
        }
    }
    place
}

/// The place after the last byte of a text. `Memory` where the text is too long for a list.
pub fn end_of(text: &[u8]) -> Result<At, Memory>
    ensures { IfOk result (λ at. at ≡ place_of text.now) }
{
    if text.len() >= MOST {
        return Err(Memory);
    }
    Ok(place_after(FIRST, text))
}
