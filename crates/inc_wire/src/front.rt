//! Numbers, truth values and texts, taken off the front of bytes.

ghost use Rattle.std.specs.Prelude.{◌<◌, ◌^◌, length};
ghost use Rattle.std.specs.Option.{option_map};
ghost use Rattle.inc_wire.specs.Fits.{Always, FitsText};
ghost use Rattle.inc_wire.specs.Forms.{flag_form, number_form, text_form};
ghost use Rattle.inc_wire.specs.Readings.{Takes};

use crate::cursor::Cursor;

/// Takes a number in one byte, or None exactly where no byte is left.
pub fn take_u8(from: &mut Cursor) -> Option<u8>
    ensures { Takes (λ v. v < 2 ^ 8) (number_form 1) from.old from.new result }
{
    let value = from.number(1)?;
    Some(value as u8)
}

/// Takes a number in two bytes, or None exactly where fewer are left.
pub fn take_u16(from: &mut Cursor) -> Option<u16>
    ensures { Takes (λ v. v < 2 ^ 16) (number_form 2) from.old from.new result }
{
    let value = from.number(2)?;
    Some(value as u16)
}

/// Takes a number in four bytes, or None exactly where fewer are left.
pub fn take_u32(from: &mut Cursor) -> Option<u32>
    ensures { Takes (λ v. v < 2 ^ 32) (number_form 4) from.old from.new result }
{
    let value = from.number(4)?;
    Some(value as u32)
}

/// Takes a number in eight bytes, or None exactly where fewer are left.
pub fn take_u64(from: &mut Cursor) -> Option<u64>
    ensures { Takes (λ v. v < 2 ^ 64) (number_form 8) from.old from.new result }
{
    from.number(8)
}

/// Takes a truth value: a byte that is 0 or 1, and None exactly where no such byte is next.
pub fn take_flag(from: &mut Cursor) -> Option<bool>
    ensures { Takes Always flag_form from.old from.new result }
{
    match take_u8(from)? {
        0 => Some(false),
        1 => Some(true),
        _ => None,
    }
}

/// Takes a text, or None exactly where no text is next.
pub fn take_text<'a>(from: &mut Cursor<'a>) -> Option<&'a [u8]>
    ensures { Takes FitsText text_form from.old from.new (option_map (λ text. text.now) result) }
{
    from.text()
}
