//! The bytes of a constant's value.

ghost use Rattle.std.specs.Prelude.{◌≡◌, ◌++◌, ◌<◌, ◌^◌, IfOk, OnOk};
ghost use Rattle.inc_wire.specs.Readings.{IsReadAs, Takes};
ghost use Rattle.rs_answers.specs.Fits.{FitsConst, HasWhy};
ghost use Rattle.rs_answers.specs.Forms.{const_form, value_form, why_code};

use inc_base::{Bytes, Memory};
use inc_wire::{Cursor, Read, put_number, read_whole, take_u8, take_u64};
use rs_tree::Const;
use std::alloc::Global;

/// The bytes of a constant's value, or of why it has none. `Memory` where there is none for them. (docs/FORMATS.md, "Queries")
pub fn const_bytes(alloc: Global, value: Const) -> Result<Bytes, Memory>
    ensures bytes { IfOk result (λ bytes. bytes ≡ const_form value) }
    ensures range { IfOk result (λ bytes. FitsConst value) }
{
    let mut bytes = Bytes::new(alloc);
    put_number(&mut bytes, 1, u64::from(why_code(value)))?;
    put_value(&mut bytes, value)?;
    Ok(bytes)
}

/// A constant's value, from its bytes, as `const_bytes` gives them. None exactly where no value has these bytes. `Memory` is never
/// answered. (docs/FORMATS.md, "Queries")
pub fn read_const(alloc: Global, bytes: &[u8]) -> Result<Option<Const>, Memory>
    ensures { IfOk result (IsReadAs FitsConst const_form bytes.now) }
{
    read_whole::<ConstForm>(alloc, bytes)
}

/// The form of a constant's value.
pub struct ConstForm;

impl Read for ConstForm {
    type Value = Const;

    ghost form = { const_form };

    ghost fits = { FitsConst };

    fn take(alloc: Global, from: &mut Cursor) -> Result<Option<Const>, Memory> {
        let Some(why) = take_u8(from) else {
            return Ok(None);
        };
        Ok(take_for(why, from))
    }
}

/// Why there is no value; 0 where there is one.
fn why_code(value: Const) -> u8
    ensures { result ≡ why_code value }
{
    match value {
        Const::Int(_) | Const::Bool(_) => 0,
        Const::Cycle => 1,
        Const::Overflow => 2,
        Const::DivZero => 3,
        Const::Bad => 4,
    }
}

fn put_value(to: &mut Bytes, value: Const) -> Result<(), Memory>
    ensures bytes { OnOk result (to.new ≡ to.old ++ value_form value) }
    ensures range { OnOk result (FitsConst value) }
{
    match value {
        Const::Int(number) => {
            put_number(to, 1, 1)?;
            put_number(to, 8, number.cast_unsigned())
        }
        Const::Bool(truth) => {
            put_number(to, 1, 2)?;
            put_number(to, 8, u64::from(truth))
        }
        Const::Cycle | Const::Overflow | Const::DivZero | Const::Bad => Ok(()),
    }
}

/// What follows the byte that says why there is no value, or None where it is no such byte or no value is next.
fn take_for(why: u8, from: &mut Cursor) -> Option<Const>
    ensures { Takes (HasWhy why) value_form from.old from.new result }
{
    match why {
        0 => take_value(from),
        1 => Some(Const::Cycle),
        2 => Some(Const::Overflow),
        3 => Some(Const::DivZero),
        4 => Some(Const::Bad),
        _ => None,
    }
}

/// A value: its type and itself.
fn take_value(from: &mut Cursor) -> Option<Const>
    ensures { Takes (HasWhy 0) value_form from.old from.new result }
{
    match take_u8(from)? {
        1 => Some(Const::Int(take_u64(from)?.cast_signed())),
        2 => match take_u64(from)? {
            0 => Some(Const::Bool(false)),
            1 => Some(Const::Bool(true)),
            _ => None,
        },
        _ => None,
    }
}
