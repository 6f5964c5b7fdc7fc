//! The bytes of what a text with a fault has in place of an index.

ghost use Rattle.std.specs.Prelude.{◌≡◌, IfOk};
ghost use Rattle.inc_wire.specs.Fits.{Always};
ghost use Rattle.inc_wire.specs.Readings.{IsReadAs, Takes};
ghost use Rattle.rs_forms.specs.Fits.{FitsFault};
ghost use Rattle.rs_forms.specs.Forms.{fault_code, fault_code_form, fault_form};

use inc_base::{Bytes, Memory};
use inc_wire::{Cursor, Read, put_number, put_text, read_whole, take_text, take_u8, take_u32};
use rs_tree::{At, IndexFault, TextFault};
use std::alloc::Global;

/// The bytes of what a text with a fault has in place of an index, which begin with the byte 0. `Memory`
/// where there is none for them. (docs/FORMATS.md, "Queries")
pub fn fault_bytes(fault: &IndexFault) -> Result<Bytes, Memory>
    ensures bytes { IfOk result (λ bytes. bytes ≡ fault_form fault.now) }
    ensures range { IfOk result (λ bytes. FitsFault fault.now) }
{
    let mut bytes = Bytes::new(fault.name.allocator());
    put_number(&mut bytes, 1, 0)?;
    put_number(&mut bytes, 4, u64::from(fault.at.line))?;
    put_number(&mut bytes, 4, u64::from(fault.at.column))?;
    put_number(&mut bytes, 1, u64::from(byte_of(fault.code)))?;
    put_text(&mut bytes, fault.name.as_slice())?;
    Ok(bytes)
}

/// What a text with a fault has in place of an index, from its bytes, as `fault_bytes` gives them. None
/// exactly where no fault has these bytes. `Memory` where there is none for the name.
/// (docs/FORMATS.md, "Queries")
pub fn read_fault(alloc: Global, bytes: &[u8]) -> Result<Option<IndexFault>, Memory>
    ensures { IfOk result (IsReadAs FitsFault fault_form bytes.now) }
{
    read_whole::<FaultForm>(alloc, bytes)
}

/// The form of what stands in an index's place.
pub struct FaultForm;

impl Read for FaultForm {
    type Value = IndexFault;

    ghost form = { fault_form };

    ghost fits = { FitsFault };

    fn take(alloc: Global, from: &mut Cursor) -> Result<Option<IndexFault>, Memory> {
        let Some(0) = take_u8(from) else {
            return Ok(None);
        };
        let Some(line) = take_u32(from) else {
            return Ok(None);
        };
        let Some(column) = take_u32(from) else {
            return Ok(None);
        };
        let Some(code) = take_code(from) else {
            return Ok(None);
        };
        let Some(name) = take_text(from) else {
            return Ok(None);
        };
        let name = Bytes::of(alloc, name)?;
        Ok(Some(IndexFault {
            at: At { line, column },
            code,
            name,
        }))
    }
}

/// The byte of a fault.
fn byte_of(fault: TextFault) -> u8
    ensures { result ≡ fault_code fault }
{
    match fault {
        TextFault::Byte => 1,
        TextFault::Nesting => 2,
        TextFault::Syntax => 3,
        TextFault::Twice => 4,
    }
}

/// A fault: a byte from 1 to 4, and no other.
fn take_code(from: &mut Cursor) -> Option<TextFault>
    ensures { Takes Always fault_code_form from.old from.new result }
{
    match take_u8(from)? {
        1 => Some(TextFault::Byte),
        2 => Some(TextFault::Nesting),
        3 => Some(TextFault::Syntax),
        4 => Some(TextFault::Twice),
        _ => None,
    }
}
