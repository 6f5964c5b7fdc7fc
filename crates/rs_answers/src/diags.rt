//! The bytes of diagnostics.

ghost use Rattle.std.specs.Prelude.{◌≡◌, IfOk};
ghost use Rattle.inc_wire.specs.Readings.{IsReadAs};
ghost use Rattle.rs_answers.specs.Fits.{FitsDiag, FitsDiags};
ghost use Rattle.rs_answers.specs.Forms.{diag_form, diags_form};

use inc_base::{Bytes, List, Memory};
use inc_wire::{
    Cursor, Field, Read, put_all, put_number, put_text, read_whole, take_u16, take_u32,
};
use rs_tree::{At, Diag};
use std::alloc::Global;

/// The bytes of diagnostics, in their order. `Memory` where there is none for them. (docs/FORMATS.md, "Queries")
pub fn diags_bytes(diags: &List<Diag>) -> Result<Bytes, Memory>
    ensures bytes { IfOk result (λ bytes. bytes ≡ diags_form diags.now) }
    ensures range { IfOk result (λ bytes. FitsDiags diags.now) }
{
    let mut bytes = Bytes::new(diags.allocator());
    put_all::<DiagForm>(&mut bytes, diags.as_slice())?;
    Ok(bytes)
}

/// Diagnostics, from their bytes, as `diags_bytes` gives them. None exactly where no diagnostics have these bytes. `Memory` where there
/// is none for them. (docs/FORMATS.md, "Queries")
pub fn read_diags(alloc: Global, bytes: &[u8]) -> Result<Option<List<Diag>>, Memory>
    ensures { IfOk result (IsReadAs FitsDiags diags_form bytes.now) }
{
    read_whole::<List<DiagForm>>(alloc, bytes)
}

/// The form of a diagnostic: its place, in two numbers of four bytes, its number in two bytes, and its text.
pub struct DiagForm;

impl Read for DiagForm {
    type Value = Diag;

    ghost form = { diag_form };

    ghost fits = { FitsDiag };

    fn take(alloc: Global, from: &mut Cursor) -> Result<Option<Diag>, Memory> {
        let Some(line) = take_u32(from) else {
            return Ok(None);
        };
        let Some(column) = take_u32(from) else {
            return Ok(None);
        };
        let Some(code) = take_u16(from) else {
            return Ok(None);
        };
        let Some(text) = Bytes::take(alloc, from)? else {
            return Ok(None);
        };
        Ok(Some(Diag {
            at: At { line, column },
            code,
            text,
        }))
    }
}

impl Field for DiagForm {
    type Value = Diag;

    ghost form = { diag_form };

    ghost fits = { FitsDiag };

    fn put(diag: &Diag, to: &mut Bytes) -> Result<(), Memory> {
        put_number(to, 4, u64::from(diag.at.line))?;
        put_number(to, 4, u64::from(diag.at.column))?;
        put_number(to, 2, u64::from(diag.code))?;
        put_text(to, diag.text.as_slice())
    }
}
