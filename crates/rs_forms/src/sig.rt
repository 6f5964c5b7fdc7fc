//! The bytes of types and signatures.

ghost use Rattle.std.specs.Prelude.{◌≡◌, IfOk};
ghost use Rattle.inc_wire.specs.Fits.{Always};
ghost use Rattle.inc_wire.specs.Readings.{IsReadAs, Takes};
ghost use Rattle.rs_forms.specs.Fits.{FitsSig};
ghost use Rattle.rs_forms.specs.Forms.{sig_form, typ_form};

use inc_base::{Bytes, Memory};
use inc_wire::{
    Cursor, Field, Read, put_all, put_number, read_whole, take_flag, take_list, take_u8,
};
use rs_tree::{Sig, Typ};
use std::alloc::Global;

/// The bytes of a signature. `Memory` where there is none for them. (docs/FORMATS.md, "Queries")
pub fn sig_bytes(sig: &Sig) -> Result<Bytes, Memory>
    ensures bytes { IfOk result (λ bytes. bytes ≡ sig_form sig.now) }
    ensures range { IfOk result (λ bytes. FitsSig sig.now) }
{
    let mut bytes = Bytes::new(sig.params.allocator());
    put_number(&mut bytes, 1, u64::from(sig.kind))?;
    bool::put(&sig.public, &mut bytes)?;
    put_all::<TypForm>(&mut bytes, sig.params.as_slice())?;
    TypForm::put(&sig.gives, &mut bytes)?;
    Ok(bytes)
}

/// A signature, from its bytes, as `sig_bytes` gives them. A kind is any byte. None exactly where no
/// signature has these bytes. `Memory` where there is none for the signature. (docs/FORMATS.md, "Queries")
pub fn read_sig(alloc: Global, bytes: &[u8]) -> Result<Option<Sig>, Memory>
    ensures { IfOk result (IsReadAs FitsSig sig_form bytes.now) }
{
    read_whole::<SigForm>(alloc, bytes)
}

/// The form of a signature.
pub struct SigForm;

impl Read for SigForm {
    type Value = Sig;

    ghost form = { sig_form };

    ghost fits = { FitsSig };

    fn take(alloc: Global, from: &mut Cursor) -> Result<Option<Sig>, Memory> {
        let Some(kind) = take_u8(from) else {
            return Ok(None);
        };
        let Some(public) = take_flag(from) else {
            return Ok(None);
        };
        let Some(params) = take_list::<TypForm>(alloc, from)? else {
            return Ok(None);
        };
        let Some(gives) = take_typ(from) else {
            return Ok(None);
        };
        Ok(Some(Sig {
            kind,
            public,
            params,
            gives,
        }))
    }
}

/// The form of a type: one byte.
pub struct TypForm;

impl Read for TypForm {
    type Value = Typ;

    ghost form = { typ_form };

    ghost fits = { Always };

    fn take(alloc: Global, from: &mut Cursor) -> Result<Option<Typ>, Memory> {
        Ok(take_typ(from))
    }
}

impl Field for TypForm {
    type Value = Typ;

    ghost form = { typ_form };

    ghost fits = { Always };

    fn put(typ: &Typ, to: &mut Bytes) -> Result<(), Memory> {
        match typ {
            Typ::Unit => put_number(to, 1, 0),
            Typ::Int => put_number(to, 1, 1),
            Typ::Bool => put_number(to, 1, 2),
        }
    }
}

/// A type: 0, 1 or 2, and no other byte.
fn take_typ(from: &mut Cursor) -> Option<Typ>
    ensures { Takes Always typ_form from.old from.new result }
{
    match take_u8(from)? {
        0 => Some(Typ::Unit),
        1 => Some(Typ::Int),
        2 => Some(Typ::Bool),
        _ => None,
    }
}
