ghost use Rattle.std.specs.Prelude.{◌≡◌, IfOk, IfSome};
ghost use Rattle.inc_wire.specs.Readings.{IsReadAs, Takes};
ghost use Rattle.rs_object.specs.Fits.{FitsFields, FitsFunc, FitsObject, of_parts};
ghost use Rattle.rs_object.specs.Forms.{func_form, object_form};
ghost use Rattle.rs_object.specs.Grammar.{InGrammar};

use crate::grammar::has_relocs;
use crate::object::{Func, Object};
use inc_base::{Bytes, List, Memory};
use inc_wire::{Cursor, Read, read_whole, take_list, take_u16, take_u32};
use std::alloc::Global;

/// The object that these bytes are, from the first to the last, or None exactly where they are none of the
/// grammar's. `Memory` where there is none for the object (docs/FORMATS.md, "Objects").
#[tactic(auto, using(crate::proofs::Fronts::fits_in_grammar))]
pub fn decode_object(alloc: Global, bytes: &[u8]) -> Result<Option<Object>, Memory>
    ensures reads { IfOk result (IsReadAs FitsObject object_form bytes.now) }
    ensures grammar { IfOk result (λ found. IfSome found InGrammar) }
{
    read_whole::<Object>(alloc, bytes)
}

impl Read for Object {
    type Value = Object;

    ghost form = { object_form };

    ghost fits = { FitsObject };

    fn take(alloc: Global, from: &mut Cursor) -> Result<Option<Object>, Memory> {
        let Some(0x494e_434f) = take_u32(from) else {
            return Ok(None);
        };
        let Some(1) = take_u16(from) else {
            return Ok(None);
        };
        let Some(unit) = Bytes::take(alloc, from)? else {
            return Ok(None);
        };
        let Some(funcs) = take_list::<Func>(alloc, from)? else {
            return Ok(None);
        };
        Ok(Some(Object { unit, funcs }))
    }
}

impl Read for Func {
    type Value = Func;

    ghost form = { func_form };

    ghost fits = { FitsFunc };

    fn take(alloc: Global, from: &mut Cursor) -> Result<Option<Func>, Memory> {
        let Some(func) = take_fields(alloc, from)? else {
            return Ok(None);
        };
        if !has_relocs(&func) {
            return Ok(None);
        }
        Ok(Some(func))
    }
}

/// What a function is read as.
type Fields = (Bytes, (u16, (u16, (Bytes, List<(u32, Bytes)>))));

/// The fields of a function, whatever its relocations are.
fn take_fields(alloc: Global, from: &mut Cursor) -> Result<Option<Func>, Memory>
    ensures { IfOk result (Takes FitsFields func_form from.old from.new) }
{
    let Some(parts) = Fields::take(alloc, from)? else {
        return Ok(None);
    };
    Ok(Some(func_of(parts)))
}

fn func_of(parts: Fields) -> Func
    ensures { result ≡ of_parts parts }
{
    let (symbol, (params, (slots, (code, relocs)))) = parts;
    Func {
        symbol,
        params,
        slots,
        code,
        relocs,
    }
}
