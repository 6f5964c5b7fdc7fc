//! Numbers, truth values, texts, pairs and lists, both ways.

ghost use Rattle.std.specs.Prelude.{◌++◌, ◌<◌, ◌^◌};
ghost use Rattle.inc_wire.specs.Fits.{Always, FitsList, FitsText};
ghost use Rattle.inc_wire.specs.Forms.{flag_form, list_form, number_form, text_form};

use crate::cursor::Cursor;
use crate::field::{Field, put_all};
use crate::front::{take_flag, take_text, take_u8, take_u16, take_u32, take_u64};
use crate::put::{put_number, put_text};
use crate::read::{Read, take_list};
use inc_base::{Bytes, List, Memory};
use std::alloc::Global;

/// A number in one byte. `u8` itself names no form, since a list of it is a text.
pub struct Byte;

impl Read for Byte {
    type Value = u8;

    ghost form = { number_form 1 };

    ghost fits = { λ v. v < 2 ^ 8 };

    fn take(alloc: Global, from: &mut Cursor) -> Result<Option<u8>, Memory> {
        Ok(take_u8(from))
    }
}

impl Read for u16 {
    type Value = u16;

    ghost form = { number_form 2 };

    ghost fits = { λ v. v < 2 ^ 16 };

    fn take(alloc: Global, from: &mut Cursor) -> Result<Option<u16>, Memory> {
        Ok(take_u16(from))
    }
}

impl Read for u32 {
    type Value = u32;

    ghost form = { number_form 4 };

    ghost fits = { λ v. v < 2 ^ 32 };

    fn take(alloc: Global, from: &mut Cursor) -> Result<Option<u32>, Memory> {
        Ok(take_u32(from))
    }
}

impl Read for u64 {
    type Value = u64;

    ghost form = { number_form 8 };

    ghost fits = { λ v. v < 2 ^ 64 };

    fn take(alloc: Global, from: &mut Cursor) -> Result<Option<u64>, Memory> {
        Ok(take_u64(from))
    }
}

impl Read for bool {
    type Value = bool;

    ghost form = { flag_form };

    ghost fits = { Always };

    fn take(alloc: Global, from: &mut Cursor) -> Result<Option<bool>, Memory> {
        Ok(take_flag(from))
    }
}

impl Read for Bytes {
    type Value = Bytes;

    ghost form = { text_form };

    ghost fits = { FitsText };

    fn take(alloc: Global, from: &mut Cursor) -> Result<Option<Bytes>, Memory> {
        let Some(text) = take_text(from) else {
            return Ok(None);
        };
        Ok(Some(Bytes::of(alloc, text)?))
    }
}

impl<A: Read, B: Read> Read for (A, B) {
    type Value = (A::Value, B::Value);

    ghost form = { λ p. A.form p.0 ++ B.form p.1 };

    ghost fits = { λ p. A.fits p.0 × B.fits p.1 };

    fn take(alloc: Global, from: &mut Cursor) -> Result<Option<(A::Value, B::Value)>, Memory> {
        let Some(first) = A::take(alloc, from)? else {
            return Ok(None);
        };
        let Some(second) = B::take(alloc, from)? else {
            return Ok(None);
        };
        Ok(Some((first, second)))
    }
}

impl<T: Read> Read for List<T> {
    type Value = List<T::Value>;

    ghost form = { list_form T.form };

    ghost fits = { FitsList T.fits };

    fn take(alloc: Global, from: &mut Cursor) -> Result<Option<List<T::Value>>, Memory> {
        take_list::<T>(alloc, from)
    }
}

impl Field for Byte {
    type Value = u8;

    ghost form = { number_form 1 };

    ghost fits = { λ v. v < 2 ^ 8 };

    fn put(value: &u8, to: &mut Bytes) -> Result<(), Memory> {
        put_number(to, 1, u64::from(*value))
    }
}

impl Field for u16 {
    type Value = u16;

    ghost form = { number_form 2 };

    ghost fits = { λ v. v < 2 ^ 16 };

    fn put(value: &u16, to: &mut Bytes) -> Result<(), Memory> {
        put_number(to, 2, u64::from(*value))
    }
}

impl Field for u32 {
    type Value = u32;

    ghost form = { number_form 4 };

    ghost fits = { λ v. v < 2 ^ 32 };

    fn put(value: &u32, to: &mut Bytes) -> Result<(), Memory> {
        put_number(to, 4, u64::from(*value))
    }
}

impl Field for u64 {
    type Value = u64;

    ghost form = { number_form 8 };

    ghost fits = { λ v. v < 2 ^ 64 };

    fn put(value: &u64, to: &mut Bytes) -> Result<(), Memory> {
        put_number(to, 8, *value)
    }
}

impl Field for bool {
    type Value = bool;

    ghost form = { flag_form };

    ghost fits = { Always };

    fn put(value: &bool, to: &mut Bytes) -> Result<(), Memory> {
        put_number(to, 1, u64::from(*value))
    }
}

impl Field for Bytes {
    type Value = Bytes;

    ghost form = { text_form };

    ghost fits = { FitsText };

    fn put(value: &Bytes, to: &mut Bytes) -> Result<(), Memory> {
        put_text(to, value.as_slice())
    }
}

impl<A: Field, B: Field> Field for (A, B) {
    type Value = (A::Value, B::Value);

    ghost form = { λ p. A.form p.0 ++ B.form p.1 };

    ghost fits = { λ p. A.fits p.0 × B.fits p.1 };

    fn put(value: &(A::Value, B::Value), to: &mut Bytes) -> Result<(), Memory> {
        A::put(&value.0, to)?;
        B::put(&value.1, to)
    }
}

impl<T: Field> Field for List<T> {
    type Value = List<T::Value>;

    ghost form = { list_form T.form };

    ghost fits = { FitsList T.fits };

    fn put(value: &List<T::Value>, to: &mut Bytes) -> Result<(), Memory> {
        put_all::<T>(to, value.as_slice())
    }
}
