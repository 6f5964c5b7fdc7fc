//! The bytes of the intermediate form of a function.

ghost use Rattle.std.specs.Prelude.{◌≡◌, ◌≢◌, ◌++◌, IfOk, OnOk};
ghost use Rattle.inc_wire.specs.Fits.{Each};
ghost use Rattle.inc_wire.specs.Readings.{IsReadAs, Takes};
ghost use Rattle.rs_forms.specs.Fits.{FitsInstr, FitsIr, HasCode, HasOwnCode};
ghost use Rattle.rs_forms.specs.Forms.{code_of, instr_form, ir_form, operand_form};

use crate::place::PlaceForm;
use inc_base::{Bytes, Memory};
use inc_wire::{
    Cursor, Field, Read, put_all, put_number, read_whole, take_flag, take_list, take_u8, take_u16,
    take_u64,
};
use rs_tree::{Instr, Ir};
use std::alloc::Global;

/// The bytes of an intermediate form. A code that an instruction is named by is written whatever it is; the
/// form is in its ranges where each such code is one of its kind's. `Memory` where there is none for the
/// bytes. (docs/FORMATS.md, "Intermediate form")
pub fn ir_bytes(ir: &Ir) -> Result<Bytes, Memory>
    ensures bytes { IfOk result (λ bytes. bytes ≡ ir_form ir.now) }
    ensures range { IfOk result (λ bytes. Each HasOwnCode ir.now.code → FitsIr ir.now) }
{
    let mut bytes = Bytes::new(ir.code.allocator());
    bool::put(&ir.inline, &mut bytes)?;
    put_number(&mut bytes, 2, u64::from(ir.params))?;
    put_number(&mut bytes, 2, u64::from(ir.slots))?;
    put_all::<InstrForm>(&mut bytes, ir.code.as_slice())?;
    Ok(bytes)
}

/// An intermediate form, from its bytes, as `ir_bytes` gives them. None exactly where no form has these
/// bytes: so an instruction's code is one of the table's. Whether each label that a jump names has a place
/// isn't looked at. `Memory` where there is none for the form. (docs/FORMATS.md, "Intermediate form")
pub fn read_ir(alloc: Global, bytes: &[u8]) -> Result<Option<Ir>, Memory>
    ensures { IfOk result (IsReadAs FitsIr ir_form bytes.now) }
{
    read_whole::<IrForm>(alloc, bytes)
}

/// The form of an intermediate form.
pub struct IrForm;

impl Read for IrForm {
    type Value = Ir;

    ghost form = { ir_form };

    ghost fits = { FitsIr };

    fn take(alloc: Global, from: &mut Cursor) -> Result<Option<Ir>, Memory> {
        let Some(inline) = take_flag(from) else {
            return Ok(None);
        };
        let Some(params) = take_u16(from) else {
            return Ok(None);
        };
        let Some(slots) = take_u16(from) else {
            return Ok(None);
        };
        let Some(code) = take_list::<InstrForm>(alloc, from)? else {
            return Ok(None);
        };
        Ok(Some(Ir {
            inline,
            params,
            slots,
            code,
        }))
    }
}

/// The form of an instruction: its code, in one byte, and its operand.
pub struct InstrForm;

impl Read for InstrForm {
    type Value = Instr;

    ghost form = { instr_form };

    ghost fits = { FitsInstr };

    fn take(alloc: Global, from: &mut Cursor) -> Result<Option<Instr>, Memory> {
        let Some(code) = take_u8(from) else {
            return Ok(None);
        };
        if code == 0x30 {
            return take_call(alloc, from);
        }
        Ok(take_operand(code, from))
    }
}

impl Field for InstrForm {
    type Value = Instr;

    ghost form = { instr_form };

    ghost fits = { λ instr. HasOwnCode instr → FitsInstr instr };

    fn put(instr: &Instr, to: &mut Bytes) -> Result<(), Memory> {
        put_number(to, 1, u64::from(code_of(instr)))?;
        put_operand(to, instr)
    }
}

/// What follows the code of a call.
fn take_call(alloc: Global, from: &mut Cursor) -> Result<Option<Instr>, Memory>
    ensures { IfOk result (Takes (HasCode 48) operand_form from.old from.new) }
{
    let Some(inline) = take_flag(from) else {
        return Ok(None);
    };
    let Some(place) = PlaceForm::take(alloc, from)? else {
        return Ok(None);
    };
    Ok(Some(Instr::Call(inline, place)))
}

/// What follows another code, or None where the code is none of an instruction.
fn take_operand(code: u8, from: &mut Cursor) -> Option<Instr>
    requires { code ≢ 48 }
    ensures { Takes (HasCode code) operand_form from.old from.new result }
{
    match code {
        0x01 => Some(Instr::Push(take_u64(from)?.cast_signed())),
        0x02 => Some(Instr::Load(take_u16(from)?)),
        0x03 => Some(Instr::Store(take_u16(from)?)),
        0x05 => Some(Instr::Label(take_u16(from)?)),
        0x28..=0x2a => Some(Instr::Jump(code, take_u16(from)?)),
        0x04 | 0x10..=0x1c | 0x20 | 0x21 | 0x31 | 0x32 => Some(Instr::Plain(code)),
        _ => None,
    }
}

/// The first byte of an instruction.
fn code_of(instr: &Instr) -> u8
    ensures { result ≡ code_of instr.now }
{
    match instr {
        Instr::Push(_) => 0x01,
        Instr::Load(_) => 0x02,
        Instr::Store(_) => 0x03,
        Instr::Plain(code) | Instr::Jump(code, _) => *code,
        Instr::Label(_) => 0x05,
        Instr::Call(_, _) => 0x30,
    }
}

fn put_operand(to: &mut Bytes, instr: &Instr) -> Result<(), Memory>
    ensures bytes { OnOk result (to.new ≡ to.old ++ operand_form instr.now) }
    ensures range { OnOk result (HasOwnCode instr.now → FitsInstr instr.now) }
{
    match instr {
        Instr::Push(value) => put_number(to, 8, value.cast_unsigned()),
        Instr::Plain(_) => Ok(()),
        Instr::Load(number)
        | Instr::Store(number)
        | Instr::Jump(_, number)
        | Instr::Label(number) => put_number(to, 2, u64::from(*number)),
        Instr::Call(inline, place) => {
            bool::put(inline, to)?;
            PlaceForm::put(place, to)
        }
    }
}
