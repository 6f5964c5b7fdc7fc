//! How a form is printed: one line for its head and one for each instruction, codes in hexadecimal; of more than a thousand instructions
//! only their number.

use inc_base::{Bytes, Memory};
use itoa::Buffer;
use rs_tree::{Instr, Ir, Place};

/// The most instructions that are printed.
const MOST: usize = 1_000;

/// The name, 1 or 0 for `#[inline]`, the parameters and the slots; then the instructions.
pub fn put_form(to: &mut Bytes, place: &Place, form: &Ir) -> Result<(), Memory> {
    put_place(to, place)?;
    put_flag(to, form.inline)?;
    put_count(to, form.params)?;
    put_count(to, form.slots)?;
    to.append(b"\n")?;
    if form.code.len() > MOST {
        return put_many(to, form.code.len());
    }
    for instr in form.code.as_slice() {
        put_instr(to, instr)?;
        to.append(b"\n")?;
    }
    Ok(())
}

fn put_many(to: &mut Bytes, count: usize) -> Result<(), Memory> {
    let mut number = Buffer::new();
    to.append(number.format(count).as_bytes())?;
    to.append(b" instructions\n")
}

fn put_instr(to: &mut Bytes, instr: &Instr) -> Result<(), Memory> {
    match instr {
        Instr::Push(value) => put_push(to, *value),
        Instr::Load(slot) => put_operand(to, 0x02, *slot),
        Instr::Store(slot) => put_operand(to, 0x03, *slot),
        Instr::Plain(code) => put_code(to, *code),
        Instr::Jump(code, label) => put_operand(to, *code, *label),
        Instr::Label(label) => put_operand(to, 0x05, *label),
        Instr::Call(inline, place) => put_call(to, *inline, place),
    }
}

fn put_push(to: &mut Bytes, value: i64) -> Result<(), Memory> {
    put_code(to, 0x01)?;
    to.append(b" ")?;
    let mut number = Buffer::new();
    to.append(number.format(value).as_bytes())
}

fn put_operand(to: &mut Bytes, code: u8, operand: u16) -> Result<(), Memory> {
    put_code(to, code)?;
    put_count(to, operand)
}

fn put_call(to: &mut Bytes, inline: bool, place: &Place) -> Result<(), Memory> {
    put_code(to, 0x30)?;
    put_flag(to, inline)?;
    to.append(b" ")?;
    put_place(to, place)
}

fn put_code(to: &mut Bytes, code: u8) -> Result<(), Memory> {
    to.append(&[digit(code >> 4), digit(code & 15)])
}

fn digit(value: u8) -> u8 {
    if value < 10 {
        b'0'.wrapping_add(value)
    } else {
        b'a'.wrapping_add(value.wrapping_sub(10))
    }
}

fn put_flag(to: &mut Bytes, flag: bool) -> Result<(), Memory> {
    to.append(if flag { b" 1" } else { b" 0" })
}

fn put_count(to: &mut Bytes, count: u16) -> Result<(), Memory> {
    to.append(b" ")?;
    let mut number = Buffer::new();
    to.append(number.format(count).as_bytes())
}

fn put_place(to: &mut Bytes, place: &Place) -> Result<(), Memory> {
    if !place.module.is_empty() {
        to.append(place.module.as_slice())?;
        to.append(b"::")?;
    }
    to.append(place.name.as_slice())
}
