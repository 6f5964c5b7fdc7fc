ghost use Rattle.std.specs.Prelude.{◌≡◌, ◌++◌, ◌<◌, ◌^◌, length, IfOk, OnOk, OnErr};
ghost use Rattle.inc_wire.specs.Forms.{IsWidth, number_form, text_form, header_form, fields_form};

use crate::header::Header;
use byteorder::{BigEndian, ByteOrder};
use inc_base::{Bytes, Compiler, Memory, Name};
use std::alloc::Global;

/// Appends a number in 1, 2, 4 or 8 bytes, the highest first. `Memory` where there is no room for it;
/// the bytes are then as before. (docs/FORMATS.md, "Fields")
pub fn put_number(to: &mut Bytes, width: u8, v: u64) -> Result<(), Memory>
    requires width { IsWidth width }
    requires fits { v < 256 ^ width }
    ensures ok { OnOk result (to.new ≡ to.old ++ number_form width v) }
    ensures err { OnErr result (to.new ≡ to.old) }
{
    match width {
        1 => put_u8(to, v as u8),
        2 => put_u16(to, v as u16),
        4 => put_u32(to, v as u32),
        _ => put_u64(to, v),
    }
}

/// Appends a text: its length in four bytes, and its bytes. `Memory` where there is no room for it;
/// the bytes are then as before. (docs/FORMATS.md, "Fields")
pub fn put_text(to: &mut Bytes, b: &[u8]) -> Result<(), Memory>
    requires { length b.now < 2 ^ 32 }
    ensures ok { OnOk result (to.new ≡ to.old ++ text_form b.now) }
    ensures err { OnErr result (to.new ≡ to.old) }
{
    let mut count = [0; 4];
    BigEndian::write_u32(&mut count, b.len() as u32);
    to.append_two(&count, b)
}

/// Appends a header. `Memory` where there is no room for it; the bytes are then as before.
/// (docs/FORMATS.md, "Fields")
pub fn put_header(to: &mut Bytes, h: &Header) -> Result<(), Memory>
    ensures ok { OnOk result (to.new ≡ to.old ++ header_form h.now) }
    ensures err { OnErr result (to.new ≡ to.old) }
{
    let fields = fields(to.allocator(), h.format, h.compiler, &h.krate)?;
    to.append(fields.as_slice())
}

/// The bytes of the header of these fields.
pub(crate) fn fields(
    alloc: Global,
    format: u16,
    compiler: Compiler,
    krate: &Name,
) -> Result<Bytes, Memory>
    ensures { IfOk result (λ it. it ≡ fields_form format compiler krate.now) }
{
    let mut fields = Bytes::of(alloc, b"INCC")?;
    put_u16(&mut fields, format)?;
    put_u32(&mut fields, compiler.version)?;
    put_u8(&mut fields, compiler.level)?;
    put_text(&mut fields, krate.bytes())?;
    Ok(fields)
}

fn put_u8(to: &mut Bytes, v: u8) -> Result<(), Memory>
    ensures ok { OnOk result (to.new ≡ to.old ++ number_form 1 v) }
    ensures err { OnErr result (to.new ≡ to.old) }
{
    to.append(&[v])
}

fn put_u16(to: &mut Bytes, v: u16) -> Result<(), Memory>
    ensures ok { OnOk result (to.new ≡ to.old ++ number_form 2 v) }
    ensures err { OnErr result (to.new ≡ to.old) }
{
    let mut bytes = [0; 2];
    BigEndian::write_u16(&mut bytes, v);
    to.append(&bytes)
}

fn put_u32(to: &mut Bytes, v: u32) -> Result<(), Memory>
    ensures ok { OnOk result (to.new ≡ to.old ++ number_form 4 v) }
    ensures err { OnErr result (to.new ≡ to.old) }
{
    let mut bytes = [0; 4];
    BigEndian::write_u32(&mut bytes, v);
    to.append(&bytes)
}

fn put_u64(to: &mut Bytes, v: u64) -> Result<(), Memory>
    ensures ok { OnOk result (to.new ≡ to.old ++ number_form 8 v) }
    ensures err { OnErr result (to.new ≡ to.old) }
{
    let mut bytes = [0; 8];
    BigEndian::write_u64(&mut bytes, v);
    to.append(&bytes)
}
