//! Files: a header, and a value that follows it to the end.

ghost use Rattle.std.specs.Prelude.{◌≡◌, ◌++◌, ◌≤◌, IfOk, OnOk, drop, length};
ghost use Rattle.inc_wire.specs.Forms.{header_form};
ghost use Rattle.inc_wire.specs.Readings.{IsReadAs};
ghost use Rattle.inc_graph.specs.Forms.{FitsFile, IsFileHeader, file_form};

use inc_base::{Bytes, Memory};
use inc_wire::{Header, Read, put_header, read_whole, take_header};
use std::alloc::Global;

/// The format of a session's files.
pub const FILE_FORMAT: u16 = 1;

/// The header and the value that the bytes of a file are, or None exactly where they are none of a header of format 1
/// and a value. `Memory` where there is none for both. (docs/FORMATS.md, "Fields")
pub fn read_file<T: Read>(alloc: Global, b: &[u8]) -> Result<Option<(Header, T::Value)>, Memory>
    ensures { IfOk result (IsReadAs (FitsFile T.fits) (file_form T.form) b.now) }
{
    let Some((header, at)) = take_header(alloc, b)? else {
        return Ok(None);
    };
    if header.format != FILE_FORMAT {
        drop(header);
        return Ok(None);
    }
    match read_whole::<T>(alloc, rest_of(b, at)) {
        Ok(Some(value)) => Ok(Some((header, value))),
        Ok(None) => {
            drop(header);
            Ok(None)
        }
        Err(refused) => {
            drop(header);
            Err(refused)
        }
    }
}

/// What follows the first bytes.
fn rest_of(b: &[u8], at: usize) -> &[u8]
    requires { at ≤ length b.now }
    ensures { result.now ≡ drop at b.now }
{
    b.split_at(at).1
}

/// Appends the header of a file. `Memory` where there is no room for it; the bytes are then as before.
pub fn put_file_header(to: &mut Bytes, h: &Header) -> Result<(), Memory>
    requires { h.now.format ≡ 1 }
    ensures bytes { OnOk result (to.new ≡ to.old ++ header_form h.now) }
    ensures range { IsFileHeader h.now }
{
    let _name = h.krate.bytes();
    let _format = h.format;
    let _version = h.compiler.version;
    let _level = h.compiler.level;
    put_header(to, h)
}
