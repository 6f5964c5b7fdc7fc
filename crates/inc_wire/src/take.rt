ghost use Rattle.std.specs.Prelude.{◌≡◌, ◌≢◌, ◌++◌, ◌<◌, ◌≤◌, ◌^◌, ℕ, List, length, drop, codes, IfOk, IfSome, IfNone, MatchOption};
ghost use Rattle.inc_base.specs.declared.job.Compiler.{Compiler};
ghost use Rattle.inc_wire.specs.Forms.{IsHeader, BeginsWithHeader, header_form, fields_form};

use crate::cursor::Cursor;
use crate::header::Header;
use inc_base::{Compiler, Memory, Name};
use std::alloc::Global;

/// The header that a front of these bytes is, and how many bytes it has. None exactly where no front is
/// a header. `Memory` where there is no memory for its name. (docs/FORMATS.md, "Fields")
pub fn take_header(alloc: Global, b: &[u8]) -> Result<Option<(Header, usize)>, Memory>
    ensures some { IfOk result (λ found. IfSome found (λ it. IsHeader it.0 × (it.1 ≤ length b.now) × (b.now ≡ header_form it.0 ++ drop it.1 b.now))) }
    ensures none { IfOk result (λ found. IfNone found (¬ BeginsWithHeader b.now)) }
{
    let Some(fields) = take_fields(b) else {
        return Ok(None);
    };
    let Some(krate) = Name::of(alloc, fields.name)? else {
        return Ok(None);
    };
    let h = Header {
        format: fields.format,
        compiler: fields.compiler,
        krate,
    };
    Ok(Some((h, b.len() - fields.rest.len())))
}

/// The fields of a header, whose name may be none, and what follows them.
#[derive(Drop)]
struct Fields<'a> {
    format: u16,
    compiler: Compiler,
    name: &'a [u8],
    rest: &'a [u8],
}

fn take_fields(b: &[u8]) -> Option<Fields<'_>>
    ensures some { IfSome result (λ it. (it.format < 2 ^ 16) × (it.compiler.version < 2 ^ 32) × (length it.name.now < 2 ^ 32) × (b.now ≡ fields_form it.format it.compiler it.name.now ++ it.rest.now)) }
    ensures none { IfNone result ((format : ℕ) (compiler : Compiler) (name rest : List ℕ) → format < 2 ^ 16 → compiler.version < 2 ^ 32 → length name < 2 ^ 32 → b.now ≢ fields_form format compiler name ++ rest) }
{
    let mut cursor = Cursor::new(after_mark(b)?);
    let format = cursor.number(2)? as u16;
    let version = cursor.number(4)? as u32;
    let level = cursor.number(1)? as u8;
    let name = cursor.text()?;
    if level > 1 {
        return None;
    }
    Some(Fields {
        format,
        compiler: Compiler { version, level },
        name,
        rest: cursor.rest(),
    })
}

/// What follows the bytes that each header begins with.
fn after_mark(b: &[u8]) -> Option<&[u8]>
    ensures { MatchOption result ((rest : List ℕ) → b.now ≢ codes "INCC" ++ rest) (λ rest. b.now ≡ codes "INCC" ++ rest.now) }
{
    b.strip_prefix(b"INCC")
}
