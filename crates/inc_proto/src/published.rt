//! Whether known files are exactly the wanted ones.
ghost use Rattle.std.specs.Prelude.{◌≡◌, ◌↔◌, IsTrue, IfOk, Some, None};
ghost use Rattle.std.specs.List.Sorted.{IsStrictlySortedBy};
ghost use Rattle.std.specs.Map.{keys_of};
ghost use Rattle.inc_fs.specs.Paths.{text_cmp};
ghost use Rattle.inc_proto.specs.Asked.{bytes_at, AreWanted};
ghost use Rattle.inc_proto.specs.Permits.{complete};

use crate::own::Known;
use inc_base::{Bytes, Label, Memory};
use inc_fs::Table;
use std::alloc::Global;

/// Whether these are the bytes of the file.
fn has_bytes(known: &Known, bytes: &Bytes) -> bool
    ensures { IsTrue result ↔ (known.now.bytes ≡ Some bytes.now) }
{
    match &known.bytes {
        Some(its) => its == bytes,
        None => false,
    }
}

/// Whether the file of this name is the wanted one, and is known to have its bytes.
fn is_file(files: &Table<Label, Known>, name: &Label, wanted: &(Label, Bytes)) -> bool
    ensures { IsTrue result ↔ ((name.now ≡ wanted.now.0) × (bytes_at name.now files.now ≡ Some wanted.now.1)) }
{
    match files.get(name) {
        Some(known) => *name == wanted.0 && has_bytes(known, &wanted.1),
        None => false,
    }
}

/// Whether these are the names of the wanted files, in their order, and each file is known to have its bytes.
fn are_wanted(files: &Table<Label, Known>, names: &[Label], wanted: &[(Label, Bytes)]) -> bool
    ensures { IsTrue result ↔ AreWanted files.now names.now wanted.now }
{
    let mut rest = names;
    for one in wanted {
        match rest.split_first() {
            Some((name, others)) => {
                if !is_file(files, name, one) {
                    return false;
                }
                rest = others;
            }
            None => return false,
        }
    }
    rest.is_empty()
}

/// Whether the bytes of each of the files are known, and names and bytes are exactly these. It goes over both once.
pub(crate) fn are_files(
    files: &Table<Label, Known>,
    alloc: Global,
    wanted: &[(Label, Bytes)],
) -> Result<bool, Memory>
    requires { IsStrictlySortedBy text_cmp (keys_of files.now) }
    ensures { IfOk result (λ yes. IsTrue yes ↔ (complete files.now ≡ Some wanted.now)) }
{
    let names = files.keys(alloc)?;
    Ok(are_wanted(files, names.as_slice(), wanted))
}
