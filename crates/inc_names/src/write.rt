ghost use Rattle.std.specs.Prelude.{◌≡◌, ◌++◌, IfOk};
ghost use Rattle.inc_base.specs.Texts.{IsLabel};
ghost use Rattle.inc_names.specs.Entries.{stem_text, entry_text, IsEntry};

use crate::entry::Entry;
use crate::session::SessionName;
use inc_base::{Bytes, Label, Memory, Name, to36, to36_wide};
use std::alloc::Global;

/// The text of an entry: `s-T-R.lock`, `s-T-R-working` or `s-T-R-H`, with the moment T and the random
/// part R in base 36, and the hash H in 25 digits. `Memory` where there is no memory for it.
/// (docs/PROTOCOL.md, "Names")
pub fn entry_text(alloc: Global, e: &Entry) -> Result<Label, Memory>
    ensures { IfOk result (λ l. l ≡ entry_text e.now) }
{
    label(alloc, text_of(alloc, *e)?.as_slice())
}

/// The name of the directory of a crate: the crate's name. `Memory` where there is no memory for it.
/// (docs/PROTOCOL.md, "Names")
pub fn crate_dir(alloc: Global, n: &Name) -> Result<Label, Memory>
    ensures { IfOk result (λ l. l ≡ n.now) }
{
    label(alloc, n.bytes())
}

fn text_of(alloc: Global, e: Entry) -> Result<Bytes, Memory>
    ensures text { IfOk result (λ text. text ≡ entry_text e) }
    ensures entry { IsEntry e }
{
    match e {
        Entry::Lock(name) => with_end(alloc, name, b".lock"),
        Entry::Working(name) => with_end(alloc, name, b"-working"),
        Entry::Final(name, hash) => {
            let mut text = with_end(alloc, name, b"-")?;
            text.append(to36_wide(alloc, hash)?.as_slice())?;
            Ok(text)
        }
    }
}

/// What the entries of a session begin with, and an end.
fn with_end(alloc: Global, name: SessionName, end: &[u8]) -> Result<Bytes, Memory>
    ensures { IfOk result (λ text. text ≡ stem_text name ++ end.now) }
{
    let mut text = Bytes::of(alloc, b"s-")?;
    text.append(to36(alloc, u128::from(name.moment))?.as_slice())?;
    text.append(b"-")?;
    text.append(to36(alloc, u128::from(name.random))?.as_slice())?;
    text.append(end)?;
    Ok(text)
}

fn label(alloc: Global, text: &[u8]) -> Result<Label, Memory>
    requires { IsLabel text.now }
    ensures { IfOk result (λ l. l ≡ text.now) }
{
    match Label::of(alloc, text)? {
        Some(label) => Ok(label),
        None => unreachable!(),
    }
}
