//! What a session asked for, did and saw last.
ghost use Rattle.std.specs.Prelude.{◌≡◌, ◌↔◌, ◌⊎◌, ℕ, OnOk};
ghost use Rattle.std.specs.BTreeMap.{insert_entry};
ghost use Rattle.inc_fs.specs.Paths.{path_cmp};
ghost use Rattle.inc_names.specs.declared.session.SessionName.{SessionName};
ghost use Rattle.inc_names.specs.Entries.{lock_text, final_text, IsSessionName, IsNewer};
ghost use Rattle.inc_proto.specs.Permits.{IsHash};
ghost use Rattle.inc_proto.specs.Indexes.{file_cmp, asked_by, made_by, unlinked_by, IsBackWith, IsBackBy, IsNewerOf, ListsNewer, IsNewestWith, IsNewestBy};

use crate::entries::final_name;
use crate::index::{file_of, path_of};
use inc_base::{Copied, Label, Memory};
use inc_fs::{Op, Reply, Table};
use inc_names::{Entry, SessionName, entry_text, newer};
use std::alloc::Global;

/// It asked for a lock file.
pub(crate) fn note_asked(
    asked: &mut Table<(Label, Label), usize>,
    step: &(Op, Reply),
    at: usize,
) -> Result<(), Memory>
    ensures { OnOk result (asked.new ≡ asked_by step.now at asked.old) }
{
    match &step.0 {
        Op::MakeLock { krate, entry } => {
            let path = path_of(krate, entry)?;
            asked.insert(path, at)
        }
        _ => Ok(()),
    }
}

/// It asked for a directory.
pub(crate) fn made_by(step: &(Op, Reply), at: usize, before: Option<usize>) -> Option<usize>
    ensures { result ≡ made_by step.now at before }
{
    match &step.0 {
        Op::MakeDir { .. } => Some(at),
        _ => before,
    }
}

/// It took a lock file's name away.
pub(crate) fn note_unlinked(
    unlinked: &mut Table<(Label, Label), usize>,
    step: &(Op, Reply),
    at: usize,
) -> Result<(), Memory>
    ensures { OnOk result (unlinked.new ≡ unlinked_by step.now at unlinked.old) }
{
    match (&step.0, &step.1) {
        (Op::UnlinkLock { krate, entry }, Reply::Done) => {
            let path = path_of(krate, entry)?;
            unlinked.insert(path, at)
        }
        _ => Ok(()),
    }
}

/// A finalised directory of n was renamed to this name.
fn put_back(
    back: &mut Table<((Label, Label), Label), usize>,
    alloc: Global,
    krate: &Label,
    to: &Label,
    n: SessionName,
    at: usize,
) -> Result<(), Memory>
    ensures { OnOk result (back.new ≡ insert_entry file_cmp back.old ((krate.now, to.now), lock_text n) at) }
{
    let lock = entry_text(alloc, &Entry::Lock(n))?;
    let path = file_of(krate, to, &lock)?;
    back.insert(path, at)
}

/// A directory was renamed.
fn back_with(
    back: &mut Table<((Label, Label), Label), usize>,
    alloc: Global,
    krate: &Label,
    from: &Label,
    to: &Label,
    at: usize,
) -> Result<(), Memory>
    ensures { OnOk result (IsBackWith krate.now from.now to.now at back.old back.new) }
{
    match final_name(from) {
        Some((n, _)) => put_back(back, alloc, krate, to, n, at),
        None => Ok(()),
    }
}

pub(crate) fn note_back(
    back: &mut Table<((Label, Label), Label), usize>,
    alloc: Global,
    step: &(Op, Reply),
    at: usize,
) -> Result<(), Memory>
    ensures { OnOk result (IsBackBy step.now at back.old back.new) }
{
    match (&step.0, &step.1) {
        (Op::Rename { krate, from, to }, Reply::Done) => {
            back_with(back, alloc, krate, from, to, at)
        }
        _ => Ok(()),
    }
}

/// The newer of two.
fn newer_of(newest: Option<SessionName>, m: SessionName) -> SessionName
    ensures { (n : SessionName) → IsNewer result n ↔ (IsNewerOf newest n ⊎ IsNewer m n) }
{
    match newest {
        Some(best) => { if newer(best, m) { best } else { m } }
        None => m,
    }
}

/// The newest, with the session of this name where it is a finalised directory's.
fn newest_with(name: &Label, newest: Option<SessionName>) -> Option<SessionName>
    ensures { (n : SessionName) → IsNewerOf result n ↔ (IsNewerOf newest n ⊎ ((m : SessionName) × (hash : ℕ) × IsSessionName m × IsHash hash × (name.now ≡ final_text m hash) × IsNewer m n)) }
{
    match final_name(name) {
        Some((m, _)) => Some(newer_of(newest, m)),
        None => newest,
    }
}

/// The newest, with the finalised directories of these names.
fn newest_of(names: &[Label], before: Option<SessionName>) -> Option<SessionName>
    ensures { (n : SessionName) → IsNewerOf result n ↔ (IsNewerOf before n ⊎ ListsNewer names.now n) }
{
    let mut newest = before;
    for name in names {
        newest = newest_with(name, newest);
    }
    newest
}

/// These names were listed in the crate directory.
fn put_newest(
    newest: &mut Table<Label, SessionName>,
    krate: &Label,
    names: &[Label],
) -> Result<(), Memory>
    ensures { OnOk result (IsNewestWith krate.now names.now newest.old newest.new) }
{
    let before = newest.get(krate).copied();
    match newest_of(names, before) {
        Some(m) => {
            let krate = krate.copy()?;
            newest.insert(krate, m)
        }
        None => Ok(()),
    }
}

pub(crate) fn note_newest(
    newest: &mut Table<Label, SessionName>,
    step: &(Op, Reply),
) -> Result<(), Memory>
    ensures { OnOk result (IsNewestBy step.now newest.old newest.new) }
{
    match (&step.0, &step.1) {
        (Op::Look { krate }, Reply::Names(names)) => put_newest(newest, krate, names.as_slice()),
        _ => Ok(()),
    }
}
