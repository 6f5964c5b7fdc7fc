//! Which directories of a session are left, by the latest `Look` that lists its lock file and the own steps since.
ghost use Rattle.std.specs.Prelude.{◌≡◌, ◌++◌, ◌∷◌, [], IfOk, IfSome, IfNone, OnOk};
ghost use Rattle.inc_fs.specs.Paths.{path_cmp};
ghost use Rattle.inc_names.specs.declared.session.SessionName.{SessionName};
ghost use Rattle.inc_names.specs.Entries.{lock_text, IsSessionName};
ghost use Rattle.inc_proto.specs.Views.{without};
ghost use Rattle.inc_proto.specs.Lefts.{IsDirOf, IsLocked, IsWith, IsWithout, IsListed, IsMoved, IsLeftBy};

use crate::clear::take_out;
use crate::entries::lock_name;
use crate::index::{Left, path_of};
use inc_base::{Copied, Label, List, Memory};
use inc_fs::{Op, Reply, Table};
use inc_names::{Entry, SessionName, entry_text, read_entry};
use std::alloc::Global;

/// The session whose directory this is, working or finalised.
#[tactic(auto, using(inc_names::specs::EntryLaws::lock_is_no_working, inc_names::specs::EntryLaws::lock_is_no_final, inc_names::specs::EntryLaws::working_is_no_final))]
fn session_of(dir: &Label) -> Option<SessionName>
    ensures some { IfSome result (λ n. IsDirOf n dir.now) }
    ensures none { IfNone result ((n : SessionName) → IsSessionName n → ¬ IsDirOf n dir.now) }
{
    match read_entry(dir) {
        Some(Entry::Working(name)) => Some(name),
        Some(Entry::Final(name, _)) => Some(name),
        Some(Entry::Lock(_)) => None,
        None => None,
    }
}

/// The path of a session's lock file.
pub(crate) fn lock_path(
    alloc: Global,
    krate: &Label,
    n: SessionName,
) -> Result<(Label, Label), Memory>
    ensures { IfOk result (λ path. path ≡ (krate.now, lock_text n)) }
{
    let lock = entry_text(alloc, &Entry::Lock(n))?;
    path_of(krate, &lock)
}

/// A lock file is listed at this place, where the name is one's.
fn put_lock(
    left: &mut Table<(Label, Label), Left>,
    alloc: Global,
    krate: &Label,
    name: &Label,
    at: usize,
) -> Result<(), Memory>
    ensures { OnOk result (IsLocked krate.now (name.now ∷ []) at left.old left.new) }
{
    match lock_name(name) {
        Some(_) => {
            let path = path_of(krate, name)?;
            let dirs = List::new(alloc);
            left.insert(path, Left { at, dirs })
        }
        None => Ok(()),
    }
}

/// The lock files among these names are listed at this place.
fn put_locks(
    left: &mut Table<(Label, Label), Left>,
    alloc: Global,
    krate: &Label,
    names: &[Label],
    at: usize,
) -> Result<(), Memory>
    ensures { OnOk result (IsLocked krate.now names.now at left.old left.new) }
{
    for name in names {
        put_lock(left, alloc, krate, name, at)?;
    }
    Ok(())
}

fn with_dir(its: Left, dir: &Label) -> Result<Left, Memory>
    ensures { IfOk result (λ next. (next.at ≡ its.at) × (next.dirs ≡ its.dirs ++ dir.now ∷ [])) }
{
    let Left { at, mut dirs } = its;
    match dir.copy() {
        Ok(copy) => match dirs.push(copy) {
            Ok(()) => Ok(Left { at, dirs }),
            Err(refused) => {
                drop(dirs);
                Err(refused)
            }
        },
        Err(refused) => {
            drop(dirs);
            Err(refused)
        }
    }
}

fn without_dir(its: Left, dir: &Label) -> Left
    ensures { (result.at ≡ its.at) × (result.dirs ≡ without dir.now its.dirs) }
{
    let Left { at, mut dirs } = its;
    take_out(&mut dirs, dir);
    Left { at, dirs }
}

/// One more directory of n is there.
fn add_dir_of(
    left: &mut Table<(Label, Label), Left>,
    alloc: Global,
    krate: &Label,
    n: SessionName,
    dir: &Label,
) -> Result<(), Memory>
    ensures { OnOk result (IsDirOf n dir.now → IsWith krate.now (dir.now ∷ []) left.old left.new) }
{
    let path = lock_path(alloc, krate, n)?;
    match left.remove(&path) {
        Some(its) => match with_dir(its, dir) {
            Ok(next) => left.insert(path, next),
            Err(refused) => {
                drop(path);
                Err(refused)
            }
        },
        None => {
            drop(path);
            Ok(())
        }
    }
}

/// One more directory is there.
fn add_dir(
    left: &mut Table<(Label, Label), Left>,
    alloc: Global,
    krate: &Label,
    dir: &Label,
) -> Result<(), Memory>
    ensures { OnOk result (IsWith krate.now (dir.now ∷ []) left.old left.new) }
{
    match session_of(dir) {
        Some(n) => add_dir_of(left, alloc, krate, n, dir),
        None => Ok(()),
    }
}

/// The directories among these names are there.
fn add_dirs(
    left: &mut Table<(Label, Label), Left>,
    alloc: Global,
    krate: &Label,
    names: &[Label],
) -> Result<(), Memory>
    ensures { OnOk result (IsWith krate.now names.now left.old left.new) }
{
    for name in names {
        add_dir(left, alloc, krate, name)?;
    }
    Ok(())
}

/// A directory of n isn't there any more.
fn take_dir_of(
    left: &mut Table<(Label, Label), Left>,
    alloc: Global,
    krate: &Label,
    n: SessionName,
    dir: &Label,
) -> Result<(), Memory>
    ensures { OnOk result (IsWithout krate.now dir.now left.old left.new) }
{
    let path = lock_path(alloc, krate, n)?;
    match left.remove(&path) {
        Some(its) => left.insert(path, without_dir(its, dir)),
        None => {
            drop(path);
            Ok(())
        }
    }
}

/// A directory isn't there any more.
fn take_dir(
    left: &mut Table<(Label, Label), Left>,
    alloc: Global,
    krate: &Label,
    dir: &Label,
) -> Result<(), Memory>
    ensures { OnOk result (IsWithout krate.now dir.now left.old left.new) }
{
    match session_of(dir) {
        Some(n) => take_dir_of(left, alloc, krate, n, dir),
        None => Ok(()),
    }
}

/// A crate directory was listed.
fn note_look(
    left: &mut Table<(Label, Label), Left>,
    alloc: Global,
    krate: &Label,
    names: &[Label],
    at: usize,
) -> Result<(), Memory>
    ensures { OnOk result (IsListed krate.now names.now at left.old left.new) }
{
    put_locks(left, alloc, krate, names, at)?;
    add_dirs(left, alloc, krate, names)
}

/// A directory was renamed.
fn move_dir(
    left: &mut Table<(Label, Label), Left>,
    alloc: Global,
    krate: &Label,
    from: &Label,
    to: &Label,
) -> Result<(), Memory>
    ensures { OnOk result (IsMoved krate.now from.now to.now left.old left.new) }
{
    take_dir(left, alloc, krate, from)?;
    add_dir(left, alloc, krate, to)
}

pub(crate) fn note_left(
    left: &mut Table<(Label, Label), Left>,
    alloc: Global,
    step: &(Op, Reply),
    at: usize,
) -> Result<(), Memory>
    ensures { OnOk result (IsLeftBy step.now at left.old left.new) }
{
    match (&step.0, &step.1) {
        (Op::Look { krate }, Reply::Names(names)) => {
            note_look(left, alloc, krate, names.as_slice(), at)
        }
        (Op::MakeDir { krate, entry }, Reply::Done) => add_dir(left, alloc, krate, entry),
        (Op::RemoveDir { krate, entry }, Reply::Done) => take_dir(left, alloc, krate, entry),
        (Op::Rename { krate, from, to }, Reply::Done) => move_dir(left, alloc, krate, from, to),
        _ => Ok(()),
    }
}
