//! What a view keeps of its own steps, so that questions about them cost look-ups: what each handle holds and
//! since when, and at which step a thing was said last. A step's place is the number of steps before it.
ghost use Rattle.std.specs.Prelude.{◌≡◌, ◌<◌, ◌^◌, ◌∷◌, [], OnOk, IfOk, IfSome, length, reverse};
ghost use Rattle.inc_fs.specs.Paths.{path_cmp};
ghost use Rattle.inc_proto.specs.Events.{Steps};
ghost use Rattle.inc_proto.specs.Indexes.{handle_of, handed_by, hold_by, kept_hold, holds_by, handles_of, put_given, given_by, put_all, file_cmp, listed_by, looked_by, Indexes};

mod asks;
mod lasts;
mod remains;

use crate::holds::{Way, turn_of, turned_at};
use crate::index::lasts::{made_by, note_asked, note_back, note_newest, note_unlinked};
use crate::index::remains::note_left;
use inc_base::{Copied, Label, List, Memory};
use inc_fs::{Op, Reply, Table};
use inc_names::SessionName;
use std::alloc::Global;
use std::mem;

/// How a handle is open.
#[derive(Drop)]
pub(crate) enum Handed {
    /// It isn't.
    Shut,
    /// By making the lock file at this path.
    MadeAt(Label, Label),
    /// By opening it.
    OpenedAt(Label, Label),
}

/// What a handle holds.
#[derive(Drop)]
pub(crate) struct Hold {
    handed: Handed,
    /// How many steps there were when its lock began to be held, in whatever mode.
    since: Option<usize>,
    /// The same, exclusively.
    alone: Option<usize>,
}

/// When something was said last.
#[derive(Clone, Copy, Debug)]
pub(crate) enum Told {
    /// At the step of this place, or never.
    At(Option<usize>),
    /// At the step of this place too, or the index doesn't tell it.
    Surely(Option<usize>),
}

/// What is left of a session, by the latest `Look` that lists its lock file and the own steps since.
#[derive(Drop)]
pub(crate) struct Left {
    /// The place of that `Look`.
    at: usize,
    /// Its directories, those that are left at least.
    dirs: List<Label>,
}

/// What is kept of the steps.
#[derive(Drop)]
pub(crate) struct Index {
    alloc: Global,
    /// What each handle holds.
    holds: Table<u32, Hold>,
    /// The handles that were given on each lock file.
    given: Table<(Label, Label), List<u32>>,
    /// The latest `ListDir` of a directory that lists a file.
    listed: Table<((Label, Label), Label), usize>,
    /// The latest `Look` of a crate directory that lists a name.
    looked: Table<(Label, Label), usize>,
    /// The latest asking for a lock file.
    asked: Table<(Label, Label), usize>,
    /// The latest asking for a directory.
    made: Option<usize>,
    /// The latest taking away of a lock file's name.
    unlinked: Table<(Label, Label), usize>,
    /// The latest renaming of a session's finalised directory, under the new path and the session's lock file.
    back: Table<((Label, Label), Label), usize>,
    /// The newest session of which a finalised directory was listed in a crate directory.
    newest: Table<Label, SessionName>,
    /// What is left of each session, under its lock file.
    left: Table<(Label, Label), Left>,
}

fn path_of(krate: &Label, entry: &Label) -> Result<(Label, Label), Memory>
    ensures { IfOk result (λ path. path ≡ (krate.now, entry.now)) }
{
    let krate = krate.copy()?;
    let entry = entry.copy()?;
    Ok((krate, entry))
}

fn file_of(krate: &Label, entry: &Label, file: &Label) -> Result<((Label, Label), Label), Memory>
    ensures { IfOk result (λ path. path ≡ ((krate.now, entry.now), file.now)) }
{
    let path = path_of(krate, entry)?;
    let file = file.copy()?;
    Ok((path, file))
}

/// The handle that a step gave, locked or closed.
fn handle_of(step: &(Op, Reply)) -> Option<u32>
    ensures { result ≡ handle_of step.now }
{
    match (&step.0, &step.1) {
        (Op::MakeLock { .. }, Reply::Handle(handle)) => Some(*handle),
        (Op::OpenLock { .. }, Reply::Handle(handle)) => Some(*handle),
        (Op::TryLock { handle, .. }, Reply::Got) => Some(*handle),
        (Op::Close { handle }, Reply::Done) => Some(*handle),
        _ => None,
    }
}

/// How that handle is open after the step.
fn handed_by(step: &(Op, Reply), before: Handed) -> Result<Handed, Memory>
    ensures { IfOk result (λ next. next ≡ handed_by step.now before) }
{
    match (&step.0, &step.1) {
        (Op::MakeLock { krate, entry }, Reply::Handle(_)) => {
            drop(before);
            let krate = krate.copy()?;
            let entry = entry.copy()?;
            Ok(Handed::MadeAt(krate, entry))
        }
        (Op::OpenLock { krate, entry }, Reply::Handle(_)) => {
            drop(before);
            let krate = krate.copy()?;
            let entry = entry.copy()?;
            Ok(Handed::OpenedAt(krate, entry))
        }
        (Op::Close { .. }, Reply::Done) => {
            drop(before);
            Ok(Handed::Shut)
        }
        _ => Ok(before),
    }
}

/// What that handle holds after the step, which stands at this place.
fn hold_by(step: &(Op, Reply), h: u32, at: usize, before: Hold) -> Result<Hold, Memory>
    requires { at < 2 ^ 63 }
    ensures { IfOk result (λ next. next ≡ hold_by step.now h at before) }
{
    let Hold {
        handed,
        since,
        alone,
    } = before;
    let handed = handed_by(step, handed)?;
    Ok(Hold {
        handed,
        since: turned_at(turn_of(step, Way::ByOpening, h), since, at),
        alone: turned_at(turn_of(step, Way::Alone, h), alone, at),
    })
}

fn kept_hold(found: Option<Hold>) -> Hold
    ensures { result ≡ kept_hold found }
{
    match found {
        Some(hold) => hold,
        None => Hold {
            handed: Handed::Shut,
            since: None,
            alone: None,
        },
    }
}

fn note_hold(holds: &mut Table<u32, Hold>, step: &(Op, Reply), at: usize) -> Result<(), Memory>
    requires { at < 2 ^ 63 }
    ensures { OnOk result (holds.new ≡ holds_by step.now at (handle_of step.now) holds.old) }
{
    match handle_of(step) {
        Some(h) => {
            let before = kept_hold(holds.remove(&h));
            let after = hold_by(step, h, at, before)?;
            holds.insert(h, after)
        }
        None => Ok(()),
    }
}

fn handles_of(found: Option<List<u32>>, alloc: Global) -> List<u32>
    ensures { result ≡ handles_of found }
{
    match found {
        Some(handles) => handles,
        None => List::new(alloc),
    }
}

/// One more handle was given on a lock file.
fn put_given(
    given: &mut Table<(Label, Label), List<u32>>,
    alloc: Global,
    krate: &Label,
    entry: &Label,
    h: u32,
) -> Result<(), Memory>
    ensures { OnOk result (given.new ≡ put_given (krate.now, entry.now) h given.old) }
{
    let path = path_of(krate, entry)?;
    let mut handles = handles_of(given.remove(&path), alloc);
    handles.push(h)?;
    given.insert(path, handles)
}

fn note_given(
    given: &mut Table<(Label, Label), List<u32>>,
    alloc: Global,
    step: &(Op, Reply),
) -> Result<(), Memory>
    ensures { OnOk result (given.new ≡ given_by step.now given.old) }
{
    match (&step.0, &step.1) {
        (Op::MakeLock { krate, entry }, Reply::Handle(handle)) => {
            put_given(given, alloc, krate, entry, *handle)
        }
        (Op::OpenLock { krate, entry }, Reply::Handle(handle)) => {
            put_given(given, alloc, krate, entry, *handle)
        }
        _ => Ok(()),
    }
}

/// Each of these files of a directory is listed at this place.
fn put_files(
    listed: &mut Table<((Label, Label), Label), usize>,
    krate: &Label,
    entry: &Label,
    files: &[Label],
    at: usize,
) -> Result<(), Memory>
    ensures { OnOk result (listed.new ≡ put_all file_cmp (λ file. ((krate.now, entry.now), file)) at files.now listed.old) }
{
    for file in files {
        let path = file_of(krate, entry, file)?;
        listed.insert(path, at)?;
    }
    Ok(())
}

fn note_listed(
    listed: &mut Table<((Label, Label), Label), usize>,
    step: &(Op, Reply),
    at: usize,
) -> Result<(), Memory>
    ensures { OnOk result (listed.new ≡ listed_by step.now at listed.old) }
{
    match (&step.0, &step.1) {
        (Op::ListDir { krate, entry }, Reply::Names(names)) => {
            put_files(listed, krate, entry, names.as_slice(), at)
        }
        _ => Ok(()),
    }
}

/// Each of these names of a crate directory is listed at this place.
fn put_names(
    looked: &mut Table<(Label, Label), usize>,
    krate: &Label,
    names: &[Label],
    at: usize,
) -> Result<(), Memory>
    ensures { OnOk result (looked.new ≡ put_all path_cmp (λ name. (krate.now, name)) at names.now looked.old) }
{
    for name in names {
        let path = path_of(krate, name)?;
        looked.insert(path, at)?;
    }
    Ok(())
}

fn note_looked(
    looked: &mut Table<(Label, Label), usize>,
    step: &(Op, Reply),
    at: usize,
) -> Result<(), Memory>
    ensures { OnOk result (looked.new ≡ looked_by step.now at looked.old) }
{
    match (&step.0, &step.1) {
        (Op::Look { krate }, Reply::Names(names)) => {
            put_names(looked, krate, names.as_slice(), at)
        }
        _ => Ok(()),
    }
}

/// Brings the index forward by a step, which stands at this place. After `Memory` it says nothing any more.
fn note(index: &mut Index, step: &(Op, Reply), at: usize) -> Result<(), Memory>
    requires { at < 2 ^ 63 }
    ensures { OnOk result ((steps : Steps) → at ≡ length steps → Indexes steps index.old → Indexes (step.now ∷ steps) index.new) }
{
    note_hold(&mut index.holds, step, at)?;
    note_given(&mut index.given, index.alloc, step)?;
    note_listed(&mut index.listed, step, at)?;
    note_looked(&mut index.looked, step, at)?;
    note_asked(&mut index.asked, step, at)?;
    index.made = made_by(step, at, index.made);
    note_unlinked(&mut index.unlinked, step, at)?;
    note_back(&mut index.back, index.alloc, step, at)?;
    note_newest(&mut index.newest, step)?;
    note_left(&mut index.left, index.alloc, step, at)
}

impl Index {
    /// That of no steps.
    pub(crate) fn new(alloc: Global) -> Index
        ensures { Indexes [] result }
    {
        Index {
            alloc,
            holds: Table::new(alloc),
            given: Table::new(alloc),
            listed: Table::new(alloc),
            looked: Table::new(alloc),
            asked: Table::new(alloc),
            made: None,
            unlinked: Table::new(alloc),
            back: Table::new(alloc),
            newest: Table::new(alloc),
            left: Table::new(alloc),
        }
    }
}

/// The index after one more step. (By value, so that nothing is left half changed after `Memory`.)
fn next_index(step: &(Op, Reply), at: usize, mut index: Index) -> Result<Index, Memory>
    requires { at < 2 ^ 63 }
    ensures { (steps : Steps) → at ≡ length steps → Indexes steps index → IfOk result (λ next. Indexes (step.now ∷ steps) next) }
{
    match note(&mut index, step, at) {
        Ok(()) => Ok(index),
        Err(refused) => {
            drop(index);
            Err(refused)
        }
    }
}

/// What is kept of the index after one more step: nothing where there is no memory for it.
fn indexed_after(step: &(Op, Reply), at: usize, kept: Option<Index>) -> Option<Index>
    requires { at < 2 ^ 63 }
    ensures { (steps : Steps) → at ≡ length steps → IfSome kept (Indexes steps) → IfSome result (Indexes (step.now ∷ steps)) }
{
    match kept {
        Some(index) => match next_index(step, at, index) {
            Ok(next) => Some(next),
            Err(_) => None,
        },
        None => None,
    }
}

/// Brings what is kept of the index forward by a step, which stands at this place. Nothing is kept any more where
/// there is no memory for it.
pub(crate) fn bring_index(kept: &mut Option<Index>, step: &(Op, Reply), at: usize)
    requires { at < 2 ^ 63 }
    ensures { (steps : Steps) → at ≡ length steps → IfSome kept.old (Indexes steps) → IfSome kept.new (Indexes (step.now ∷ steps)) }
{
    let next = indexed_after(step, at, mem::replace(kept, None));
    drop(mem::replace(kept, next));
}

/// The index of these steps.
fn index_of(alloc: Global, steps: &[(Op, Reply)]) -> Result<Index, Memory>
    ensures { IfOk result (λ index. Indexes (reverse steps.now) index) }
{
    let mut index = Index::new(alloc);
    for (at, step) in steps.iter().enumerate() {
        index = next_index(step, at, index)?;
    }
    Ok(index)
}

/// Tells the index from the steps where it isn't kept. Nothing is kept where there is no memory for it.
pub(crate) fn keep_index(kept: &mut Option<Index>, alloc: Global, steps: &[(Op, Reply)])
    requires { IfSome kept.old (Indexes (reverse steps.now)) }
    ensures { IfSome kept.new (Indexes (reverse steps.now)) }
{
    if kept.is_none() {
        if let Ok(index) = index_of(alloc, steps) {
            drop(mem::replace(kept, Some(index)));
        }
    }
}
