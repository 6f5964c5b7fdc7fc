ghost use Rattle.std.specs.Prelude.{◌≡◌, ◌≢◌, ◌↔◌, ◌<◌, ◌≤◌, ◌+◌, ◌∷◌, [], ℕ, List, None, Some, OnOk, IfOk, IsTrue, length, reverse};
ghost use Rattle.std.specs.Map.{lookup};
ghost use Rattle.std.specs.Ordering.{nat_cmp};
ghost use Rattle.std.specs.BTreeMap.{is_at};
ghost use Rattle.inc_base.specs.declared.job.Job.{Job};
ghost use Rattle.inc_fs.specs.State.{Text};
ghost use Rattle.inc_names.specs.declared.session.SessionName.{SessionName};
ghost use Rattle.inc_names.specs.declared.entry.Entry.TheVariants.{Final};
ghost use Rattle.inc_names.specs.Entries.{lock_text};
ghost use Rattle.inc_proto.specs.Events.{Steps, begins, own_steps, job_of};
ghost use Rattle.inc_laws.specs.Loads.{IsLatestLoad, IsLoaded, HasLoad, IsWholeSet};
ghost use Rattle.inc_laws.specs.Places.{opened_by, until_in, first, is_close, is_link, IsFar, IsUntil, IsUntilBy, IsBegun, later_found, IsFresh, AreFresh, IsSought};

use crate::ahead::told_ahead;
use crate::stands::final_name;
use inc_base::{Copied, Label, Memory};
use inc_fs::{Op, Reply, Table};
use inc_names::{Entry, SessionName, crate_dir, entry_text};
use inc_proto::{Content, Ground};
use std::alloc::Global;

/// The finalised entry that a session has loaded, by its own steps: that of its latest whole load. It was published by a
/// job of the session's crate, and the session's directory was given exactly that job's files. `None` exactly where it
/// has linked no whole set of files (docs/PROTOCOL.md, "What every legal history keeps"). It goes over the session's
/// steps twice; `Memory` where there is none for what it keeps of them.
pub fn loaded_is_whole<C: Content>(ground: &Ground<C>, who: u32) -> Result<Option<Entry>, Memory>
    requires { who < begins ground.now.history }
    ensures loaded { IfOk result (λ found. IsLoaded who ground.now.history found) }
    ensures whole { IfOk result (λ found. (n : SessionName) (hash : ℕ) → found ≡ Some (Final n hash) → IsWholeSet C.files ground.now.history who n hash) }
    ensures none { IfOk result (λ found. found ≡ None → (job : Job) (n : SessionName) (hash : ℕ) (names : List Text) → job_of who ground.now.history ≡ Some job → ¬ HasLoad job.krate n hash names (own_steps who ground.now.history)) }
{
    ground.legal();
    let view = ground.view(who);
    let alloc = view.job().text.allocator();
    let krate = crate_dir(alloc, &view.job().krate)?;
    match latest_load(alloc, &krate, view.steps())? {
        Some((name, hash)) => Ok(Some(Entry::Final(name, hash))),
        None => Ok(None),
    }
}

/// What is known of a session's own steps up to one of them.
#[derive(Drop)]
struct Search {
    /// The lock files of the crate that its open handles were opened on.
    opened: Table<u32, Label>,
    /// Until which place a lock file is held at most.
    until: Table<Label, usize>,
    /// The latest whole load that began.
    found: Option<(SessionName, u128)>,
}

fn note_opened(
    opened: &mut Table<u32, Label>,
    krate: &Label,
    step: &(Op, Reply),
) -> Result<(), Memory>
    ensures { OnOk result (opened.new ≡ opened_by krate.now step.now opened.old) }
{
    match (&step.0, &step.1) {
        (Op::MakeLock { .. }, Reply::Handle(handle)) => {
            drop(opened.remove(handle));
            Ok(())
        }
        (Op::OpenLock { krate: k, entry }, Reply::Handle(handle)) => {
            if k == krate {
                let entry = entry.copy()?;
                opened.insert(*handle, entry)
            } else {
                drop(opened.remove(handle));
                Ok(())
            }
        }
        (Op::Close { handle }, Reply::Done) => {
            drop(opened.remove(handle));
            Ok(())
        }
        _ => Ok(()),
    }
}

fn until_of(until: &Table<Label, usize>, entry: &Label) -> usize
    ensures { result ≡ until_in until.now entry.now }
{
    match until.get(entry) {
        Some(place) => *place,
        None => 0,
    }
}

/// A lock file is held at least so far.
fn hold_until(until: &mut Table<Label, usize>, entry: &Label, far: usize) -> Result<(), Memory>
    ensures { OnOk result (IsUntil entry.now far until.old until.new) }
{
    if until_of(until, entry) < far {
        let entry = entry.copy()?;
        until.insert(entry, far)
    } else {
        Ok(())
    }
}

fn note_until(
    until: &mut Table<Label, usize>,
    opened: &Table<u32, Label>,
    step: &(Op, Reply),
    far: usize,
) -> Result<(), Memory>
    ensures { OnOk result (IsUntilBy step.now opened.now far until.old until.new) }
{
    match (&step.0, &step.1) {
        (Op::TryLock { handle, .. }, Reply::Got) => match opened.get(handle) {
            Some(entry) => hold_until(until, entry, far),
            None => Ok(()),
        },
        _ => Ok(()),
    }
}

/// Whether the lock file of that name is held past this place.
fn is_held_past(
    until: &Table<Label, usize>,
    alloc: Global,
    name: SessionName,
    far: usize,
) -> Result<bool, Memory>
    ensures { IfOk result (λ yes. IsTrue yes ↔ (far < until_in until.now (lock_text name))) }
{
    let entry = entry_text(alloc, &Entry::Lock(name))?;
    Ok(far < until_of(until, &entry))
}

/// The directory of the whole load that this step begins.
fn begun(
    until: &Table<Label, usize>,
    alloc: Global,
    step: &(Op, Reply),
    far: usize,
) -> Result<Option<(SessionName, u128)>, Memory>
    ensures { IfOk result (λ found. IsBegun until.now far step.now found) }
{
    match (&step.0, &step.1) {
        (Op::ListDir { entry, .. }, Reply::Names(_)) => match final_name(entry) {
            Some((name, hash)) => {
                if is_held_past(until, alloc, name, far)? {
                    Ok(Some((name, hash)))
                } else {
                    Ok(None)
                }
            }
            None => Ok(None),
        },
        _ => Ok(None),
    }
}

fn later_found(
    found: Option<(SessionName, u128)>,
    before: Option<(SessionName, u128)>,
) -> Option<(SessionName, u128)>
    ensures { result ≡ later_found found before }
{
    match found {
        Some(it) => Some(it),
        None => before,
    }
}

/// Brings what is known forward by one step, of which this was told ahead.
fn note_step(
    search: &mut Search,
    alloc: Global,
    krate: &Label,
    step: &(Op, Reply),
    far: usize,
) -> Result<(), Memory>
    ensures { (before coming : Steps) (at end : ℕ) → end ≡ (at + 1) + length coming → IsSought krate.now before (step.now ∷ coming) at search.old.opened search.old.until search.old.found
        → IsFar krate.now (λ h. first (is_close h) coming (at + 1)) (λ path. first (is_link krate.now path) coming (at + 1)) end step.now far → IsFresh step.now before
        → OnOk result (IsSought krate.now (step.now ∷ before) coming (at + 1) search.new.opened search.new.until search.new.found) }
{
    let found = begun(&search.until, alloc, step, far)?;
    note_until(&mut search.until, &search.opened, step, far)?;
    note_opened(&mut search.opened, krate, step)?;
    search.found = later_found(found, search.found);
    Ok(())
}

/// Takes the next of what was told ahead.
fn next_far(fars: &mut Vec<usize>) -> usize
    ensures { (far : ℕ) (rest : List ℕ) → reverse fars.old.items ≡ far ∷ rest → (result ≡ far) × (reverse fars.new.items ≡ rest) }
{
    match fars.pop() {
        Some(far) => far,
        None => 0,
    }
}

/// The directory of the latest whole load of these steps.
fn latest_load(
    alloc: Global,
    krate: &Label,
    steps: &[(Op, Reply)],
) -> Result<Option<(SessionName, u128)>, Memory>
    requires { AreFresh (reverse steps.now) }
    ensures { IfOk result (λ found. IsLatestLoad krate.now (reverse steps.now) [] found) }
{
    let mut fars = told_ahead(alloc, krate, steps)?;
    let mut search = Search {
        opened: Table::new(alloc),
        until: Table::new(alloc),
        found: None,
    };
    for step in steps {
        let far = next_far(&mut fars);
        note_step(&mut search, alloc, krate, step, far)?;
    }
    Ok(search.found)
}
