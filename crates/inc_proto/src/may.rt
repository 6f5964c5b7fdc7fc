//! Whether a session may make a step, by its own steps: one question for each permission. What they say of
//! its name, its own lock and its directory is given.
ghost use Rattle.std.specs.Prelude.{◌≡◌, ◌↔◌, ◌⊎◌, ◌<◌, ◌≤◌, ℕ, IsTrue, IfOk, IfSome, length, Option, Some, reverse};
ghost use Rattle.inc_fs.specs.declared.op.Op.TheVariants.{MakeLock};
ghost use Rattle.inc_names.specs.Entries.{lock_text, working_text};
ghost use Rattle.inc_proto.specs.declared.own.OwnLock.TheVariants.{Locked};
ghost use Rattle.inc_proto.specs.Events.{Steps};
ghost use Rattle.inc_proto.specs.Indexes.{Indexes};
ghost use Rattle.inc_proto.specs.Asked.{HasNewer, HoldsBoth};
ghost use Rattle.inc_proto.specs.Views.{name, own, dir, alone, HasTried, HasTriedDir, IsStanding};
ghost use Rattle.inc_proto.specs.Views.Dir.{Unmade, Removed};
ghost use Rattle.inc_proto.specs.Permits.{IsNotOut, MayDraw, MayRead, MayMakeLock, MayMakeDirectory, MayLink, MayCreate, MayAppend, MayClear, MayClearOwn, MayClearOthers, MayRetire, MayRemoveLock, MayRemoveOwn, MayRemoveOthers};

use crate::entries::{final_name, is_lock_of, is_working_of, lock_name, working_name};
use crate::holds::{Question, Way, held_from};
use crate::index::Index;
use crate::own::OwnLock;
use crate::own_dir::OwnDir;
use crate::sought::{Sought, has};
use crate::standing::is_standing;
use crate::told::{has_so, holds_so};
use inc_base::{Bytes, Job, Label, Memory};
use inc_fs::{Op, Reply};
use inc_names::{Entry, SessionName, entry_text};
use std::alloc::Global;

fn is_of(krate: &Label, job: &Job) -> bool
    ensures { IsTrue result ↔ (krate.now ≡ job.now.krate) }
{
    krate.bytes() == job.krate.bytes()
}

fn is_locked(lock: OwnLock) -> bool
    ensures { IsTrue result ↔ ((h : ℕ) × (lock ≡ Locked h)) }
{
    matches!(lock, OwnLock::Locked(_))
}

/// Whether it may draw.
pub(crate) fn may_draw(its: &OwnDir) -> bool
    ensures { (steps : Steps) → its.now ≡ dir steps → (IsTrue result ↔ MayDraw steps) }
{
    its.is_unmade()
}

/// Whether it may read there.
pub(crate) fn may_read(its: &OwnDir, krate: &Label, entry: &Label) -> bool
    ensures { (steps : Steps) → its.now ≡ dir steps → (IsTrue result ↔ MayRead steps krate.now entry.now) }
{
    its.stands_at(krate, entry)
}

/// Whether it may create this file.
pub(crate) fn may_create(
    its: &OwnDir,
    lock: OwnLock,
    krate: &Label,
    entry: &Label,
    file: &Label,
) -> bool
    ensures { (steps : Steps) → its.now ≡ dir steps → lock ≡ own steps → (IsTrue result ↔ MayCreate steps krate.now entry.now file.now) }
{
    is_locked(lock) && its.lacks(krate, entry, file)
}

/// Whether a piece is neither empty nor too long.
fn is_piece(piece: &Bytes) -> bool
    ensures { IsTrue result ↔ ((0 < length piece.now) × (length piece.now ≤ 65536)) }
{
    let long = piece.len();
    0 < long && long <= 65_536
}

/// Whether it may append this piece to the file.
pub(crate) fn may_append(
    its: &OwnDir,
    lock: OwnLock,
    krate: &Label,
    entry: &Label,
    file: &Label,
    piece: &Bytes,
) -> bool
    ensures { (steps : Steps) → its.now ≡ dir steps → lock ≡ own steps → (IsTrue result ↔ MayAppend steps krate.now entry.now file.now piece.now) }
{
    if is_piece(piece) {
        is_locked(lock) && its.has_made(krate, entry, file)
    } else {
        false
    }
}

/// Whether the lock file that it is to make is this one, and it hasn't asked for it.
fn is_first_lock(
    steps: &[(Op, Reply)],
    index: Option<&Index>,
    n: SessionName,
    job: &Job,
    krate: &Label,
    entry: &Label,
) -> Result<bool, Memory>
    requires { IfSome index (λ index. Indexes (reverse steps.now) index.now) }
    ensures { IfOk result (λ yes. IsTrue yes ↔ ((krate.now ≡ job.now.krate) × (entry.now ≡ lock_text n) × (¬ HasTried (MakeLock krate.now entry.now) (reverse steps.now)))) }
{
    let asked = has_so(steps, index, Sought::LockMaking(krate, entry))?;
    Ok(is_of(krate, job) && is_lock_of(entry, n) && !asked)
}

/// Whether it may make this lock file.
pub(crate) fn may_make_lock(
    steps: &[(Op, Reply)],
    index: Option<&Index>,
    drawn: Option<SessionName>,
    job: &Job,
    krate: &Label,
    entry: &Label,
) -> Result<bool, Memory>
    requires drawn { drawn ≡ name (reverse steps.now) }
    requires index { IfSome index (λ index. Indexes (reverse steps.now) index.now) }
    ensures { IfOk result (λ yes. IsTrue yes ↔ MayMakeLock job.now (reverse steps.now) krate.now entry.now) }
{
    match drawn {
        Some(n) => is_first_lock(steps, index, n, job, krate, entry),
        None => Ok(false),
    }
}

/// Whether the lock file of its name stands, by the steps since this handle has held its lock. It looks through
/// them.
fn has_stood(
    steps: &[(Op, Reply)],
    alloc: Global,
    krate: &Label,
    n: SessionName,
    h: u32,
) -> Result<bool, Memory>
    ensures { IfOk result (λ yes. IsTrue yes ↔ ((after : Steps) × (alone h (reverse steps.now) ≡ Some after) × IsStanding krate.now (lock_text n) after)) }
{
    match held_from(steps, Way::Alone, h) {
        Some(from) => {
            let lock = entry_text(alloc, &Entry::Lock(n))?;
            Ok(is_standing(&steps[from..], krate, &lock))
        }
        None => Ok(false),
    }
}

/// The same, by the index where it is kept.
fn stands_since(
    steps: &[(Op, Reply)],
    index: Option<&Index>,
    alloc: Global,
    krate: &Label,
    n: SessionName,
    h: u32,
) -> Result<bool, Memory>
    requires { IfSome index (λ index. Indexes (reverse steps.now) index.now) }
    ensures { IfOk result (λ yes. IsTrue yes ↔ ((after : Steps) × (alone h (reverse steps.now) ≡ Some after) × IsStanding krate.now (lock_text n) after)) }
{
    match index {
        Some(index) => index.stands_since(krate, n, h),
        None => has_stood(steps, alloc, krate, n, h),
    }
}

/// Whether it has its own lock, and the lock file of its name stands, by the steps since.
fn has_standing_lock(
    steps: &[(Op, Reply)],
    index: Option<&Index>,
    lock: OwnLock,
    alloc: Global,
    krate: &Label,
    n: SessionName,
) -> Result<bool, Memory>
    requires { IfSome index (λ index. Indexes (reverse steps.now) index.now) }
    ensures { IfOk result (λ yes. IsTrue yes ↔ ((h : ℕ) × (after : Steps) × (lock ≡ Locked h) × (alone h (reverse steps.now) ≡ Some after) × IsStanding krate.now (lock_text n) after)) }
{
    match lock {
        OwnLock::Locked(h) => stands_since(steps, index, alloc, krate, n, h),
        OwnLock::NoLock => Ok(false),
        OwnLock::Unlocked(_) => Ok(false),
    }
}

/// Whether the directory that it is to make is this one, and it hasn't asked for one.
fn is_first_dir(
    steps: &[(Op, Reply)],
    index: Option<&Index>,
    n: SessionName,
    job: &Job,
    krate: &Label,
    entry: &Label,
) -> Result<bool, Memory>
    requires { IfSome index (λ index. Indexes (reverse steps.now) index.now) }
    ensures { IfOk result (λ yes. IsTrue yes ↔ ((krate.now ≡ job.now.krate) × (entry.now ≡ working_text n) × (¬ HasTriedDir (reverse steps.now)))) }
{
    let asked = has_so(steps, index, Sought::DirMaking)?;
    Ok(is_of(krate, job) && is_working_of(entry, n) && !asked)
}

/// Whether it may make this directory.
pub(crate) fn may_make_dir(
    steps: &[(Op, Reply)],
    index: Option<&Index>,
    drawn: Option<SessionName>,
    lock: OwnLock,
    alloc: Global,
    job: &Job,
    krate: &Label,
    entry: &Label,
) -> Result<bool, Memory>
    requires drawn { drawn ≡ name (reverse steps.now) }
    requires lock { lock ≡ own (reverse steps.now) }
    requires index { IfSome index (λ index. Indexes (reverse steps.now) index.now) }
    ensures { IfOk result (λ yes. IsTrue yes ↔ MayMakeDirectory job.now (reverse steps.now) krate.now entry.now) }
{
    match drawn {
        Some(n) => {
            if is_first_dir(steps, index, n, job, krate, entry)? {
                has_standing_lock(steps, index, lock, alloc, krate, n)
            } else {
                Ok(false)
            }
        }
        None => Ok(false),
    }
}

/// Whether it may link this file.
pub(crate) fn may_link(
    steps: &[(Op, Reply)],
    index: Option<&Index>,
    its: &OwnDir,
    lock: OwnLock,
    krate: &Label,
    from: &Label,
    to: &Label,
    file: &Label,
) -> Result<bool, Memory>
    requires dir { its.now ≡ dir (reverse steps.now) }
    requires lock { lock ≡ own (reverse steps.now) }
    requires index { IfSome index (λ index. Indexes (reverse steps.now) index.now) }
    ensures { IfOk result (λ yes. IsTrue yes ↔ MayLink (reverse steps.now) krate.now from.now to.now file.now) }
{
    match final_name(from) {
        Some((n, _)) => {
            if may_create(its, lock, krate, to, file) {
                let listing = Question::Has(Sought::Listing(krate, from, file));
                holds_so(steps, index, krate, n, Way::ByOpening, listing)
            } else {
                Ok(false)
            }
        }
        None => Ok(false),
    }
}

/// Whether its own directory stands there, and it has its own lock.
pub(crate) fn may_clear_own(its: &OwnDir, lock: OwnLock, krate: &Label, entry: &Label) -> bool
    ensures { (steps : Steps) → its.now ≡ dir steps → lock ≡ own steps → (IsTrue result ↔ MayClearOwn steps krate.now entry.now) }
{
    is_locked(lock) && its.stands_at(krate, entry)
}

fn may_clear_others(
    steps: &[(Op, Reply)],
    index: Option<&Index>,
    its: &OwnDir,
    krate: &Label,
    entry: &Label,
) -> Result<bool, Memory>
    requires dir { its.now ≡ dir (reverse steps.now) }
    requires index { IfSome index (λ index. Indexes (reverse steps.now) index.now) }
    ensures { IfOk result (λ yes. IsTrue yes ↔ MayClearOthers (reverse steps.now) krate.now entry.now) }
{
    match working_name(entry) {
        Some(n) => {
            if its.is_others(krate, n) {
                let seen = Question::Either(
                    Sought::Look(krate, entry),
                    Sought::Back(krate, entry, n),
                );
                holds_so(steps, index, krate, n, Way::Alone, seen)
            } else {
                Ok(false)
            }
        }
        None => Ok(false),
    }
}

/// Whether it may clear this directory.
pub(crate) fn may_clear(
    steps: &[(Op, Reply)],
    index: Option<&Index>,
    its: &OwnDir,
    lock: OwnLock,
    krate: &Label,
    entry: &Label,
) -> Result<bool, Memory>
    requires dir { its.now ≡ dir (reverse steps.now) }
    requires lock { lock ≡ own (reverse steps.now) }
    requires index { IfSome index (λ index. Indexes (reverse steps.now) index.now) }
    ensures { IfOk result (λ yes. IsTrue yes ↔ MayClear (reverse steps.now) krate.now entry.now) }
{
    if may_clear_own(its, lock, krate, entry) {
        return Ok(true);
    }
    may_clear_others(steps, index, its, krate, entry)
}

/// Whether this is its own lock file, and it has its own lock.
fn is_own_file(n: SessionName, lock: OwnLock, job: &Job, krate: &Label, entry: &Label) -> bool
    ensures { IsTrue result ↔ ((krate.now ≡ job.now.krate) × (entry.now ≡ lock_text n) × ((h : ℕ) × (lock ≡ Locked h))) }
{
    is_of(krate, job) && is_lock_of(entry, n) && is_locked(lock)
}

/// Whether no directory of its own is left that it could have to clear.
fn is_nowhere(its: &OwnDir) -> bool
    ensures { IsTrue result ↔ ((its.now ≡ Unmade) ⊎ (its.now ≡ Removed)) }
{
    its.is_unmade() || its.is_removed()
}

/// Whether it was left to the session to take its own lock file away.
fn may_remove_own(
    drawn: Option<SessionName>,
    its: &OwnDir,
    lock: OwnLock,
    job: &Job,
    krate: &Label,
    entry: &Label,
) -> bool
    ensures { (steps : Steps) → drawn ≡ name steps → its.now ≡ dir steps → lock ≡ own steps → (IsTrue result ↔ MayRemoveOwn job.now steps krate.now entry.now) }
{
    match drawn {
        Some(n) => is_own_file(n, lock, job, krate, entry) && is_nowhere(its),
        None => false,
    }
}

fn may_remove_others(
    steps: &[(Op, Reply)],
    index: Option<&Index>,
    krate: &Label,
    entry: &Label,
) -> Result<bool, Memory>
    requires { IfSome index (λ index. Indexes (reverse steps.now) index.now) }
    ensures { IfOk result (λ yes. IsTrue yes ↔ MayRemoveOthers (reverse steps.now) krate.now entry.now) }
{
    match lock_name(entry) {
        Some(n) => holds_so(
            steps,
            index,
            krate,
            n,
            Way::Alone,
            Question::Clear(krate, n),
        ),
        None => Ok(false),
    }
}

/// Whether it may take this lock file away. It looks through the steps, where the file isn't its own.
pub(crate) fn may_remove_lock(
    steps: &[(Op, Reply)],
    index: Option<&Index>,
    drawn: Option<SessionName>,
    its: &OwnDir,
    lock: OwnLock,
    job: &Job,
    krate: &Label,
    entry: &Label,
) -> Result<bool, Memory>
    requires drawn { drawn ≡ name (reverse steps.now) }
    requires dir { its.now ≡ dir (reverse steps.now) }
    requires lock { lock ≡ own (reverse steps.now) }
    requires index { IfSome index (λ index. Indexes (reverse steps.now) index.now) }
    ensures { IfOk result (λ yes. IsTrue yes ↔ MayRemoveLock job.now (reverse steps.now) krate.now entry.now) }
{
    if may_remove_own(drawn, its, lock, job, krate, entry) {
        return Ok(true);
    }
    may_remove_others(steps, index, krate, entry)
}

/// Whether a `Look` listed a finalised directory newer than n's. It looks through the steps.
fn has_seen_newer(steps: &[(Op, Reply)], krate: &Label, n: SessionName) -> bool
    ensures { IsTrue result ↔ HasNewer krate.now n (reverse steps.now) }
{
    has(steps, Sought::Newer(krate, n))
}

/// The same, by the index where it is kept.
fn has_newer(steps: &[(Op, Reply)], index: Option<&Index>, krate: &Label, n: SessionName) -> bool
    requires { IfSome index (λ index. Indexes (reverse steps.now) index.now) }
    ensures { IsTrue result ↔ HasNewer krate.now n (reverse steps.now) }
{
    match index {
        Some(index) => index.has_newer(krate, n),
        None => has_seen_newer(steps, krate, n),
    }
}

/// Whether n's finalised directories, of which there is a newer one, are others', and would be renamed to
/// n's working name.
fn is_outdated(
    steps: &[(Op, Reply)],
    index: Option<&Index>,
    its: &OwnDir,
    krate: &Label,
    n: SessionName,
    to: &Label,
) -> bool
    requires { IfSome index (λ index. Indexes (reverse steps.now) index.now) }
    ensures { IsTrue result ↔ ((to.now ≡ working_text n) × IsNotOut krate.now n its.now × HasNewer krate.now n (reverse steps.now)) }
{
    is_working_of(to, n) && its.is_others(krate, n) && has_newer(steps, index, krate, n)
}

/// Whether it holds n exclusively, and since then saw n's lock file and this directory in one `Look`.
fn holds_both(
    steps: &[(Op, Reply)],
    index: Option<&Index>,
    alloc: Global,
    krate: &Label,
    n: SessionName,
    from: &Label,
) -> Result<bool, Memory>
    requires { IfSome index (λ index. Indexes (reverse steps.now) index.now) }
    ensures { IfOk result (λ yes. IsTrue yes ↔ HoldsBoth krate.now from.now n (reverse steps.now)) }
{
    let lock = entry_text(alloc, &Entry::Lock(n))?;
    let both = Question::Has(Sought::Both(krate, &lock, from));
    holds_so(steps, index, krate, n, Way::Alone, both)
}

/// Whether it may rename this finalised directory back.
pub(crate) fn may_retire(
    steps: &[(Op, Reply)],
    index: Option<&Index>,
    its: &OwnDir,
    alloc: Global,
    krate: &Label,
    from: &Label,
    to: &Label,
) -> Result<bool, Memory>
    requires dir { its.now ≡ dir (reverse steps.now) }
    requires index { IfSome index (λ index. Indexes (reverse steps.now) index.now) }
    ensures { IfOk result (λ yes. IsTrue yes ↔ MayRetire (reverse steps.now) krate.now from.now to.now) }
{
    match final_name(from) {
        Some((n, _)) => {
            if is_outdated(steps, index, its, krate, n, to) {
                holds_both(steps, index, alloc, krate, n, from)
            } else {
                Ok(false)
            }
        }
        None => Ok(false),
    }
}
