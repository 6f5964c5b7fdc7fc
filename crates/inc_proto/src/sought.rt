//! Looking for a step among a session's own.
ghost use Rattle.std.specs.Prelude.{◌≡◌, ◌↔◌, ℕ, IsTrue, reverse};
ghost use Rattle.inc_fs.specs.Lists.{IsIn};
ghost use Rattle.inc_fs.specs.declared.op.Op.TheVariants.{MakeLock, Rename};
ghost use Rattle.inc_names.specs.declared.session.SessionName.{SessionName};
ghost use Rattle.inc_names.specs.Entries.{final_text, IsSessionName, IsNewer};
ghost use Rattle.inc_proto.specs.Views.{HasAny, IsLook, IsListing, IsDone, IsMakeDir, IsTry};
ghost use Rattle.inc_proto.specs.Permits.{IsHash};
ghost use Rattle.inc_proto.specs.Sought.{IsSought};

use crate::entries::{final_name, is_final_of};
use inc_base::Label;
use inc_fs::{Op, Reply};
use inc_names::{SessionName, newer};

/// What is looked for: a step of this kind.
#[derive(Clone, Copy, Debug)]
pub(crate) enum Sought<'a> {
    /// A `Look` of a crate directory that lists this.
    Look(&'a Label, &'a Label),
    /// A `Look` of a crate directory that lists both.
    Both(&'a Label, &'a Label, &'a Label),
    /// A `ListDir` of a directory that lists this file.
    Listing(&'a Label, &'a Label, &'a Label),
    /// A finalised directory of this session was renamed to this name.
    Back(&'a Label, &'a Label, SessionName),
    /// A `Look` of a crate directory that lists a finalised directory newer than this session's.
    Newer(&'a Label, SessionName),
    /// It asked for this lock file.
    LockMaking(&'a Label, &'a Label),
    /// It asked for a directory.
    DirMaking,
}

/// Whether a name is listed.
pub(crate) fn lists(names: &[Label], entry: &Label) -> bool
    ensures { IsTrue result ↔ IsIn names.now entry.now }
{
    for name in names {
        if name == entry {
            return true;
        }
    }
    false
}

pub(crate) fn is_look(step: &(Op, Reply), krate: &Label, entry: &Label) -> bool
    ensures { IsTrue result ↔ IsLook krate.now entry.now step.now }
{
    match (&step.0, &step.1) {
        (Op::Look { krate: k }, Reply::Names(names)) => k == krate
            && lists(names.as_slice(), entry),
        _ => false,
    }
}

fn is_listing(step: &(Op, Reply), krate: &Label, entry: &Label, file: &Label) -> bool
    ensures { IsTrue result ↔ IsListing krate.now entry.now file.now step.now }
{
    match (&step.0, &step.1) {
        (Op::ListDir { krate: k, entry: e }, Reply::Names(names)) => {
            k == krate && e == entry && lists(names.as_slice(), file)
        }
        _ => false,
    }
}

/// Whether a finalised directory of this session was renamed so.
fn is_back(step: &(Op, Reply), krate: &Label, entry: &Label, n: SessionName) -> bool
    ensures { IsTrue result ↔ ((hash : ℕ) × IsHash hash × IsDone (Rename krate.now (final_text n hash) entry.now) step.now) }
{
    match (&step.0, &step.1) {
        (Op::Rename { krate: k, from, to }, Reply::Done) => {
            k == krate && to == entry && is_final_dir_of(from, n)
        }
        _ => false,
    }
}

pub(crate) fn is_final_dir_of(l: &Label, n: SessionName) -> bool
    ensures { IsTrue result ↔ ((hash : ℕ) × IsHash hash × (l.now ≡ final_text n hash)) }
{
    match final_name(l) {
        Some((_, hash)) => is_final_of(l, n, hash),
        None => false,
    }
}

fn is_newer_final(l: &Label, n: SessionName) -> bool
    ensures { IsTrue result ↔ ((m : SessionName) × (hash : ℕ) × IsSessionName m × IsHash hash × (l.now ≡ final_text m hash) × IsNewer m n) }
{
    match final_name(l) {
        Some((name, _)) => newer(name, n),
        None => false,
    }
}

fn lists_newer(names: &[Label], n: SessionName) -> bool
    ensures { IsTrue result ↔ ((m : SessionName) × (hash : ℕ) × IsSessionName m × IsHash hash × IsIn names.now (final_text m hash) × IsNewer m n) }
{
    for name in names {
        if is_newer_final(name, n) {
            return true;
        }
    }
    false
}

fn shows_newer(step: &(Op, Reply), krate: &Label, n: SessionName) -> bool
    ensures { IsTrue result ↔ ((m : SessionName) × (hash : ℕ) × IsSessionName m × IsHash hash × IsLook krate.now (final_text m hash) step.now × IsNewer m n) }
{
    match (&step.0, &step.1) {
        (Op::Look { krate: k }, Reply::Names(names)) => k == krate
            && lists_newer(names.as_slice(), n),
        _ => false,
    }
}

fn is_lock_making(op: &Op, krate: &Label, entry: &Label) -> bool
    ensures { IsTrue result ↔ (op.now ≡ MakeLock krate.now entry.now) }
{
    match op {
        Op::MakeLock { krate: k, entry: e } => k == krate && e == entry,
        _ => false,
    }
}

fn is_dir_making(step: &(Op, Reply)) -> bool
    ensures { IsTrue result ↔ IsMakeDir step.now }
{
    matches!(step.0, Op::MakeDir { .. })
}

fn is_sought(step: &(Op, Reply), sought: Sought) -> bool
    ensures { IsTrue result ↔ IsSought sought.entry step.now }
{
    match sought {
        Sought::Look(krate, entry) => is_look(step, krate, entry),
        Sought::Both(krate, x, y) => is_look(step, krate, x) && is_look(step, krate, y),
        Sought::Listing(krate, entry, file) => is_listing(step, krate, entry, file),
        Sought::Back(krate, entry, n) => is_back(step, krate, entry, n),
        Sought::Newer(krate, n) => shows_newer(step, krate, n),
        Sought::LockMaking(krate, entry) => is_lock_making(&step.0, krate, entry),
        Sought::DirMaking => is_dir_making(step),
    }
}

/// Whether one of these steps, in their order, is what is looked for.
pub(crate) fn has(steps: &[(Op, Reply)], sought: Sought) -> bool
    ensures { IsTrue result ↔ HasAny (IsSought sought.entry) (reverse steps.now) }
{
    for step in steps {
        if is_sought(step, sought) {
            return true;
        }
    }
    false
}
