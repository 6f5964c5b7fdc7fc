//! That each kind of step keeps the laws, from any history and state that meet them: each as the contract of
//! a call that does nothing (docs/PROTOCOL.md, "What every legal history keeps").
ghost use Rattle.std.specs.Prelude.{ℕ, Bool};
ghost use Rattle.inc_fs.specs.State.{Text};
ghost use Rattle.inc_fs.specs.declared.op.Op.TheVariants.{Draw, MakeLock, OpenLock, TryLock, Look, ListDir, MakeDir, Link, Read, Create, Append, Unlink, UnlinkLock, RemoveDir, Rename, Close};
ghost use Rattle.inc_laws.specs.Steps.{KeepsLaws};

/// A draw keeps the laws: it is permitted until the session has made a directory, so that directory
/// bears its latest name.
pub fn draws_keep_laws()
    ensures { KeepsLaws Draw }
{}

/// So does making a lock file: a session makes that of its latest name, once.
pub fn lock_files_made_keep_laws()
    ensures { (krate entry : Text) → KeepsLaws (MakeLock krate entry) }
{}

/// So does opening a lock file, which is always permitted.
pub fn lock_files_opened_keep_laws()
    ensures { (krate entry : Text) → KeepsLaws (OpenLock krate entry) }
{}

/// So does trying a lock, which is always permitted: a session whose directory stands never gets its
/// own lock again once it lost it.
pub fn locks_tried_keep_laws()
    ensures { (handle : ℕ) (exclusive : Bool) → KeepsLaws (TryLock handle exclusive) }
{}

/// So does a look: each finalised entry that stands was published.
pub fn looks_keep_laws()
    ensures { (krate : Text) → KeepsLaws (Look krate) }
{}

/// So does listing a directory.
pub fn listings_keep_laws()
    ensures { (krate entry : Text) → KeepsLaws (ListDir krate entry) }
{}

/// So does making a directory: a session makes one, with its own lock, under its latest name.
pub fn directories_made_keep_laws()
    ensures { (krate entry : Text) → KeepsLaws (MakeDir krate entry) }
{}

/// So does a link: it leads to a file of a finalised directory, whose creator has published.
pub fn links_keep_laws()
    ensures { (krate from to file : Text) → KeepsLaws (Link krate from to file) }
{}

/// So does a read.
pub fn reads_keep_laws()
    ensures { (krate entry file : Text) → KeepsLaws (Read krate entry file) }
{}

/// So does creating a file in the session's own directory.
pub fn files_created_keep_laws()
    ensures { (krate entry file : Text) → KeepsLaws (Create krate entry file) }
{}

/// So does an append, also one that faults after some of its bytes: a session appends to what it
/// created itself and hasn't published.
pub fn appends_keep_laws()
    ensures { (krate entry file piece : Text) → KeepsLaws (Append krate entry file piece) }
{}

/// So does taking a name of a file away, in the session's own directory, or in one whose name it holds
/// exclusively.
pub fn files_unlinked_keep_laws()
    ensures { (krate entry file : Text) → KeepsLaws (Unlink krate entry file) }
{}

/// So does removing a lock file: open handles keep it.
pub fn lock_files_removed_keep_laws()
    ensures { (krate entry : Text) → KeepsLaws (UnlinkLock krate entry) }
{}

/// So does removing a directory.
pub fn directories_removed_keep_laws()
    ensures { (krate entry : Text) → KeepsLaws (RemoveDir krate entry) }
{}

/// So does renaming: publishing with the own lock and exactly the job's files, and retiring where a
/// newer entry was seen.
pub fn renames_keep_laws()
    ensures { (krate from to : Text) → KeepsLaws (Rename krate from to) }
{}

/// So does closing a handle.
pub fn closes_keep_laws()
    ensures { (handle : ℕ) → KeepsLaws (Close handle) }
{}
