ghost use Rattle.std.specs.Prelude.{◌≡◌, ◌==◌, [], IfOk, filter, not};
ghost use Rattle.std.specs.List.{list_any};

use crate::table::Table;
use inc_base::{Bytes, Label, List, Memory};
use std::alloc::Global;

/// Who holds a file's lock, by the numbers of open handles.
#[derive(Debug, Drop)]
pub enum Lock {
    Free,
    Shared(List<u32>),
    Exclusive(u32),
}

/// A file: what it holds, and its lock.
#[derive(Debug, Drop)]
pub struct File {
    pub bytes: Bytes,
    pub lock: Lock,
}

/// What stands in a crate directory under a name: a lock file, by its number, or a directory of named
/// files, by their numbers.
#[derive(Drop)]
pub enum Entry {
    LockFile(u32),
    Folder(Table<Label, u32>),
}

/// An open handle: the number of the session that it belongs to, and of its file.
#[derive(Clone, Copy, Debug, PartialEq, Eq)]
pub struct Handle {
    pub owner: u32,
    pub file: u32,
}

impl File {
    pub(crate) fn new(alloc: Global) -> File
        ensures bytes { result.bytes ≡ [] }
        ensures lock { result.lock ≡ Lock.Free }
    {
        File {
            bytes: Bytes::new(alloc),
            lock: Lock::Free,
        }
    }
}

fn without(alloc: Global, holders: &[u32], handle: u32) -> Result<List<u32>, Memory>
    ensures { IfOk result (λ it. it ≡ filter (λ other. not (other == handle)) holders.now) }
{
    let mut others = List::new(alloc);
    for other in holders {
        if *other != handle {
            others.push(*other)?;
        }
    }
    Ok(others)
}

fn has_other(holders: &[u32], handle: u32) -> bool
    ensures { result ≡ list_any (λ other. not (other == handle)) holders.now }
{
    holders.iter().any(|other| *other != handle)
}

impl Lock {
    ghost use Rattle.std.specs.Prelude.{◌≡◌, IfOk};
    ghost use Rattle.inc_fs.specs.State.{is_excluded, locked, freed, others, shared_by};

    /// Whether another handle holds it in a way that excludes this one.
    pub(crate) fn excludes(&self, handle: u32, exclusive: bool) -> bool
        ensures { result ≡ is_excluded self.now handle exclusive }
    {
        match self {
            Lock::Free => false,
            Lock::Shared(holders) => {
                if exclusive {
                    has_other(holders.as_slice(), handle)
                } else {
                    false
                }
            }
            Lock::Exclusive(holder) => *holder != handle,
        }
    }

    fn others(&self, alloc: Global, handle: u32) -> Result<List<u32>, Memory>
        ensures { IfOk result (λ it. it ≡ others self.now handle) }
    {
        match self {
            Lock::Shared(holders) => without(alloc, holders.as_slice(), handle),
            Lock::Free => Ok(List::new(alloc)),
            Lock::Exclusive(_) => Ok(List::new(alloc)),
        }
    }

    /// The lock once this handle has got it.
    pub(crate) fn locked(&self, alloc: Global, handle: u32, exclusive: bool) -> Result<Lock, Memory>
        ensures { IfOk result (λ lock. lock ≡ locked self.now handle exclusive) }
    {
        if exclusive {
            return Ok(Lock::Exclusive(handle));
        }
        let mut holders = self.others(alloc, handle)?;
        holders.push(handle)?;
        Ok(Lock::Shared(holders))
    }

    #[tactic(auto, unfolding(crate::specs::State::shared_by))]
    pub(crate) fn shared_by(holders: List<u32>) -> Lock
        ensures { result ≡ shared_by holders }
    {
        if holders.as_slice().is_empty() {
            Lock::Free
        } else {
            Lock::Shared(holders)
        }
    }
}
