ghost use Rattle.std.specs.Prelude.{◌≡◌, ◌≤◌, ◌+◌, ℕ, IfOk};
ghost use Rattle.inc_fs.specs.Kinds.{IsKindOf};
ghost use Rattle.inc_fs.specs.declared.op.Op.TheVariants.{TryLock, Close};

use crate::stop::{Failure, Stop};
use inc_base::Memory;
use inc_fs::Reply;
use std::alloc::Global;
use std::collections::BTreeMap;
use std::fs::{File, TryLockError};

/// How a handle holds its file's lock.
#[derive(Clone, Copy, Debug, PartialEq, Eq)]
enum Mode {
    Shared,
    Exclusive,
}

/// An open lock file, and how its lock is held.
#[derive(Drop)]
struct Handle {
    file: File,
    mode: Option<Mode>,
}

/// The open handles by their numbers, of which none is given twice.
#[derive(Drop)]
pub struct Handles {
    open: BTreeMap<u32, Handle>,
    next: u64,
}

impl Handles {
    /// None yet. It takes no memory.
    pub fn new(alloc: Global) -> Handles
        ensures { result.next ≡ 0 }
    {
        Handles {
            open: BTreeMap::new(alloc),
            next: 0,
        }
    }

    /// The number that the next file gets. `Memory` where none is left.
    pub fn next(&self) -> Result<u32, Memory>
        ensures { IfOk result (λ number. number ≡ self.now.next) }
    {
        u32::try_from(self.next).map_err(|_| Memory)
    }

    /// Keeps an open file under its number. `Memory` closes it, and uses no number up.
    pub fn keep(&mut self, file: File) -> Result<u32, Memory>
        ensures ok { IfOk result (λ number. (number ≡ self.old.next) × (self.new.next ≡ number + 1)) }
    {
        let number = self.next()?;
        self.open.insert(number, Handle { file, mode: None })?;
        self.next = u64::from(number) + 1;
        Ok(number)
    }

    /// Takes the lock of an open handle, in this mode and no other.
    pub fn try_lock(&mut self, handle: u32, exclusive: bool) -> Result<Reply, Stop>
        ensures { IfOk result (λ reply. IsKindOf (TryLock handle exclusive) reply) }
    {
        let mode = if exclusive {
            Mode::Exclusive
        } else {
            Mode::Shared
        };
        let Some(held) = self.open.get_mut(&handle) else {
            return Ok(Reply::Missing);
        };
        if held.take(mode)? {
            Ok(Reply::Got)
        } else {
            Ok(Reply::Held)
        }
    }

    /// Closes a handle, which frees its lock.
    pub fn close(&mut self, handle: u32) -> Reply
        ensures { IsKindOf (Close handle) result }
    {
        match self.open.remove(&handle) {
            Some(_) => Reply::Done,
            None => Reply::Missing,
        }
    }

    /// Closes all handles. Their numbers stay used.
    pub fn close_all(&mut self) {
        self.open.clear();
    }
}

impl Handle {
    /// Whether the handle holds the lock in this mode now. Where another one excludes it, it holds what it
    /// held before.
    fn take(&mut self, mode: Mode) -> Result<bool, Stop> {
        let before = self.mode;
        if before == Some(mode) {
            return Ok(true);
        }
        // The system frees the old lock before it grants or refuses the new one.
        self.mode = None;
        if grant(&self.file, mode)? {
            self.mode = Some(mode);
            return Ok(true);
        }
        if let Some(old) = before {
            if !grant(&self.file, old)? {
                return Err(Stop::Failed(Failure::Lock));
            }
            self.mode = before;
        }
        Ok(false)
    }
}

/// Whether the system grants the lock.
fn grant(file: &File, mode: Mode) -> Result<bool, Stop> {
    let granted = match mode {
        Mode::Shared => file.try_lock_shared(),
        Mode::Exclusive => file.try_lock(),
    };
    match granted {
        Ok(()) => Ok(true),
        Err(TryLockError::WouldBlock) => Ok(false),
        Err(e) => Err(e.into()),
    }
}
