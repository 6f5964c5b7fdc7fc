ghost use Rattle.std.specs.Prelude.{◌≡◌};

use inc_base::{Bytes, Label};

/// A session's own lock, as its own steps tell it (docs/PROTOCOL.md, "What a session may do").
#[derive(Clone, Copy, Debug, PartialEq, Eq)]
pub enum OwnLock {
    /// It has none: no lock file was made for its name, or the lock was let go.
    NoLock,
    /// The handle that its `MakeLock` gave, on which it hasn't got the exclusive lock yet.
    Unlocked(u32),
    /// That handle, which has held the exclusive lock without a break.
    Locked(u32),
}

/// What a session knows of a file of its directory.
#[derive(Debug, Drop)]
pub struct Known {
    /// The entry that it was linked from, and `None` where the session made it.
    pub linked: Option<Label>,
    /// Its bytes, where they are known.
    pub bytes: Option<Bytes>,
}
