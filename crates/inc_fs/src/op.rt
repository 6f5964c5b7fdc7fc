ghost use Rattle.std.specs.Prelude.{◌≡◌, IfOk, OnErr, MatchResult};
ghost use Rattle.std.proofs.Common.{rules};
ghost use Rattle.inc_fs.specs.Kinds.{IsTold};

use inc_base::{Bytes, Copied, Label, List};
use std::alloc::AllocError;

/// A step that a session asks of the directory (docs/PROTOCOL.md, "The table of steps").
///
/// `krate` names a crate directory, `entry`, `from` and `to` name entries of it, and `file` names a
/// file of a session's directory.
#[derive(Debug, Drop)]
pub enum Op {
    /// Draws a new pair of a moment and a random part, which makes a session's name.
    Draw,
    /// Makes an empty lock file and opens it.
    MakeLock {
        krate: Label,
        entry: Label,
    },
    /// Opens a lock file that is there.
    OpenLock {
        krate: Label,
        entry: Label,
    },
    /// Takes the lock of an open handle's file, shared or exclusive, if no other handle excludes it.
    TryLock {
        handle: u32,
        exclusive: bool,
    },
    /// Lists the entries of a crate directory.
    Look {
        krate: Label,
    },
    /// Lists the files of a directory.
    ListDir {
        krate: Label,
        entry: Label,
    },
    /// Makes an empty directory.
    MakeDir {
        krate: Label,
        entry: Label,
    },
    /// Gives the file of this name in `from` the same name in `to`.
    Link {
        krate: Label,
        from: Label,
        to: Label,
        file: Label,
    },
    /// Reads a whole file.
    Read {
        krate: Label,
        entry: Label,
        file: Label,
    },
    /// Makes an empty file.
    Create {
        krate: Label,
        entry: Label,
        file: Label,
    },
    /// Adds a piece at the end of a file, under all its names.
    Append {
        krate: Label,
        entry: Label,
        file: Label,
        piece: Bytes,
    },
    /// Takes a name of a file away.
    Unlink {
        krate: Label,
        entry: Label,
        file: Label,
    },
    /// Takes the name of a lock file away. Open handles keep the file and its lock.
    UnlinkLock {
        krate: Label,
        entry: Label,
    },
    /// Takes an empty directory away.
    RemoveDir {
        krate: Label,
        entry: Label,
    },
    /// Gives a directory a name that nothing has.
    Rename {
        krate: Label,
        from: Label,
        to: Label,
    },
    /// Closes a handle, which frees what it holds.
    Close {
        handle: u32,
    },
}

/// What the directory answers.
#[derive(Debug, Drop)]
pub enum Reply {
    /// The moment, in microseconds, and the random part.
    Drawn(u64, u32),
    /// The number of a new handle.
    Handle(u32),
    /// Names, in the order of their bytes.
    Names(List<Label>),
    /// All bytes of a file.
    Bytes(Bytes),
    /// The step was made.
    Done,
    /// The handle holds the lock in the mode that was asked for.
    Got,
    /// Another handle holds the lock in a way that excludes this one.
    Held,
    /// The name is there already.
    Exists,
    /// What the step names isn't there, or the handle isn't this session's open one.
    Missing,
    /// The directory holds a name.
    NotEmpty,
    /// The directory failed. Nothing was done, but that a front of an append's piece may have been added.
    Fault,
}

/// What the outside decides of a step.
#[derive(Clone, Copy, Debug, PartialEq, Eq)]
pub struct Chance {
    /// The moment of the clock, in microseconds.
    pub moment: u64,
    /// The first random part that a draw tries.
    pub random: u32,
    /// That the step is answered `Fault`, and after how many bytes an append fails.
    pub fails: Option<u32>,
}

// By hand, with helpers that copy several labels: a derived clone has a `?` for each field of each
// variant, and takes four times as long to check.
impl Clone for Op {
    ghost is_clone = { λ x y. y ≡ x };

    fn clone(&self) -> Result<Op, AllocError> {
        match self {
            Op::Draw => Ok(Op::Draw),
            Op::MakeLock { krate, entry } => {
                let (krate, entry) = two(krate, entry)?;
                Ok(Op::MakeLock { krate, entry })
            }
            Op::OpenLock { krate, entry } => {
                let (krate, entry) = two(krate, entry)?;
                Ok(Op::OpenLock { krate, entry })
            }
            Op::TryLock { handle, exclusive } => Ok(Op::TryLock {
                handle: *handle,
                exclusive: *exclusive,
            }),
            Op::Look { krate } => Ok(Op::Look {
                krate: krate.clone()?,
            }),
            Op::ListDir { krate, entry } => {
                let (krate, entry) = two(krate, entry)?;
                Ok(Op::ListDir { krate, entry })
            }
            Op::MakeDir { krate, entry } => {
                let (krate, entry) = two(krate, entry)?;
                Ok(Op::MakeDir { krate, entry })
            }
            Op::Link {
                krate,
                from,
                to,
                file,
            } => {
                let (krate, from, to, file) = four(krate, from, to, file)?;
                Ok(Op::Link {
                    krate,
                    from,
                    to,
                    file,
                })
            }
            Op::Read { krate, entry, file } => {
                let (krate, entry, file) = three(krate, entry, file)?;
                Ok(Op::Read { krate, entry, file })
            }
            Op::Create { krate, entry, file } => {
                let (krate, entry, file) = three(krate, entry, file)?;
                Ok(Op::Create { krate, entry, file })
            }
            Op::Append {
                krate,
                entry,
                file,
                piece,
            } => {
                let (krate, entry, file) = three(krate, entry, file)?;
                Ok(Op::Append {
                    krate,
                    entry,
                    file,
                    piece: piece.clone()?,
                })
            }
            Op::Unlink { krate, entry, file } => {
                let (krate, entry, file) = three(krate, entry, file)?;
                Ok(Op::Unlink { krate, entry, file })
            }
            Op::UnlinkLock { krate, entry } => {
                let (krate, entry) = two(krate, entry)?;
                Ok(Op::UnlinkLock { krate, entry })
            }
            Op::RemoveDir { krate, entry } => {
                let (krate, entry) = two(krate, entry)?;
                Ok(Op::RemoveDir { krate, entry })
            }
            Op::Rename { krate, from, to } => {
                let (krate, from, to) = three(krate, from, to)?;
                Ok(Op::Rename { krate, from, to })
            }
            Op::Close { handle } => Ok(Op::Close { handle: *handle }),
        }
    }
}

impl Copied for Op {
    ghost same = { λ x y e. e };
}

fn two(a: &Label, b: &Label) -> Result<(Label, Label), AllocError>
    ensures { IfOk result (λ it. it ≡ (a.now, b.now)) }
{
    Ok((a.clone()?, b.clone()?))
}

fn three(a: &Label, b: &Label, c: &Label) -> Result<(Label, Label, Label), AllocError>
    ensures { IfOk result (λ it. it ≡ (a.now, b.now, c.now)) }
{
    Ok((a.clone()?, b.clone()?, c.clone()?))
}

fn four(
    a: &Label,
    b: &Label,
    c: &Label,
    d: &Label,
) -> Result<(Label, Label, Label, Label), AllocError>
    ensures { IfOk result (λ it. it ≡ (a.now, b.now, c.now, d.now)) }
{
    Ok((a.clone()?, b.clone()?, c.clone()?, d.clone()?))
}

// By hand, since a derived clone doesn't say that only a reply with a list takes memory.
impl Clone for Reply {
    ghost is_clone = { λ x y. y ≡ x };

    fn clone(&self) -> Result<Reply, AllocError>
        ensures cases { MatchResult result (λ copy. copy ≡ self.now) (λ _. ¬ ⊥) }
        ensures err { OnErr result (IsTold self.now) }
    {
        match self {
            Reply::Drawn(moment, random) => Ok(Reply::Drawn(*moment, *random)),
            Reply::Handle(handle) => Ok(Reply::Handle(*handle)),
            Reply::Names(names) => Ok(Reply::Names(names.clone()?)),
            Reply::Bytes(bytes) => Ok(Reply::Bytes(bytes.clone()?)),
            Reply::Done => Ok(Reply::Done),
            Reply::Got => Ok(Reply::Got),
            Reply::Held => Ok(Reply::Held),
            Reply::Exists => Ok(Reply::Exists),
            Reply::Missing => Ok(Reply::Missing),
            Reply::NotEmpty => Ok(Reply::NotEmpty),
            Reply::Fault => Ok(Reply::Fault),
        }
    }
}

impl Copied for Reply {
    ghost same = { λ x y e. e };
}

impl Copied for Chance {
    ghost same = { Prim.search rules };
}

impl Reply {
    ghost use Rattle.std.specs.Prelude.{◌≡◌, ◌↔◌, IsTrue};
    ghost use Rattle.inc_fs.specs.declared.op.Reply.TheVariants.{Fault};

    /// Whether the directory failed.
    pub fn is_fault(&self) -> bool
        ensures { IsTrue result ↔ (self.now ≡ Fault) }
    {
        matches!(self, Reply::Fault)
    }
}
