//! Steps of sessions, and what they are answered.

use inc_base::{Bytes, Label, List, Memory};
use inc_fs::{Op, Reply};
use inc_names::{Entry, SessionName, entry_text};
use std::alloc::Global;

/// What is done at an entry of the crate directory.
#[derive(Clone, Copy)]
pub enum Deed {
    MakeLock,
    OpenLock,
    UnlinkLock,
    MakeDir,
    RemoveDir,
    ListDir,
}

/// The session of this number; a greater one is newer.
pub fn session(number: u32) -> SessionName {
    SessionName {
        moment: u64::from(number),
        random: 0,
    }
}

fn krate(alloc: Global) -> Result<Label, Memory> {
    Label::of(alloc, b"k")?.ok_or(Memory)
}

/// The file of this number. Their numbers have equally many digits, so they are in the order of their bytes.
fn file(alloc: Global, number: u32) -> Result<Label, Memory> {
    let mut text = String::new(alloc);
    write!(text, "f{}", number.saturating_add(1_000_000))?;
    Label::of(alloc, text.as_bytes())?.ok_or(Memory)
}

fn path(alloc: Global, entry: Entry) -> Result<(Label, Label), Memory> {
    Ok((krate(alloc)?, entry_text(alloc, &entry)?))
}

/// A step at an entry.
pub fn at(alloc: Global, deed: Deed, entry: Entry) -> Result<Op, Memory> {
    let (krate, entry) = path(alloc, entry)?;
    match deed {
        Deed::MakeLock => Ok(Op::MakeLock { krate, entry }),
        Deed::OpenLock => Ok(Op::OpenLock { krate, entry }),
        Deed::UnlinkLock => Ok(Op::UnlinkLock { krate, entry }),
        Deed::MakeDir => Ok(Op::MakeDir { krate, entry }),
        Deed::RemoveDir => Ok(Op::RemoveDir { krate, entry }),
        Deed::ListDir => Ok(Op::ListDir { krate, entry }),
    }
}

pub fn look(alloc: Global) -> Result<Op, Memory> {
    let krate = krate(alloc)?;
    Ok(Op::Look { krate })
}

/// Makes a file in the working directory of session 0.
pub fn create(alloc: Global) -> Result<Op, Memory> {
    let file = file(alloc, 0)?;
    let (krate, entry) = path(alloc, Entry::Working(session(0)))?;
    Ok(Op::Create { krate, entry, file })
}

/// Appends a byte to it.
pub fn append(alloc: Global) -> Result<Op, Memory> {
    let piece = Bytes::of(alloc, b"x")?;
    let file = file(alloc, 0)?;
    let (krate, entry) = path(alloc, Entry::Working(session(0)))?;
    Ok(Op::Append {
        krate,
        entry,
        file,
        piece,
    })
}

/// Links a file of session 1's finalised directory into the working directory of session 0.
pub fn link(alloc: Global, number: u32) -> Result<Op, Memory> {
    let file = file(alloc, number)?;
    let from = entry_text(alloc, &Entry::Final(session(1), 7))?;
    let (krate, to) = path(alloc, Entry::Working(session(0)))?;
    Ok(Op::Link {
        krate,
        from,
        to,
        file,
    })
}

/// Renames a session's finalised directory back.
pub fn rename_back(alloc: Global, name: SessionName) -> Result<Op, Memory> {
    let from = entry_text(alloc, &Entry::Final(name, 7))?;
    let (krate, to) = path(alloc, Entry::Working(name))?;
    Ok(Op::Rename { krate, from, to })
}

fn add_session(names: &mut List<Label>, alloc: Global, name: SessionName) -> Result<(), Memory> {
    names.push(entry_text(alloc, &Entry::Lock(name))?)?;
    names.push(entry_text(alloc, &Entry::Final(name, 7))?)
}

fn add_sessions(names: &mut List<Label>, alloc: Global, count: u32) -> Result<(), Memory> {
    for number in 0..count {
        add_session(names, alloc, session(number))?;
    }
    Ok(())
}

fn add_files(names: &mut List<Label>, alloc: Global, count: u32) -> Result<(), Memory> {
    for number in 0..count {
        names.push(file(alloc, number)?)?;
    }
    Ok(())
}

fn answered(names: List<Label>, filled: Result<(), Memory>) -> Result<Reply, Memory> {
    match filled {
        Ok(()) => Ok(Reply::Names(names)),
        Err(refused) => {
            drop(names);
            Err(refused)
        }
    }
}

/// The lock files and finalised directories of so many sessions.
pub fn sessions_listed(alloc: Global, count: u32) -> Result<Reply, Memory> {
    let mut names = List::new(alloc);
    let filled = add_sessions(&mut names, alloc, count);
    answered(names, filled)
}

/// So many files.
pub fn files_listed(alloc: Global, count: u32) -> Result<Reply, Memory> {
    let mut names = List::new(alloc);
    let filled = add_files(&mut names, alloc, count);
    answered(names, filled)
}
