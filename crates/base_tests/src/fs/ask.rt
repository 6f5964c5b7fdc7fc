use inc_base::{Bytes, Label};
use inc_fs::{Op, Reply};
use std::alloc::Global;
use std::test::Fail;

/// A step as the rows write it: in a crate directory that they give beside it, with names of one byte.
#[derive(Clone, Copy, Debug)]
pub enum Ask {
    Draw,
    MakeLock(u8),
    OpenLock(u8),
    TryLock(u32, bool),
    Look,
    ListDir(u8),
    MakeDir(u8),
    Link(u8, u8, u8),
    Read(u8, u8),
    Create(u8, u8),
    Append(u8, u8, &'static [u8]),
    Unlink(u8, u8),
    UnlinkLock(u8),
    RemoveDir(u8),
    Rename(u8, u8),
    Close(u32),
    End,
}

fn label(alloc: Global, name: u8) -> Result<Label, Fail> {
    Ok(Label::of(alloc, &[name])?.ok_or("no label")?)
}

fn two(alloc: Global, a: u8, b: u8) -> Result<(Label, Label), Fail> {
    Ok((label(alloc, a)?, label(alloc, b)?))
}

fn three(alloc: Global, a: u8, b: u8, c: u8) -> Result<(Label, Label, Label), Fail> {
    Ok((label(alloc, a)?, label(alloc, b)?, label(alloc, c)?))
}

/// The step of the table, or None for an ending.
pub fn op_of(alloc: Global, krate: u8, ask: Ask) -> Result<Option<Op>, Fail> {
    Ok(Some(match ask {
        Ask::End => return Ok(None),
        Ask::Draw => Op::Draw,
        Ask::TryLock(handle, exclusive) => Op::TryLock { handle, exclusive },
        Ask::Close(handle) => Op::Close { handle },
        Ask::Look => Op::Look {
            krate: label(alloc, krate)?,
        },
        Ask::MakeLock(entry) => {
            let (krate, entry) = two(alloc, krate, entry)?;
            Op::MakeLock { krate, entry }
        }
        Ask::OpenLock(entry) => {
            let (krate, entry) = two(alloc, krate, entry)?;
            Op::OpenLock { krate, entry }
        }
        Ask::UnlinkLock(entry) => {
            let (krate, entry) = two(alloc, krate, entry)?;
            Op::UnlinkLock { krate, entry }
        }
        Ask::ListDir(entry) => {
            let (krate, entry) = two(alloc, krate, entry)?;
            Op::ListDir { krate, entry }
        }
        Ask::MakeDir(entry) => {
            let (krate, entry) = two(alloc, krate, entry)?;
            Op::MakeDir { krate, entry }
        }
        Ask::RemoveDir(entry) => {
            let (krate, entry) = two(alloc, krate, entry)?;
            Op::RemoveDir { krate, entry }
        }
        Ask::Rename(from, to) => {
            let (krate, from, to) = three(alloc, krate, from, to)?;
            Op::Rename { krate, from, to }
        }
        Ask::Read(entry, file) => {
            let (krate, entry, file) = three(alloc, krate, entry, file)?;
            Op::Read { krate, entry, file }
        }
        Ask::Create(entry, file) => {
            let (krate, entry, file) = three(alloc, krate, entry, file)?;
            Op::Create { krate, entry, file }
        }
        Ask::Unlink(entry, file) => {
            let (krate, entry, file) = three(alloc, krate, entry, file)?;
            Op::Unlink { krate, entry, file }
        }
        Ask::Append(entry, file, piece) => {
            let (krate, entry, file) = three(alloc, krate, entry, file)?;
            let piece = Bytes::of(alloc, piece)?;
            Op::Append {
                krate,
                entry,
                file,
                piece,
            }
        }
        Ask::Link(from, to, file) => {
            let (krate, from, to) = three(alloc, krate, from, to)?;
            let file = label(alloc, file)?;
            Op::Link {
                krate,
                from,
                to,
                file,
            }
        }
    }))
}

/// A reply, as the rows write it.
pub fn shown(alloc: Global, reply: &Reply) -> Result<String, Fail> {
    Ok(match reply {
        Reply::Drawn(moment, random) => format!(in alloc; "Drawn {moment} {random}")?,
        Reply::Handle(handle) => format!(in alloc; "Handle {handle}")?,
        Reply::Names(names) => {
            let mut text = format!(in alloc; "Names ")?;
            for name in names.as_slice() {
                add(&mut text, name.bytes())?;
            }
            text
        }
        Reply::Bytes(bytes) => {
            let mut text = format!(in alloc; "Bytes ")?;
            add(&mut text, bytes.as_slice())?;
            text
        }
        Reply::Done => format!(in alloc; "Done")?,
        Reply::Got => format!(in alloc; "Got")?,
        Reply::Held => format!(in alloc; "Held")?,
        Reply::Exists => format!(in alloc; "Exists")?,
        Reply::Missing => format!(in alloc; "Missing")?,
        Reply::NotEmpty => format!(in alloc; "NotEmpty")?,
        Reply::Fault => format!(in alloc; "Fault")?,
    })
}

fn add(text: &mut String, bytes: &[u8]) -> Result<(), Fail> {
    for byte in bytes {
        text.push(char::from(*byte))?;
    }
    Ok(())
}
