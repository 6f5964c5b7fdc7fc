//! What a history leaves of the crate `k`: its entries, and the files of those that are directories.

use crate::case::{Case, PLAIN};
use crate::print::put_bytes;
use inc_base::{Bytes, Copied, Label, List, Memory};
use inc_fs::{Fs, Op, Reply};
use inc_proto::Event;
use std::alloc::Global;

/// The crate of all rows.
const CRATE: &[u8] = b"k";

/// The number of a session that only looks.
const READER: u32 = u32::MAX;

/// Each entry on a line, and under it each of its files with its bytes.
pub fn put_entries(
    alloc: Global,
    to: &mut Bytes,
    history: &[Event],
    case: &Case,
) -> Result<(), Memory> {
    let mut fs = Fs::new(alloc);
    let put = match remake(&mut fs, history, case) {
        Ok(()) => put_looked(alloc, to, &mut fs),
        Err(refused) => Err(refused),
    };
    drop(fs);
    put
}

/// Makes the steps of a history again.
fn remake(fs: &mut Fs, history: &[Event], case: &Case) -> Result<(), Memory> {
    let mut act: u32 = 0;
    for event in history {
        match event {
            Event::Begin(_, _) => {}
            Event::Did(who, op, _) => {
                let reply = fs.apply(*who, op, case.chance(act))?;
                drop(reply);
                act = act.wrapping_add(1);
            }
            Event::Left(who, _, _) => fs.end(*who),
        }
    }
    Ok(())
}

fn put_looked(alloc: Global, to: &mut Bytes, fs: &mut Fs) -> Result<(), Memory> {
    let entries = names(alloc, fs, look(alloc)?)?;
    let put = put_each(alloc, to, fs, entries.as_slice());
    drop(entries);
    put
}

fn put_each(alloc: Global, to: &mut Bytes, fs: &mut Fs, entries: &[Label]) -> Result<(), Memory> {
    for entry in entries {
        to.append(b"entry ")?;
        to.append(entry.bytes())?;
        to.append(b"\n")?;
        put_files(alloc, to, fs, entry)?;
    }
    Ok(())
}

fn put_files(alloc: Global, to: &mut Bytes, fs: &mut Fs, entry: &Label) -> Result<(), Memory> {
    let files = names(alloc, fs, list_dir(alloc, entry)?)?;
    let put = put_each_file(alloc, to, fs, entry, files.as_slice());
    drop(files);
    put
}

fn put_each_file(
    alloc: Global,
    to: &mut Bytes,
    fs: &mut Fs,
    entry: &Label,
    files: &[Label],
) -> Result<(), Memory> {
    for file in files {
        to.append(b"file ")?;
        to.append(file.bytes())?;
        put_file(alloc, to, fs, read(alloc, entry, file)?)?;
    }
    Ok(())
}

fn put_file(alloc: Global, to: &mut Bytes, fs: &mut Fs, read: Op) -> Result<(), Memory> {
    let content = content(alloc, fs, read)?;
    let put = put_bytes(to, content.as_slice());
    drop(content);
    put
}

/// The names that a step is answered, none where it is answered something else.
fn names(alloc: Global, fs: &mut Fs, op: Op) -> Result<List<Label>, Memory> {
    let reply = fs.apply(READER, &op, PLAIN.chance(0));
    drop(op);
    match reply {
        Ok(Reply::Names(names)) => Ok(names),
        Ok(other) => {
            drop(other);
            Ok(List::new(alloc))
        }
        Err(refused) => Err(refused),
    }
}

/// And the bytes.
fn content(alloc: Global, fs: &mut Fs, op: Op) -> Result<Bytes, Memory> {
    let reply = fs.apply(READER, &op, PLAIN.chance(0));
    drop(op);
    match reply {
        Ok(Reply::Bytes(bytes)) => Ok(bytes),
        Ok(other) => {
            drop(other);
            Ok(Bytes::new(alloc))
        }
        Err(refused) => Err(refused),
    }
}

fn krate(alloc: Global) -> Result<Label, Memory> {
    match Label::of(alloc, CRATE)? {
        Some(krate) => Ok(krate),
        None => Err(Memory),
    }
}

fn look(alloc: Global) -> Result<Op, Memory> {
    let krate = krate(alloc)?;
    Ok(Op::Look { krate })
}

fn list_dir(alloc: Global, entry: &Label) -> Result<Op, Memory> {
    let entry = entry.copy()?;
    let krate = krate(alloc)?;
    Ok(Op::ListDir { krate, entry })
}

fn read(alloc: Global, entry: &Label, file: &Label) -> Result<Op, Memory> {
    let entry = entry.copy()?;
    let file = file.copy()?;
    let krate = krate(alloc)?;
    Ok(Op::Read { krate, entry, file })
}
