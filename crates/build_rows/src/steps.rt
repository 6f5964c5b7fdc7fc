//! The events of a history, as they are printed: the session's number, the step's word, what it names, and the reply's word.

use inc_base::{Bytes, Label, Memory};
use inc_fs::{Op, Reply};
use inc_proto::Event;
use itoa::Buffer;

/// Each event on a line.
pub fn put_steps(to: &mut Bytes, history: &[Event]) -> Result<(), Memory> {
    for event in history {
        put_event(to, event)?;
        to.append(b"\n")?;
    }
    Ok(())
}

fn put_event(to: &mut Bytes, event: &Event) -> Result<(), Memory> {
    match event {
        Event::Begin(who, job) => {
            put_number(to, *who as usize)?;
            to.append(b" begin ")?;
            to.append(job.krate.bytes())
        }
        Event::Did(who, op, reply) => {
            put_number(to, *who as usize)?;
            put_op(to, op)?;
            to.append(b": ")?;
            to.append(word_of(reply))
        }
        Event::Left(who, _, _) => {
            put_number(to, *who as usize)?;
            to.append(b" left")
        }
    }
}

fn put_op(to: &mut Bytes, op: &Op) -> Result<(), Memory> {
    match op {
        Op::Draw => to.append(b" draw"),
        Op::MakeLock { krate: _, entry } => put_named(to, b" make-lock ", entry),
        Op::TryLock { .. } => to.append(b" try-lock"),
        Op::Look { krate } => put_named(to, b" look ", krate),
        Op::MakeDir { krate: _, entry } => put_named(to, b" make-dir ", entry),
        Op::Create {
            krate: _,
            entry: _,
            file,
        } => put_named(to, b" create ", file),
        Op::Append {
            krate: _,
            entry: _,
            file,
            piece,
        } => {
            put_named(to, b" append ", file)?;
            to.append(b" ")?;
            put_number(to, piece.len())
        }
        Op::Rename {
            krate: _,
            from: _,
            to: new,
        } => put_named(to, b" rename ", new),
        Op::RemoveDir { krate: _, entry } => put_named(to, b" remove-dir ", entry),
        Op::UnlinkLock { krate: _, entry } => put_named(to, b" unlink-lock ", entry),
        Op::Close { .. } => to.append(b" close"),
        _ => to.append(b" another"),
    }
}

fn put_named(to: &mut Bytes, word: &[u8], name: &Label) -> Result<(), Memory> {
    to.append(word)?;
    to.append(name.bytes())
}

fn put_number(to: &mut Bytes, number: usize) -> Result<(), Memory> {
    let mut digits = Buffer::new();
    to.append(digits.format(number as u64).as_bytes())
}

fn word_of(reply: &Reply) -> &'static [u8] {
    match reply {
        Reply::Drawn(_, _) => b"drawn",
        Reply::Handle(_) => b"handle",
        Reply::Got => b"got",
        Reply::Held => b"held",
        Reply::Names(_) => b"names",
        Reply::Bytes(_) => b"bytes",
        Reply::Done => b"done",
        Reply::Exists => b"exists",
        Reply::Missing => b"missing",
        Reply::NotEmpty => b"not empty",
        Reply::Fault => b"fault",
    }
}
