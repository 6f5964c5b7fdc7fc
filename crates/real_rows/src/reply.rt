//! Replies as they are printed.

use inc_base::{Bytes, Label, List, Memory};
use inc_fs::Reply;
use std::alloc::Global;
use std::str;

/// The most bytes of a file that are printed. Of a longer one it is how many there are.
const SHORT: usize = 64;

/// A reply as it is printed. What a draw gives differs from run to run, and isn't.
pub fn shown(alloc: Global, reply: &Reply) -> Result<String, Memory> {
    match reply {
        Reply::Handle(handle) => Ok(format!(in alloc; "handle {handle}")?),
        Reply::Names(labels) => names(alloc, labels),
        Reply::Bytes(bytes) => content(alloc, bytes),
        _ => Ok(String::from_str(alloc, word(reply))?),
    }
}

fn word(reply: &Reply) -> &'static str {
    match reply {
        Reply::Drawn(_, _) => "drawn",
        Reply::Handle(_) => "handle",
        Reply::Got => "got",
        Reply::Held => "held",
        Reply::Names(_) => "names",
        Reply::Bytes(_) => "bytes",
        Reply::Done => "done",
        Reply::Exists => "exists",
        Reply::Missing => "missing",
        Reply::NotEmpty => "not empty",
        Reply::Fault => "fault",
    }
}

fn names(alloc: Global, labels: &List<Label>) -> Result<String, Memory> {
    let mut text = String::from_str(alloc, "names")?;
    for label in labels.as_slice() {
        text.push(' ')?;
        push(&mut text, label.bytes())?;
    }
    Ok(text)
}

fn content(alloc: Global, bytes: &Bytes) -> Result<String, Memory> {
    if bytes.len() > SHORT {
        let count = bytes.len();
        return Ok(format!(in alloc; "{count} bytes")?);
    }
    let mut text = String::from_str(alloc, "bytes ")?;
    push(&mut text, bytes.as_slice())?;
    Ok(text)
}

fn push(text: &mut String, bytes: &[u8]) -> Result<(), Memory> {
    match str::from_utf8(bytes) {
        Ok(more) => text.push_str(more)?,
        Err(_) => text.push('?')?,
    }
    Ok(())
}
