//! Steps as the rows write them: a step's word and what it names, with a blank between. After the row's session comes
//! `draw`; `try-lock HANDLE shared` or `exclusive`; `close HANDLE`; `look CRATE`; `make-lock`, `open-lock`, `unlink-lock`,
//! `list-dir`, `make-dir` or `remove-dir` with CRATE ENTRY; `read`, `create` or `unlink` with CRATE ENTRY FILE;
//! `append CRATE ENTRY FILE TEXT`; `link CRATE FROM TO FILE`; `rename CRATE FROM TO`.

use inc_base::{Bytes, Label, Memory};
use inc_fs::Op;
use std::alloc::Global;

/// The step of a row: `None` where it is no step.
pub fn op_of(alloc: Global, row: &str) -> Result<Option<Op>, Memory> {
    let mut words = Vec::new(alloc);
    for word in row.split(' ') {
        words.push(word)?;
    }
    match word(&words, 0) {
        "draw" => Ok(Some(Op::Draw)),
        "try-lock" => Ok(try_lock(&words)),
        "close" => Ok(close(&words)),
        _ => in_crate(alloc, &words),
    }
}

/// The word at a position, empty past the end.
fn word<'a>(words: &[&'a str], at: usize) -> &'a str {
    match words.get(at) {
        Some(word) => *word,
        None => "",
    }
}

fn handle(words: &[&str]) -> Option<u32> {
    word(words, 1).parse::<u32>().ok()
}

fn try_lock(words: &[&str]) -> Option<Op> {
    let handle = handle(words)?;
    Some(Op::TryLock {
        handle,
        exclusive: word(words, 2) == "exclusive",
    })
}

fn close(words: &[&str]) -> Option<Op> {
    let handle = handle(words)?;
    Some(Op::Close { handle })
}

fn label(alloc: Global, words: &[&str], at: usize) -> Result<Option<Label>, Memory> {
    Label::of(alloc, word(words, at).as_bytes())
}

fn in_crate(alloc: Global, words: &[&str]) -> Result<Option<Op>, Memory> {
    let Some(krate) = label(alloc, words, 1)? else {
        return Ok(None);
    };
    if word(words, 0) == "look" {
        return Ok(Some(Op::Look { krate }));
    }
    let Some(entry) = label(alloc, words, 2)? else {
        return Ok(None);
    };
    match word(words, 0) {
        "make-lock" => Ok(Some(Op::MakeLock { krate, entry })),
        "open-lock" => Ok(Some(Op::OpenLock { krate, entry })),
        "unlink-lock" => Ok(Some(Op::UnlinkLock { krate, entry })),
        "list-dir" => Ok(Some(Op::ListDir { krate, entry })),
        "make-dir" => Ok(Some(Op::MakeDir { krate, entry })),
        "remove-dir" => Ok(Some(Op::RemoveDir { krate, entry })),
        _ => in_entry(alloc, krate, entry, words),
    }
}

/// A step with a third label.
fn in_entry(
    alloc: Global,
    krate: Label,
    entry: Label,
    words: &[&str],
) -> Result<Option<Op>, Memory> {
    let Some(third) = label(alloc, words, 3)? else {
        return Ok(None);
    };
    match word(words, 0) {
        "read" => Ok(Some(Op::Read {
            krate,
            entry,
            file: third,
        })),
        "create" => Ok(Some(Op::Create {
            krate,
            entry,
            file: third,
        })),
        "unlink" => Ok(Some(Op::Unlink {
            krate,
            entry,
            file: third,
        })),
        "rename" => Ok(Some(Op::Rename {
            krate,
            from: entry,
            to: third,
        })),
        "append" => Ok(Some(Op::Append {
            krate,
            entry,
            file: third,
            piece: Bytes::of(alloc, word(words, 4).as_bytes())?,
        })),
        "link" => link(alloc, krate, entry, third, words),
        _ => Ok(None),
    }
}

fn link(
    alloc: Global,
    krate: Label,
    from: Label,
    to: Label,
    words: &[&str],
) -> Result<Option<Op>, Memory> {
    match label(alloc, words, 4)? {
        Some(file) => Ok(Some(Op::Link {
            krate,
            from,
            to,
            file,
        })),
        None => Ok(None),
    }
}
