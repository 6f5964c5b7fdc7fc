//! Steps as the rows write them: words with blanks between. An entry is `lock:M`, `working:M`, `final:M:TEXT` with the
//! hash of the crate's job of that text, or `wrong:M` with a hash of no job; M is the moment of the session's name, whose
//! random part is 0.

use crate::content::job;
use inc_base::{Bytes, Label, Memory};
use inc_fs::{Chance, Op};
use inc_names::{Entry, SessionName, entry_text};
use inc_wire::job_hash;
use std::alloc::Global;

/// The word at a position, empty past the end.
pub fn word<'a>(words: &[&'a str], at: usize) -> &'a str {
    match words.get(at) {
        Some(word) => *word,
        None => "",
    }
}

pub fn number(words: &[&str], at: usize) -> Option<u64> {
    word(words, at).parse::<u64>().ok()
}

fn handle(words: &[&str]) -> Option<u32> {
    word(words, 1).parse::<u32>().ok()
}

/// The chance of a step: a draw begins at its moment, and a step that ends with `failing` fails, an append after its first
/// byte.
pub fn chance(words: &[&str]) -> Chance {
    let moment = match number(words, 1) {
        Some(moment) => moment,
        None => 0,
    };
    let last = match words.last() {
        Some(word) => *word,
        None => "",
    };
    Chance {
        moment,
        random: 0,
        fails: if last == "failing" { Some(1) } else { None },
    }
}

fn hash_of(alloc: Global, krate: &Label, text: &str) -> Result<Option<u128>, Memory> {
    match job(alloc, krate.bytes(), text)? {
        Some(job) => Ok(Some(job_hash(alloc, &job)?)),
        None => Ok(None),
    }
}

fn entry_of(
    alloc: Global,
    krate: &Label,
    kind: &str,
    moment: u64,
    text: &str,
) -> Result<Option<Entry>, Memory> {
    let name = SessionName { moment, random: 0 };
    if kind == "lock" {
        return Ok(Some(Entry::Lock(name)));
    }
    if kind == "working" {
        return Ok(Some(Entry::Working(name)));
    }
    if kind == "wrong" {
        return Ok(Some(Entry::Final(name, 7)));
    }
    match hash_of(alloc, krate, text)? {
        Some(hash) => Ok(Some(Entry::Final(name, hash))),
        None => Ok(None),
    }
}

fn entry(alloc: Global, krate: &Label, word: &str) -> Result<Option<Label>, Memory> {
    let mut parts = word.split(':');
    let kind = parts.next().unwrap_or("");
    let moment = parts.next().unwrap_or("");
    let text = parts.next().unwrap_or("");
    let Ok(moment) = moment.parse::<u64>() else {
        return Ok(None);
    };
    match entry_of(alloc, krate, kind, moment, text)? {
        Some(entry) => Ok(Some(entry_text(alloc, &entry)?)),
        None => Ok(None),
    }
}

/// The step of these words in a crate directory, the step's own word first. `None` where they are no step.
pub fn op_of(alloc: Global, krate: &str, words: &[&str]) -> Result<Option<Op>, Memory> {
    let Some(krate) = Label::of(alloc, krate.as_bytes())? else {
        return Ok(None);
    };
    match word(words, 0) {
        "draw" => Ok(Some(Op::Draw)),
        "look" => Ok(Some(Op::Look { krate })),
        "try-lock" => Ok(try_lock(words)),
        "close" => Ok(close(words)),
        "link" => link(alloc, krate, words),
        "rename" => rename(alloc, krate, words),
        "append" => append(alloc, krate, words),
        "fill" => fill(alloc, krate, words),
        "read" => on_file(alloc, krate, words),
        "create" => on_file(alloc, krate, words),
        "unlink" => on_file(alloc, krate, words),
        _ => on_entry(alloc, krate, words),
    }
}

fn try_lock(words: &[&str]) -> Option<Op> {
    let handle = handle(words)?;
    Some(Op::TryLock {
        handle,
        exclusive: word(words, 2) == "exclusive",
    })
}

fn close(words: &[&str]) -> Option<Op> {
    let handle = handle(words)?;
    Some(Op::Close { handle })
}

fn on_entry(alloc: Global, krate: Label, words: &[&str]) -> Result<Option<Op>, Memory> {
    let Some(entry) = entry(alloc, &krate, word(words, 1))? else {
        return Ok(None);
    };
    Ok(match word(words, 0) {
        "make-lock" => Some(Op::MakeLock { krate, entry }),
        "open-lock" => Some(Op::OpenLock { krate, entry }),
        "unlink-lock" => Some(Op::UnlinkLock { krate, entry }),
        "list-dir" => Some(Op::ListDir { krate, entry }),
        "make-dir" => Some(Op::MakeDir { krate, entry }),
        "remove-dir" => Some(Op::RemoveDir { krate, entry }),
        _ => None,
    })
}

fn entry_and_file(
    alloc: Global,
    krate: &Label,
    words: &[&str],
) -> Result<Option<(Label, Label)>, Memory> {
    let Some(entry) = entry(alloc, krate, word(words, 1))? else {
        return Ok(None);
    };
    match Label::of(alloc, word(words, 2).as_bytes())? {
        Some(file) => Ok(Some((entry, file))),
        None => Ok(None),
    }
}

fn on_file(alloc: Global, krate: Label, words: &[&str]) -> Result<Option<Op>, Memory> {
    let Some((entry, file)) = entry_and_file(alloc, &krate, words)? else {
        return Ok(None);
    };
    Ok(match word(words, 0) {
        "read" => Some(Op::Read { krate, entry, file }),
        "create" => Some(Op::Create { krate, entry, file }),
        _ => Some(Op::Unlink { krate, entry, file }),
    })
}

fn append(alloc: Global, krate: Label, words: &[&str]) -> Result<Option<Op>, Memory> {
    let piece = Bytes::of(alloc, word(words, 3).as_bytes())?;
    append_piece(alloc, krate, words, piece)
}

/// An append of so many bytes.
fn fill(alloc: Global, krate: Label, words: &[&str]) -> Result<Option<Op>, Memory> {
    let Some(count) = number(words, 3) else {
        return Ok(None);
    };
    let mut piece = Bytes::new(alloc);
    for _ in 0..count {
        piece.push(b'x')?;
    }
    append_piece(alloc, krate, words, piece)
}

fn append_piece(
    alloc: Global,
    krate: Label,
    words: &[&str],
    piece: Bytes,
) -> Result<Option<Op>, Memory> {
    let Some((entry, file)) = entry_and_file(alloc, &krate, words)? else {
        return Ok(None);
    };
    Ok(Some(Op::Append {
        krate,
        entry,
        file,
        piece,
    }))
}

fn two_entries(
    alloc: Global,
    krate: &Label,
    words: &[&str],
) -> Result<Option<(Label, Label)>, Memory> {
    let Some(from) = entry(alloc, krate, word(words, 1))? else {
        return Ok(None);
    };
    match entry(alloc, krate, word(words, 2))? {
        Some(to) => Ok(Some((from, to))),
        None => Ok(None),
    }
}

fn rename(alloc: Global, krate: Label, words: &[&str]) -> Result<Option<Op>, Memory> {
    let Some((from, to)) = two_entries(alloc, &krate, words)? else {
        return Ok(None);
    };
    Ok(Some(Op::Rename { krate, from, to }))
}

fn link(alloc: Global, krate: Label, words: &[&str]) -> Result<Option<Op>, Memory> {
    let Some((from, to)) = two_entries(alloc, &krate, words)? else {
        return Ok(None);
    };
    match Label::of(alloc, word(words, 3).as_bytes())? {
        Some(file) => Ok(Some(Op::Link {
            krate,
            from,
            to,
            file,
        })),
        None => Ok(None),
    }
}
