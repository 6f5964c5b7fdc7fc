//! Calls in a directory that answers from a list.

use crate::call::call;
use crate::case::PLAIN;
use crate::print::put_ended;
use inc_base::{Bytes, Label, List, Memory};
use inc_dir::ReplayDir;
use inc_fs::Reply;
use std::alloc::Global;

/// The lock file that `names` lists.
const LOCK: &[u8] = b"s-z-0.lock";

/// Makes the call of these words on the text, where the directory answers these replies, and prints what came of it. `names` stands
/// for the lock file alone, and `nothing` for no name.
pub fn put_replayed(
    alloc: Global,
    to: &mut Bytes,
    words: &[&str],
    text: &[u8],
    replies: &str,
) -> Result<(), Memory> {
    let mut list = List::new(alloc);
    for word in replies.split(' ') {
        list.push(reply_of(alloc, word)?)?;
    }
    let text = Bytes::of(alloc, text)?;
    put_call(alloc, to, words, text, list)
}

fn put_call(
    alloc: Global,
    to: &mut Bytes,
    words: &[&str],
    text: Bytes,
    replies: List<Reply>,
) -> Result<(), Memory> {
    let mut dir = ReplayDir::new(replies);
    let called = call(alloc, words, text, &PLAIN, &mut dir);
    drop(dir);
    match called {
        Ok(ended) => {
            let put = put_ended(to, &ended);
            drop(ended);
            put
        }
        Err(refused) => Err(refused),
    }
}

fn reply_of(alloc: Global, word: &str) -> Result<Reply, Memory> {
    match word {
        "drawn" => Ok(Reply::Drawn(35, 0)),
        "handle" => Ok(Reply::Handle(0)),
        "got" => Ok(Reply::Got),
        "held" => Ok(Reply::Held),
        "names" => Ok(Reply::Names(lock_alone(alloc)?)),
        "nothing" => Ok(Reply::Names(List::new(alloc))),
        "done" => Ok(Reply::Done),
        "exists" => Ok(Reply::Exists),
        "missing" => Ok(Reply::Missing),
        _ => Ok(Reply::Fault),
    }
}

fn lock_alone(alloc: Global) -> Result<List<Label>, Memory> {
    let mut names = List::new(alloc);
    if let Some(lock) = Label::of(alloc, LOCK)? {
        names.push(lock)?;
    }
    Ok(names)
}
