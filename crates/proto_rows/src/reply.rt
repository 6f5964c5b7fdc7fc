//! Replies as they are printed.

use inc_base::Memory;
use inc_fs::Reply;
use inc_names::Entry;
use std::alloc::Global;
use std::fmt;
use std::fmt::{Display, Formatter, Write};

/// What came of a row: that it isn't permitted, that the session left, the reply, or what a question about the ground
/// was answered. Of names and bytes it is how many there are, of an entry the moment of its session's name.
#[derive(Drop)]
pub enum Came {
    NotPermitted,
    Left,
    Replied(Reply),
    Counted(u32),
    Found(Option<Entry>),
}

/// As it is printed.
pub fn text_of(alloc: Global, came: &Came) -> Result<String, Memory> {
    Ok(format!(in alloc; "{came}")?)
}

impl Display for Came {
    fn fmt<W: Write>(&self, f: &mut Formatter<W>) -> fmt::Result {
        match self {
            Came::NotPermitted => f.write_str("not permitted"),
            Came::Left => f.write_str("done"),
            Came::Replied(reply) => print(reply, f),
            Came::Counted(count) => write!(f, "count {count}"),
            Came::Found(entry) => print_found(entry, f),
        }
    }
}

fn print_found<W: Write>(found: &Option<Entry>, f: &mut Formatter<W>) -> fmt::Result {
    match found {
        Some(Entry::Final(name, _)) => write!(f, "entry {}", name.moment),
        Some(_) => f.write_str("no finalised entry"),
        None => f.write_str("none"),
    }
}

fn print<W: Write>(reply: &Reply, f: &mut Formatter<W>) -> fmt::Result {
    match reply {
        Reply::Drawn(moment, _) => write!(f, "drawn {moment}"),
        Reply::Handle(handle) => write!(f, "handle {handle}"),
        Reply::Got => f.write_str("got"),
        Reply::Held => f.write_str("held"),
        Reply::Names(names) => write!(f, "names {}", names.len()),
        Reply::Bytes(bytes) => write!(f, "bytes {}", bytes.len()),
        Reply::Done => f.write_str("done"),
        Reply::Exists => f.write_str("exists"),
        Reply::Missing => f.write_str("missing"),
        Reply::NotEmpty => f.write_str("not empty"),
        Reply::Fault => f.write_str("fault"),
    }
}
