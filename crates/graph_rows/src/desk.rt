//! The graph, the values and the sets of files that the rows speak of.

ghost use Rattle.std.specs.Prelude.{◌≡◌, IfOk, IfSome};

use crate::files::{found, told_files, told_plan};
use crate::graph::{header, node, told_cache, told_graph};
use crate::starts::{Change, told_bits, told_changed, told_start};
use crate::words::{bytes, printed, text, word};
use inc_base::{Bytes, Label, List, Memory};
use inc_graph::{Cache, Graph, has_order, is_graph};
use inc_products::{FileSet, files_of};
use inc_wire::Header;
use std::alloc::Global;
use std::mem;

/// What the commands have made so far.
#[derive(Drop)]
pub struct Desk {
    alloc: Global,
    nodes: Graph,
    values: Cache,
    old: FileSet,
    wanted: FileSet,
}

impl Desk {
    pub fn new(alloc: Global) -> Desk {
        Desk {
            alloc,
            nodes: List::new(alloc),
            values: List::new(alloc),
            old: FileSet::new(alloc),
            wanted: FileSet::new(alloc),
        }
    }

    /// Does what a line says, and answers what is asked: `node` adds a node with its value; `files` makes the files of
    /// all, as the wanted set; `bytes`, `graph` and `cache` tell of a wanted file, `cut` and `more` of one without its last byte or
    /// with a byte behind it; `start` tells what the wanted set is read as at a level, and the words that begin so what it is read as at level 1 once a file
    /// of it is changed; `read-graph` and `read-cache` tell of bytes; `old` and `wanted` put a file, `clear` begins anew, and `plan` and `stay`
    /// tell what turns the old set, or the wanted one, into the wanted one.
    pub fn told(&mut self, line: &str) -> Result<Option<String>, Memory> {
        let alloc = self.alloc;
        let mut words = Vec::new(alloc);
        for word in line.split_whitespace() {
            words.push(word)?;
        }
        match word(&words, 0) {
            "node" => self.add(&words),
            "files" => self.save(),
            "clear" => self.clear(),
            "old" => put(alloc, &mut self.old, &words),
            "wanted" => put(alloc, &mut self.wanted, &words),
            "plan" => Ok(Some(told_plan(alloc, &self.old, &self.wanted)?)),
            "start" => Ok(Some(told_start(alloc, level(&words), &self.wanted)?)),
            "start-with" => {
                let file = bytes(alloc, &words, 2)?;
                start_changed(alloc, &self.wanted, &words, Change::With(&file))
            }
            "start-without" => start_changed(alloc, &self.wanted, &words, Change::Without),
            "start-cut" => start_changed(alloc, &self.wanted, &words, Change::Cut),
            "start-more" => start_changed(alloc, &self.wanted, &words, Change::More),
            "start-bits" => start_bits(alloc, &self.wanted, &words),
            "stay" => Ok(Some(told_plan(alloc, &self.wanted, &self.wanted)?)),
            "read-graph" => Ok(Some(told_graph(alloc, bytes(alloc, &words, 1)?.as_slice())?)),
            "read-cache" => Ok(Some(told_cache(alloc, bytes(alloc, &words, 1)?.as_slice())?)),
            _ => told_file(alloc, &self.wanted, &words),
        }
    }

    fn add(&mut self, words: &[&str]) -> Result<Option<String>, Memory> {
        let alloc = self.alloc;
        let at = self.nodes.len() as u32;
        let value = bytes(alloc, words, 5)?;
        self.values.push((at, value))?;
        let node = node(alloc, words)?;
        self.nodes.push(node)?;
        Ok(None)
    }

    fn clear(&mut self) -> Result<Option<String>, Memory> {
        let alloc = self.alloc;
        drop(mem::replace(&mut self.nodes, List::new(alloc)));
        drop(mem::replace(&mut self.values, List::new(alloc)));
        drop(mem::replace(&mut self.old, FileSet::new(alloc)));
        drop(mem::replace(&mut self.wanted, FileSet::new(alloc)));
        Ok(None)
    }

    fn save(&mut self) -> Result<Option<String>, Memory> {
        let alloc = self.alloc;
        let told = match made(alloc, &self.nodes, &self.values)? {
            Some(files) => {
                drop(mem::replace(&mut self.wanted, files));
                told_files(alloc, &self.wanted)?
            }
            None => String::from_str(alloc, "no graph")?,
        };
        Ok(Some(told))
    }
}

/// The files of nodes and values, or None where the nodes are no graph's.
fn made(alloc: Global, nodes: &Graph, values: &Cache) -> Result<Option<FileSet>, Memory> {
    match header(alloc, 1)? {
        Some(header) => {
            let files = made_by(alloc, &header, nodes, values);
            drop(header);
            files
        }
        None => Ok(None),
    }
}

fn made_by(
    alloc: Global,
    header: &Header,
    nodes: &Graph,
    values: &Cache,
) -> Result<Option<FileSet>, Memory>
    requires { header.now.format ≡ 1 }
{
    if !is_graph(alloc, nodes)? || !has_order(values) {
        return Ok(None);
    }
    Ok(Some(files_of(header, nodes, values)?))
}

fn put(alloc: Global, files: &mut FileSet, words: &[&str]) -> Result<Option<String>, Memory> {
    let value = bytes(alloc, words, 2)?;
    match label(alloc, words)? {
        Some(name) => {
            files.put(name, value)?;
            Ok(None)
        }
        None => Ok(None),
    }
}

/// The level of a word, 1 where it is none.
fn level(words: &[&str]) -> u8 {
    match word(words, 1).parse::<u8>() {
        Ok(level) => level,
        Err(_) => 1,
    }
}

/// What the set is read as once the file that the words name is changed.
fn start_changed(
    alloc: Global,
    files: &FileSet,
    words: &[&str],
    change: Change,
) -> Result<Option<String>, Memory> {
    match label(alloc, words)? {
        Some(name) => Ok(Some(told_changed(alloc, files, &name, change)?)),
        None => Ok(None),
    }
}

/// What the set is read as once a bit of the file that the words name is changed.
fn start_bits(alloc: Global, files: &FileSet, words: &[&str]) -> Result<Option<String>, Memory> {
    let name = label(alloc, words)?;
    Ok(Some(told_bits(alloc, files, &name)?))
}

fn label(alloc: Global, words: &[&str]) -> Result<Option<Label>, Memory> {
    let name = text(alloc, words, 1)?;
    Label::of(alloc, name.as_slice())
}

/// What is told of a wanted file.
fn told_file(alloc: Global, files: &FileSet, words: &[&str]) -> Result<Option<String>, Memory> {
    let name = label(alloc, words)?;
    match found(files, &name) {
        Some(bytes) => told_bytes(alloc, word(words, 0), bytes),
        None => Ok(None),
    }
}

fn told_bytes(alloc: Global, command: &str, bytes: &Bytes) -> Result<Option<String>, Memory> {
    let bytes = bytes.as_slice();
    match command {
        "bytes" => Ok(Some(printed(alloc, bytes)?)),
        "graph" => Ok(Some(told_graph(alloc, bytes)?)),
        "cache" => Ok(Some(told_cache(alloc, bytes)?)),
        "cut" => match bytes {
            [front @ .., _] => Ok(Some(told_graph(alloc, front)?)),
            [] => Ok(None),
        },
        "more" => {
            let mut longer = Bytes::of(alloc, bytes)?;
            longer.append(&[0])?;
            Ok(Some(told_graph(alloc, longer.as_slice())?))
        }
        _ => Ok(None),
    }
}
