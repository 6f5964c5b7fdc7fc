//! What changed sets of files are read as, and how that is printed.

use crate::files::found;
use crate::graph::{header, told_values};
use inc_base::{Bytes, Copied, Label, Memory};
use inc_graph::{Cache, Graph};
use inc_products::{FileSet, Start, read_files};
use std::alloc::Global;

/// How a file of a set is changed before the set is read.
#[derive(Clone, Copy)]
pub enum Change<'a> {
    /// It isn't there.
    Without,
    /// It has no last byte.
    Cut,
    /// It has a byte behind its last.
    More,
    /// It has these bytes.
    With(&'a Bytes),
}

/// What a set is read as at this level.
pub fn told_start(alloc: Global, level: u8, files: &FileSet) -> Result<String, Memory> {
    let set = copied(alloc, files)?;
    told_read(alloc, level, set)
}

/// What a set is read as at level 1, once a file of it is changed.
pub fn told_changed(
    alloc: Global,
    files: &FileSet,
    name: &Label,
    change: Change,
) -> Result<String, Memory> {
    let set = changed(alloc, files, name, change)?;
    told_read(alloc, 1, set)
}

fn told_read(alloc: Global, level: u8, set: FileSet) -> Result<String, Memory> {
    match read(alloc, level, set)? {
        Some(start) => told(alloc, start),
        None => Ok(String::from_str(alloc, "no header")?),
    }
}

fn read(alloc: Global, level: u8, set: FileSet) -> Result<Option<Start>, Memory> {
    match header(alloc, level) {
        Ok(Some(header)) => {
            let start = read_files(&header, set);
            drop(header);
            match start {
                Ok(start) => Ok(Some(start)),
                Err(refused) => Err(refused),
            }
        }
        Ok(None) => {
            drop(set);
            Ok(None)
        }
        Err(refused) => {
            drop(set);
            Err(refused)
        }
    }
}

fn told(alloc: Global, start: Start) -> Result<String, Memory> {
    match start {
        Start::Whole(nodes, values) => {
            let told = told_whole(alloc, &nodes, &values);
            drop(nodes);
            drop(values);
            told
        }
        Start::OtherCompiler => Ok(String::from_str(alloc, "other compiler")?),
        Start::Damaged(name) => {
            let told = told_damaged(alloc, &name);
            drop(name);
            told
        }
    }
}

fn told_whole(alloc: Global, nodes: &Graph, values: &Cache) -> Result<String, Memory> {
    let count = nodes.len();
    let values = told_values(alloc, values)?;
    Ok(format!(in alloc; "whole, {count} nodes, {values}")?)
}

fn told_damaged(alloc: Global, name: &Label) -> Result<String, Memory> {
    match std::str::from_utf8(name.bytes()) {
        Ok(text) => Ok(format!(in alloc; "damaged {text}")?),
        Err(_) => Ok(String::from_str(alloc, "damaged ?")?),
    }
}

fn copied(alloc: Global, files: &FileSet) -> Result<FileSet, Memory> {
    let mut set = FileSet::new(alloc);
    for file in files.pairs() {
        set.put(file.0.copy()?, file.1.copy()?)?;
    }
    Ok(set)
}

fn without(alloc: Global, files: &FileSet, name: &Label) -> Result<FileSet, Memory> {
    let mut set = FileSet::new(alloc);
    for file in files.pairs() {
        if file.0 != *name {
            set.put(file.0.copy()?, file.1.copy()?)?;
        }
    }
    Ok(set)
}

fn changed(
    alloc: Global,
    files: &FileSet,
    name: &Label,
    change: Change,
) -> Result<FileSet, Memory> {
    match change {
        Change::Without => without(alloc, files, name),
        Change::Cut => with(alloc, files, name, cut(alloc, files.get(name))?),
        Change::More => with(alloc, files, name, more(alloc, files.get(name))?),
        Change::With(bytes) => with(alloc, files, name, bytes.copy()?),
    }
}

fn with(alloc: Global, files: &FileSet, name: &Label, bytes: Bytes) -> Result<FileSet, Memory> {
    let mut set = without(alloc, files, name)?;
    set.put(name.copy()?, bytes)?;
    Ok(set)
}

fn cut(alloc: Global, bytes: Option<&Bytes>) -> Result<Bytes, Memory> {
    match bytes {
        Some(bytes) => match bytes.as_slice() {
            [front @ .., _] => Bytes::of(alloc, front),
            [] => Ok(Bytes::new(alloc)),
        },
        None => Ok(Bytes::new(alloc)),
    }
}

fn more(alloc: Global, bytes: Option<&Bytes>) -> Result<Bytes, Memory> {
    let mut longer = Bytes::new(alloc);
    if let Some(bytes) = bytes {
        longer.append(bytes.as_slice())?;
    }
    longer.append(&[0])?;
    Ok(longer)
}

/// What a set is read as once a bit of a file of it is changed, each bit in turn: how often as what.
pub fn told_bits(alloc: Global, files: &FileSet, name: &Option<Label>) -> Result<String, Memory> {
    match (name, found(files, name)) {
        (Some(name), Some(bytes)) => counted(alloc, files, name, bytes.as_slice()),
        _ => Ok(String::from_str(alloc, "no file")?),
    }
}

/// How often what came.
#[derive(Clone, Copy)]
struct Counts {
    whole: u32,
    other: u32,
    damaged: u32,
    elsewhere: u32,
}

fn counted(alloc: Global, files: &FileSet, name: &Label, bytes: &[u8]) -> Result<String, Memory> {
    let mut counts = Counts {
        whole: 0,
        other: 0,
        damaged: 0,
        elsewhere: 0,
    };
    for at in 0..bytes.len() {
        for bit in 0..8u32 {
            let set = with(alloc, files, name, flipped(alloc, bytes, at, bit)?)?;
            count(&mut counts, name, read(alloc, 1, set)?);
        }
    }
    let Counts {
        whole,
        other,
        damaged,
        elsewhere,
    } = counts;
    Ok(format!(in alloc;
        "whole {whole}, other compiler {other}, damaged {damaged}, another damaged {elsewhere}"
    )?)
}

fn flipped(alloc: Global, bytes: &[u8], at: usize, bit: u32) -> Result<Bytes, Memory> {
    let mut changed = Vec::new(alloc);
    changed.extend_from_slice(bytes)?;
    if at < changed.len() && bit < 8 {
        changed[at] ^= 1u8 << bit;
    }
    Bytes::of(alloc, changed.as_slice())
}

fn count(counts: &mut Counts, name: &Label, start: Option<Start>) {
    match start {
        Some(Start::Whole(nodes, values)) => {
            drop(nodes);
            drop(values);
            counts.whole = counts.whole.wrapping_add(1);
        }
        Some(Start::OtherCompiler) => counts.other = counts.other.wrapping_add(1),
        Some(Start::Damaged(file)) => {
            if file == *name {
                counts.damaged = counts.damaged.wrapping_add(1);
            } else {
                counts.elsewhere = counts.elsewhere.wrapping_add(1);
            }
            drop(file);
        }
        None => {}
    }
}
