//! Sets of files and plans, as they are printed.

use inc_base::{Bytes, Label, List, Memory};
use inc_products::{Change, FileSet, plan};
use std::alloc::Global;

/// Each file's name and how many bytes it has.
pub fn told_files(alloc: Global, files: &FileSet) -> Result<String, Memory> {
    let mut told = String::new(alloc);
    for file in files.pairs() {
        let len = file.1.len();
        push_name(&mut told, "", &file.0)?;
        let number = format!(in alloc; " {len}")?;
        told.push_str(number.as_str())?;
    }
    Ok(told)
}

/// The changes that turn one set into another.
pub fn told_plan(alloc: Global, old: &FileSet, wanted: &FileSet) -> Result<String, Memory> {
    let changes = plan(old, wanted)?;
    if changes.is_empty() {
        return Ok(String::from_str(alloc, "nothing")?);
    }
    told_changes(alloc, &changes)
}

fn told_changes(alloc: Global, changes: &List<Change>) -> Result<String, Memory> {
    let mut told = String::new(alloc);
    for change in changes.as_slice() {
        match change {
            Change::Drop(name) => push_name(&mut told, "drop ", name)?,
            Change::Write(name, _) => push_name(&mut told, "write ", name)?,
        }
    }
    Ok(told)
}

fn push_name(told: &mut String, before: &str, name: &Label) -> Result<(), Memory> {
    if !told.is_empty() {
        told.push_str(", ")?;
    }
    told.push_str(before)?;
    match std::str::from_utf8(name.bytes()) {
        Ok(text) => told.push_str(text)?,
        Err(_) => told.push_str("?")?,
    }
    Ok(())
}

/// The bytes of a file, or none.
pub fn found<'a>(files: &'a FileSet, name: &Option<Label>) -> Option<&'a Bytes> {
    match name {
        Some(name) => files.get(name),
        None => None,
    }
}
