//! The table as a plain program over lists, searched from the front.

use super::ask::Ask;
use inc_base::{Bytes, Label, List};
use inc_fs::{Chance, Reply};
use std::alloc::Global;
use std::test::Fail;

/// Files by their numbers; (crate directory, entry, its lock file's number); (crate directory, entry,
/// file, its number); (handle, owner, file); (handle, file, whether exclusive); the pairs drawn.
#[derive(Drop)]
pub struct Plain {
    files: Vec<Vec<u8>>,
    entries: Vec<(u8, u8, Option<usize>)>,
    names: Vec<(u8, u8, u8, usize)>,
    handles: Vec<(u32, u32, usize)>,
    holds: Vec<(u32, usize, bool)>,
    given: u32,
    drawn: Vec<(u64, u32)>,
}

impl Plain {
    pub fn new(alloc: Global) -> Plain {
        Plain {
            files: Vec::new(alloc),
            entries: Vec::new(alloc),
            names: Vec::new(alloc),
            handles: Vec::new(alloc),
            holds: Vec::new(alloc),
            given: 0,
            drawn: Vec::new(alloc),
        }
    }

    fn entry(&self, krate: u8, entry: u8) -> Option<Option<usize>> {
        for (k, e, lock) in &self.entries {
            if *k == krate && *e == entry {
                return Some(*lock);
            }
        }
        None
    }

    fn is_dir(&self, krate: u8, entry: u8) -> bool {
        self.entry(krate, entry) == Some(None)
    }

    fn file(&self, krate: u8, entry: u8, file: u8) -> Option<usize> {
        for (k, e, f, number) in &self.names {
            if *k == krate && *e == entry && *f == file {
                return Some(*number);
            }
        }
        None
    }

    fn own(&self, who: u32, handle: u32) -> Option<usize> {
        for (h, owner, file) in &self.handles {
            if *h == handle && *owner == who {
                return Some(*file);
            }
        }
        None
    }

    fn open(&mut self, who: u32, file: usize) -> Result<Reply, Fail> {
        let handle = self.given;
        self.handles.push((handle, who, file))?;
        self.given = handle.wrapping_add(1);
        Ok(Reply::Handle(handle))
    }

    fn draw(&mut self, chance: Chance) -> Result<Reply, Fail> {
        let last = self.drawn.last().map_or(0, |pair| pair.0);
        let moment = chance.moment.max(last);
        let mut random = chance.random;
        for _ in 0..self.drawn.len() {
            if self.drawn.contains(&(moment, random)) {
                random = random.wrapping_add(1);
            }
        }
        self.drawn.push((moment, random))?;
        Ok(Reply::Drawn(moment, random))
    }

    fn try_lock(&mut self, who: u32, handle: u32, exclusive: bool) -> Result<Reply, Fail> {
        let Some(file) = self.own(who, handle) else {
            return Ok(Reply::Missing);
        };
        for (h, f, mode) in &self.holds {
            if *h != handle && *f == file && (exclusive || *mode) {
                return Ok(Reply::Held);
            }
        }
        self.holds.retain(|hold| hold.0 != handle);
        self.holds.push((handle, file, exclusive))?;
        Ok(Reply::Got)
    }

    fn close(&mut self, who: u32, handle: u32) -> Reply {
        if self.own(who, handle).is_none() {
            return Reply::Missing;
        }
        self.holds.retain(|hold| hold.0 != handle);
        self.handles.retain(|opened| opened.0 != handle);
        Reply::Done
    }

    pub fn end(&mut self, who: u32) {
        for handle in 0..self.given {
            self.close(who, handle);
        }
    }

    fn list(&self, alloc: Global, krate: u8, entry: Option<u8>) -> Result<Reply, Fail> {
        let mut names = List::new(alloc);
        for name in 0..=u8::MAX {
            let is_there = match entry {
                None => self.entry(krate, name).is_some(),
                Some(entry) => self.file(krate, entry, name).is_some(),
            };
            if is_there {
                names.push(Label::of(alloc, &[name])?.ok_or("no label")?)?;
            }
        }
        Ok(Reply::Names(names))
    }

    fn append(&mut self, number: Option<usize>, piece: &[u8]) -> Result<Reply, Fail> {
        let Some(number) = number else {
            return Ok(Reply::Missing);
        };
        let Some(bytes) = self.files.get_mut(number) else {
            return Ok(Reply::Missing);
        };
        bytes.extend_from_slice(piece)?;
        Ok(Reply::Done)
    }

    fn make_lock(&mut self, alloc: Global, who: u32, krate: u8, entry: u8) -> Result<Reply, Fail> {
        if self.entry(krate, entry).is_some() {
            return Ok(Reply::Exists);
        }
        let file = self.files.len();
        self.files.push(Vec::new(alloc))?;
        self.entries.push((krate, entry, Some(file)))?;
        self.open(who, file)
    }

    fn link(&mut self, krate: u8, from: u8, to: u8, file: u8) -> Result<Reply, Fail> {
        let Some(number) = self.file(krate, from, file) else {
            return Ok(Reply::Missing);
        };
        if !self.is_dir(krate, to) {
            return Ok(Reply::Missing);
        }
        if self.file(krate, to, file).is_some() {
            return Ok(Reply::Exists);
        }
        self.names.push((krate, to, file, number))?;
        Ok(Reply::Done)
    }

    fn create(&mut self, alloc: Global, krate: u8, entry: u8, file: u8) -> Result<Reply, Fail> {
        if !self.is_dir(krate, entry) {
            return Ok(Reply::Missing);
        }
        if self.file(krate, entry, file).is_some() {
            return Ok(Reply::Exists);
        }
        let number = self.files.len();
        self.files.push(Vec::new(alloc))?;
        self.names.push((krate, entry, file, number))?;
        Ok(Reply::Done)
    }

    fn rename(&mut self, krate: u8, from: u8, to: u8) -> Reply {
        if !self.is_dir(krate, from) {
            return Reply::Missing;
        }
        if self.entry(krate, to).is_some() {
            return Reply::Exists;
        }
        for entry in &mut self.entries {
            if entry.0 == krate && entry.1 == from {
                entry.1 = to;
            }
        }
        for name in &mut self.names {
            if name.0 == krate && name.1 == from {
                name.1 = to;
            }
        }
        Reply::Done
    }

    fn remove_entry(&mut self, krate: u8, entry: u8) {
        self.entries
            .retain(|stands| stands.0 != krate || stands.1 != entry);
    }

    fn read(&self, alloc: Global, number: Option<usize>) -> Result<Reply, Fail> {
        let Some(number) = number else {
            return Ok(Reply::Missing);
        };
        let Some(bytes) = self.files.get(number) else {
            return Ok(Reply::Missing);
        };
        Ok(Reply::Bytes(Bytes::of(alloc, bytes.as_slice())?))
    }

    pub fn apply(
        &mut self,
        alloc: Global,
        who: u32,
        krate: u8,
        ask: Ask,
        chance: Chance,
    ) -> Result<Reply, Fail> {
        let Some(cut) = chance.fails else {
            return self.answer(alloc, who, krate, ask, chance);
        };
        if let Ask::Append(entry, file, piece) = ask {
            let count = piece.len().min(cut as usize);
            self.append(self.file(krate, entry, file), &piece[..count])?;
        }
        Ok(Reply::Fault)
    }

    fn answer(
        &mut self,
        alloc: Global,
        who: u32,
        krate: u8,
        ask: Ask,
        chance: Chance,
    ) -> Result<Reply, Fail> {
        match ask {
            Ask::Draw => self.draw(chance),
            Ask::MakeLock(entry) => self.make_lock(alloc, who, krate, entry),
            Ask::OpenLock(entry) => match self.entry(krate, entry) {
                Some(Some(file)) => self.open(who, file),
                _ => Ok(Reply::Missing),
            },
            Ask::TryLock(handle, exclusive) => self.try_lock(who, handle, exclusive),
            Ask::Look => self.list(alloc, krate, None),
            Ask::ListDir(entry) if self.is_dir(krate, entry) => {
                self.list(alloc, krate, Some(entry))
            }
            Ask::ListDir(_) => Ok(Reply::Missing),
            Ask::MakeDir(entry) if self.entry(krate, entry).is_some() => Ok(Reply::Exists),
            Ask::MakeDir(entry) => {
                self.entries.push((krate, entry, None))?;
                Ok(Reply::Done)
            }
            Ask::Link(from, to, file) => self.link(krate, from, to, file),
            Ask::Read(entry, file) => self.read(alloc, self.file(krate, entry, file)),
            Ask::Create(entry, file) => self.create(alloc, krate, entry, file),
            Ask::Append(entry, file, piece) => self.append(self.file(krate, entry, file), piece),
            Ask::Unlink(entry, file) => Ok(self.unlink(krate, entry, file)),
            Ask::UnlinkLock(entry) => Ok(self.unlink_lock(krate, entry)),
            Ask::RemoveDir(entry) => Ok(self.remove_dir(krate, entry)),
            Ask::Rename(from, to) => Ok(self.rename(krate, from, to)),
            Ask::Close(handle) => Ok(self.close(who, handle)),
            Ask::End => Ok(Reply::Fault),
        }
    }

    fn unlink(&mut self, krate: u8, entry: u8, file: u8) -> Reply {
        if self.file(krate, entry, file).is_none() {
            return Reply::Missing;
        }
        self.names.retain(|name| name.0 != krate || name.1 != entry || name.2 != file);
        Reply::Done
    }

    fn unlink_lock(&mut self, krate: u8, entry: u8) -> Reply {
        match self.entry(krate, entry) {
            Some(Some(_)) => {
                self.remove_entry(krate, entry);
                Reply::Done
            }
            _ => Reply::Missing,
        }
    }

    fn remove_dir(&mut self, krate: u8, entry: u8) -> Reply {
        if !self.is_dir(krate, entry) {
            return Reply::Missing;
        }
        for name in &self.names {
            if name.0 == krate && name.1 == entry {
                return Reply::NotEmpty;
            }
        }
        self.remove_entry(krate, entry);
        Reply::Done
    }
}
