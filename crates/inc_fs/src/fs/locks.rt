ghost use Rattle.std.specs.Prelude.{◌≡◌, ◌≢◌, ◌<◌, ◌+◌, ◌^◌, IfOk, IfSome, IfNone, OnOk, OnErr, Some, None, length, vec_len, slice_index_or, slice_set, filter, not, ◌==◌};
ghost use Rattle.std.specs.BTreeMap.{insert_entry, is_at};
ghost use Rattle.std.specs.Ordering.{nat_cmp};
ghost use Rattle.inc_fs.specs.State.{own_file, lock_at, freed, remove_entry};
ghost use Rattle.inc_fs.specs.declared.state.File.{File};
ghost use Rattle.inc_fs.specs.Step.{MakesLock, OpensLock, TriesLock, UnlinksLock, Closes};

use super::{Fs, number_of, path};
use crate::op::Reply;
use crate::state::{Entry, File, Handle, Lock};
use inc_base::{Copied, Label, List, Memory};
use std::collections::BTreeMap;
use std::mem;

impl Fs {
    fn own_file(&self, who: u32, handle: u32) -> Option<usize>
        ensures within { IfSome result (λ number. number < length self.now.files) }
        ensures found { IfSome result (λ number. (d : File) → own_file self.now who handle ≡ Some (number, slice_index_or self.now.files number d)) }
        ensures none { IfNone result (own_file self.now who handle ≡ None) }
    {
        let opened = self.handles.get(&handle)?;
        if opened.owner != who {
            return None;
        }
        let number = opened.file as usize;
        if number < self.files.len() {
            Some(number)
        } else {
            None
        }
    }

    fn lock_file(&self, path: &(Label, Label)) -> Option<u32>
        ensures { result ≡ lock_at self.now path.now.0 path.now.1 }
    {
        match self.entries.get(path) {
            Some(Entry::LockFile(number)) => Some(*number),
            Some(Entry::Folder(_)) => None,
            None => None,
        }
    }

    pub(super) fn make_lock(
        &mut self,
        who: u32,
        krate: &Label,
        entry: &Label,
    ) -> Result<Reply, Memory>
        ensures makes { IfOk result (λ reply. MakesLock self.old who krate.now entry.now reply self.new) }
        ensures answers { IfOk result (λ reply. reply ≢ Reply.Fault) }
        ensures err { OnErr result (self.new ≡ self.old) }
    {
        let path = path(krate, entry)?;
        if self.entries.get(&path).is_some() {
            return Ok(Reply::Exists);
        }
        let file = number_of(self.files.len())?;
        let alloc = *self.files.allocator();
        self.files.reserve(1)?;
        self.entries.insert(path.copy()?, Entry::LockFile(file))?;
        match give(&mut self.handles, &mut self.given, who, file) {
            Ok(handle) => {
                self.files.push(File::new(alloc)).unwrap();
                Ok(Reply::Handle(handle))
            }
            Err(refused) => {
                self.entries.remove(&path);
                Err(refused)
            }
        }
    }

    pub(super) fn open_lock(
        &mut self,
        who: u32,
        krate: &Label,
        entry: &Label,
    ) -> Result<Reply, Memory>
        ensures opens { IfOk result (λ reply. OpensLock self.old who krate.now entry.now reply self.new) }
        ensures answers { IfOk result (λ reply. reply ≢ Reply.Fault) }
        ensures err { OnErr result (self.new ≡ self.old) }
    {
        let path = path(krate, entry)?;
        let Some(file) = self.lock_file(&path) else {
            return Ok(Reply::Missing);
        };
        let handle = give(&mut self.handles, &mut self.given, who, file)?;
        Ok(Reply::Handle(handle))
    }

    pub(super) fn try_lock(
        &mut self,
        who: u32,
        handle: u32,
        exclusive: bool,
    ) -> Result<Reply, Memory>
        ensures tries { IfOk result (λ reply. TriesLock self.old who handle exclusive reply self.new) }
        ensures answers { IfOk result (λ reply. reply ≢ Reply.Fault) }
        ensures err { OnErr result (self.new ≡ self.old) }
    {
        let Some(number) = self.own_file(who, handle) else {
            return Ok(Reply::Missing);
        };
        let alloc = *self.files.allocator();
        if self.files[number].lock.excludes(handle, exclusive) {
            return Ok(Reply::Held);
        }
        let lock = self.files[number].lock.locked(alloc, handle, exclusive)?;
        self.files[number].lock = lock;
        Ok(Reply::Got)
    }

    pub(super) fn unlink_lock(&mut self, krate: &Label, entry: &Label) -> Result<Reply, Memory>
        ensures unlinks { IfOk result (λ reply. UnlinksLock self.old krate.now entry.now reply self.new) }
        ensures answers { IfOk result (λ reply. reply ≢ Reply.Fault) }
        ensures err { OnErr result (self.new ≡ self.old) }
    {
        let path = path(krate, entry)?;
        if self.lock_file(&path).is_none() {
            return Ok(Reply::Missing);
        }
        self.entries.remove(&path);
        Ok(Reply::Done)
    }

    pub(super) fn close(&mut self, who: u32, handle: u32) -> Result<Reply, Memory>
        ensures closes { IfOk result (λ reply. Closes self.old who handle reply self.new) }
        ensures answers { IfOk result (λ reply. reply ≢ Reply.Fault) }
        ensures err { OnErr result (self.new ≡ self.old) }
    {
        let Some(number) = self.own_file(who, handle) else {
            return Ok(Reply::Missing);
        };
        free(&mut self.files, number, handle);
        remove_handle(&mut self.handles, handle);
        Ok(Reply::Done)
    }
}

// Opens the next handle. The last u32 is never given, so that the count of those given stays one.
fn give(
    handles: &mut BTreeMap<u32, Handle>,
    given: &mut u32,
    owner: u32,
    file: u32,
) -> Result<u32, Memory>
    ensures next { IfOk result (λ handle. handle ≡ given.old) }
    ensures few { IfOk result (λ handle. handle < 2 ^ 32) }
    ensures given { OnOk result (given.new ≡ given.old + 1) }
    ensures opened { IfOk result (λ handle. handles.new.entries ≡ insert_entry nat_cmp handles.old.entries handle (record { owner = owner; file = file })) }
    ensures err { OnErr result ((given.new ≡ given.old) × (handles.new.entries ≡ handles.old.entries)) }
{
    let handle = *given;
    if handle == u32::MAX {
        return Err(Memory);
    }
    handles.insert(handle, Handle { owner, file })?;
    *given = handle + 1;
    Ok(handle)
}

fn remove_handle(handles: &mut BTreeMap<u32, Handle>, handle: u32)
    ensures { handles.new.entries ≡ remove_entry (is_at (nat_cmp handle)) handles.old.entries }
{
    handles.remove(&handle);
}

fn free(files: &mut Vec<File>, number: usize, handle: u32)
    requires { number < vec_len files.old }
    ensures { (d : File) → files.new.items ≡ slice_set files.old.items number (record { bytes = (slice_index_or files.old.items number d).bytes; lock = freed (slice_index_or files.old.items number d).lock handle }) }
{
    let file = &mut files[number];
    let lock = mem::replace(&mut file.lock, Lock::Free);
    file.lock = freed(lock, handle);
}

fn take_out(holders: &mut List<u32>, handle: u32)
    ensures { holders.new ≡ filter (λ other. not (other == handle)) holders.old }
{
    holders.retain(|other| *other != handle);
}

fn freed(lock: Lock, handle: u32) -> Lock
    ensures { result ≡ freed lock handle }
{
    match lock {
        Lock::Free => Lock::Free,
        Lock::Shared(holders) => {
            let mut holders = holders;
            take_out(&mut holders, handle);
            Lock::shared_by(holders)
        }
        Lock::Exclusive(holder) => {
            if holder == handle {
                Lock::Free
            } else {
                Lock::Exclusive(holder)
            }
        }
    }
}
