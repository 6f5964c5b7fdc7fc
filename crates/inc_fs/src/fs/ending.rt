ghost use Rattle.std.specs.Prelude.{◌≡◌, ◌==◌, filter, map, not};
ghost use Rattle.inc_fs.specs.State.{end_of, is_whose, released, released_file};

use super::Fs;
use crate::state::{File, Handle, Lock};
use inc_base::List;
use std::collections::BTreeMap;
use std::mem;

impl Fs {
    /// Ends a session: its handles are gone, and what they held is free. It takes no memory.
    pub fn end(&mut self, who: u32)
        ensures { self.new ≡ end_of self.old who }
    {
        release_all(self.files.as_mut_slice(), &self.handles, who);
        drop_handles(&mut self.handles, who);
    }
}

fn is_whose(handles: &BTreeMap<u32, Handle>, who: u32, handle: u32) -> bool
    ensures { result ≡ is_whose handles.now.entries who handle }
{
    match handles.get(&handle) {
        None => false,
        Some(opened) => opened.owner == who,
    }
}

fn keep_others(holders: &mut List<u32>, handles: &BTreeMap<u32, Handle>, who: u32)
    ensures { holders.new ≡ filter (λ handle. not (is_whose handles.now.entries who handle)) holders.old }
{
    holders.retain(|handle| !is_whose(handles, who, *handle));
}

fn released(lock: Lock, handles: &BTreeMap<u32, Handle>, who: u32) -> Lock
    ensures { result ≡ released handles.now.entries who lock }
{
    match lock {
        Lock::Free => Lock::Free,
        Lock::Shared(holders) => {
            let mut holders = holders;
            keep_others(&mut holders, handles, who);
            Lock::shared_by(holders)
        }
        Lock::Exclusive(handle) => {
            if is_whose(handles, who, handle) {
                Lock::Free
            } else {
                Lock::Exclusive(handle)
            }
        }
    }
}

fn release_all(files: &mut [File], handles: &BTreeMap<u32, Handle>, who: u32)
    ensures { files.new ≡ map (released_file handles.now.entries who) files.old }
{
    for file in files.iter_mut() {
        let lock = mem::replace(&mut file.lock, Lock::Free);
        file.lock = released(lock, handles, who);
    }
}

fn drop_handles(handles: &mut BTreeMap<u32, Handle>, who: u32)
    ensures { handles.new.entries ≡ filter (λ pair. not (pair.1.owner == who)) handles.old.entries }
{
    handles.retain(|_, opened| opened.owner != who);
}
