ghost use Rattle.std.specs.Prelude.{◌≡◌, ◌≢◌, IfOk, OnErr};
ghost use Rattle.std.specs.Option.{option_copied};
ghost use Rattle.inc_fs.specs.State.{folder_at};
ghost use Rattle.inc_fs.specs.Step.{Looks, ListsDir, MakesDir, RemovesDir, Renames};

use super::names::move_entry;
use super::{Fs, path};
use crate::op::Reply;
use crate::state::Entry;
use crate::table::Table;
use inc_base::{Copied, Label, Memory};

impl Fs {
    pub(super) fn folder(&self, path: &(Label, Label)) -> Option<&Table<Label, u32>>
        ensures { option_copied result ≡ folder_at self.now path.now.0 path.now.1 }
    {
        match self.entries.get(path) {
            Some(Entry::Folder(names)) => Some(names),
            Some(Entry::LockFile(_)) => None,
            None => None,
        }
    }

    pub(super) fn look(&self, krate: &Label) -> Result<Reply, Memory>
        ensures looks { IfOk result (λ reply. Looks self.now krate.now reply self.now) }
        ensures answers { IfOk result (λ reply. reply ≢ Reply.Fault) }
    {
        let names = self.entries.listed(*self.files.allocator(), krate)?;
        Ok(Reply::Names(names))
    }

    pub(super) fn list_dir(&self, krate: &Label, entry: &Label) -> Result<Reply, Memory>
        ensures lists { IfOk result (λ reply. ListsDir self.now krate.now entry.now reply self.now) }
        ensures answers { IfOk result (λ reply. reply ≢ Reply.Fault) }
    {
        let path = path(krate, entry)?;
        let Some(names) = self.folder(&path) else {
            return Ok(Reply::Missing);
        };
        Ok(Reply::Names(names.keys(*self.files.allocator())?))
    }

    pub(super) fn make_dir(&mut self, krate: &Label, entry: &Label) -> Result<Reply, Memory>
        ensures makes { IfOk result (λ reply. MakesDir self.old krate.now entry.now reply self.new) }
        ensures answers { IfOk result (λ reply. reply ≢ Reply.Fault) }
        ensures err { OnErr result (self.new ≡ self.old) }
    {
        let path = path(krate, entry)?;
        if self.entries.get(&path).is_some() {
            return Ok(Reply::Exists);
        }
        let alloc = *self.files.allocator();
        self.entries.insert(path, Entry::Folder(Table::new(alloc)))?;
        Ok(Reply::Done)
    }

    pub(super) fn remove_dir(&mut self, krate: &Label, entry: &Label) -> Result<Reply, Memory>
        ensures removes { IfOk result (λ reply. RemovesDir self.old krate.now entry.now reply self.new) }
        ensures answers { IfOk result (λ reply. reply ≢ Reply.Fault) }
        ensures err { OnErr result (self.new ≡ self.old) }
    {
        let path = path(krate, entry)?;
        let Some(names) = self.folder(&path) else {
            return Ok(Reply::Missing);
        };
        if !names.is_empty() {
            return Ok(Reply::NotEmpty);
        }
        self.entries.remove(&path);
        Ok(Reply::Done)
    }

    // Makes room under the new name first, so that `Memory` finds the directory where it was.
    pub(super) fn rename(
        &mut self,
        krate: &Label,
        from: &Label,
        to: &Label,
    ) -> Result<Reply, Memory>
        ensures renames { IfOk result (λ reply. Renames self.old krate.now from.now to.now reply self.new) }
        ensures answers { IfOk result (λ reply. reply ≢ Reply.Fault) }
        ensures err { OnErr result (self.new ≡ self.old) }
    {
        let from = path(krate, from)?;
        let to = path(krate, to)?;
        if self.folder(&from).is_none() {
            return Ok(Reply::Missing);
        }
        if self.entries.get(&to).is_some() {
            return Ok(Reply::Exists);
        }
        self.entries.insert(to.copy()?, Entry::LockFile(0))?;
        move_entry(&mut self.entries, &from, &to);
        Ok(Reply::Done)
    }
}
