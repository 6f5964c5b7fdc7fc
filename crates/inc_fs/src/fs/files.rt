ghost use Rattle.std.specs.Prelude.{◌≡◌, ◌≢◌, ◌<◌, ◌++◌, IfOk, IfSome, IfNone, OnOk, OnErr, Some, None, length, vec_len, slice_index_or, slice_set};
ghost use Rattle.inc_fs.specs.State.{file_at, number_at};
ghost use Rattle.inc_fs.specs.declared.state.File.{File};
ghost use Rattle.inc_fs.specs.Step.{Links, Reads, Creates, Appends, Unlinks};

use super::names::{insert_name, remove_name};
use super::{Fs, number_of, path};
use crate::op::Reply;
use crate::state::File;
use inc_base::{Copied, Label, Memory};

impl Fs {
    fn named(&self, path: &(Label, Label), file: &Label) -> Option<u32>
        ensures { result ≡ number_at self.now path.now.0 path.now.1 file.now }
    {
        let names = self.folder(path)?;
        names.get(file).copied()
    }

    fn file_number(&self, path: &(Label, Label), file: &Label) -> Option<usize>
        ensures within { IfSome result (λ number. number < length self.now.files) }
        ensures found { IfSome result (λ number. (d : File) → file_at self.now path.now.0 path.now.1 file.now ≡ Some (number, slice_index_or self.now.files number d)) }
        ensures none { IfNone result (file_at self.now path.now.0 path.now.1 file.now ≡ None) }
    {
        let number = self.named(path, file)? as usize;
        if number < self.files.len() {
            Some(number)
        } else {
            None
        }
    }

    pub(super) fn link(
        &mut self,
        krate: &Label,
        from: &Label,
        to: &Label,
        file: &Label,
    ) -> Result<Reply, Memory>
        ensures links { IfOk result (λ reply. Links self.old krate.now from.now to.now file.now reply self.new) }
        ensures answers { IfOk result (λ reply. reply ≢ Reply.Fault) }
        ensures err { OnErr result (self.new ≡ self.old) }
    {
        let from = path(krate, from)?;
        let to = path(krate, to)?;
        let Some(number) = self.named(&from, file) else {
            return Ok(Reply::Missing);
        };
        let Some(names) = self.folder(&to) else {
            return Ok(Reply::Missing);
        };
        if names.get(file).is_some() {
            return Ok(Reply::Exists);
        }
        insert_name(&mut self.entries, &to, file.copy()?, number)?;
        Ok(Reply::Done)
    }

    pub(super) fn read(&self, krate: &Label, entry: &Label, file: &Label) -> Result<Reply, Memory>
        ensures reads { IfOk result (λ reply. Reads self.now krate.now entry.now file.now reply self.now) }
        ensures answers { IfOk result (λ reply. reply ≢ Reply.Fault) }
    {
        let path = path(krate, entry)?;
        let Some(number) = self.file_number(&path, file) else {
            return Ok(Reply::Missing);
        };
        Ok(Reply::Bytes(self.files[number].bytes.copy()?))
    }

    pub(super) fn create(
        &mut self,
        krate: &Label,
        entry: &Label,
        file: &Label,
    ) -> Result<Reply, Memory>
        ensures creates { IfOk result (λ reply. Creates self.old krate.now entry.now file.now reply self.new) }
        ensures answers { IfOk result (λ reply. reply ≢ Reply.Fault) }
        ensures err { OnErr result (self.new ≡ self.old) }
    {
        let path = path(krate, entry)?;
        let Some(names) = self.folder(&path) else {
            return Ok(Reply::Missing);
        };
        if names.get(file).is_some() {
            return Ok(Reply::Exists);
        }
        let number = number_of(self.files.len())?;
        let alloc = *self.files.allocator();
        self.files.reserve(1)?;
        insert_name(&mut self.entries, &path, file.copy()?, number)?;
        self.files.push(File::new(alloc)).unwrap();
        Ok(Reply::Done)
    }

    pub(super) fn append(
        &mut self,
        krate: &Label,
        entry: &Label,
        file: &Label,
        piece: &[u8],
    ) -> Result<Reply, Memory>
        ensures appends { IfOk result (λ reply. Appends self.old krate.now entry.now file.now piece.now reply self.new) }
        ensures answers { IfOk result (λ reply. reply ≢ Reply.Fault) }
        ensures err { OnErr result (self.new ≡ self.old) }
    {
        let path = path(krate, entry)?;
        let Some(number) = self.file_number(&path, file) else {
            return Ok(Reply::Missing);
        };
        append_to(&mut self.files, number, piece)?;
        Ok(Reply::Done)
    }

    pub(super) fn unlink(
        &mut self,
        krate: &Label,
        entry: &Label,
        file: &Label,
    ) -> Result<Reply, Memory>
        ensures unlinks { IfOk result (λ reply. Unlinks self.old krate.now entry.now file.now reply self.new) }
        ensures answers { IfOk result (λ reply. reply ≢ Reply.Fault) }
        ensures err { OnErr result (self.new ≡ self.old) }
    {
        let path = path(krate, entry)?;
        if self.named(&path, file).is_none() {
            return Ok(Reply::Missing);
        }
        remove_name(&mut self.entries, &path, file);
        Ok(Reply::Done)
    }
}

fn append_to(files: &mut Vec<File>, number: usize, piece: &[u8]) -> Result<(), Memory>
    requires { number < vec_len files.old }
    ensures ok { OnOk result ((d : File) → files.new.items ≡ slice_set files.old.items number (record { bytes = (slice_index_or files.old.items number d).bytes ++ piece.now; lock = (slice_index_or files.old.items number d).lock })) }
    ensures err { OnErr result (files.new.items ≡ files.old.items) }
{
    files[number].bytes.append(piece)
}
