//! What is asked of a session's own directory.
ghost use Rattle.std.specs.Prelude.{◌≡◌, ◌≢◌, ◌↔◌, ℕ, IsTrue, IfOk, IfSome, IfNone, List, Some, None};
ghost use Rattle.std.specs.Map.{lookup};
ghost use Rattle.std.specs.BTreeMap.{is_at};
ghost use Rattle.inc_fs.specs.Paths.{Text, text_cmp};
ghost use Rattle.inc_names.specs.Entries.{final_text};
ghost use Rattle.inc_proto.specs.Asked.{AreOrdered};
ghost use Rattle.inc_proto.specs.Permits.{IsHash, complete};
ghost use Rattle.inc_proto.specs.Views.Dir.{Unmade, Stands, Removed, Published};

use crate::own::Known;
use crate::own_dir::{OwnDir, Site};
use crate::published::are_files;
use crate::sought::is_final_dir_of;
use inc_base::{Bytes, Label, Memory};
use inc_fs::Table;
use inc_names::SessionName;
use std::alloc::Global;

impl OwnDir {
    pub(crate) fn is_unmade(&self) -> bool
        ensures { IsTrue result ↔ (self.now ≡ Unmade) }
    {
        matches!(self.site, Site::Nowhere)
    }

    pub(crate) fn is_removed(&self) -> bool
        ensures { IsTrue result ↔ (self.now ≡ Removed) }
    {
        matches!(self.site, Site::Gone)
    }

    /// Its files, where it stands at this path.
    pub(crate) fn files_at(&self, krate: &Label, entry: &Label) -> Option<&Table<Label, Known>>
        ensures some { IfSome result (λ files. self.now ≡ Stands krate.now entry.now files.now) }
        ensures none { IfNone result ((files : List (Text × Known)) → self.now ≢ Stands krate.now entry.now files) }
    {
        match &self.site {
            Site::At(k, e) => {
                if k == krate && e == entry {
                    Some(&self.files)
                } else {
                    None
                }
            }
            Site::Nowhere => None,
            Site::Gone => None,
            Site::Out(_, _) => None,
        }
    }

    /// Whether it stands at this path.
    pub(crate) fn stands_at(&self, krate: &Label, entry: &Label) -> bool
        ensures { IsTrue result ↔ ((files : List (Text × Known)) × (self.now ≡ Stands krate.now entry.now files)) }
    {
        match self.files_at(krate, entry) {
            Some(_) => true,
            None => false,
        }
    }

    /// Whether it stands at this path and lacks the file.
    pub(crate) fn lacks(&self, krate: &Label, entry: &Label, file: &Label) -> bool
        ensures { IsTrue result ↔ ((files : List (Text × Known)) × (self.now ≡ Stands krate.now entry.now files) × (lookup (is_at (text_cmp file.now)) files ≡ None)) }
    {
        match self.files_at(krate, entry) {
            Some(files) => files.get(file).is_none(),
            None => false,
        }
    }

    /// Whether it stands at this path and has the file, which the session created.
    pub(crate) fn has_made(&self, krate: &Label, entry: &Label, file: &Label) -> bool
        ensures { IsTrue result ↔ ((files : List (Text × Known)) × (known : Known) × (self.now ≡ Stands krate.now entry.now files) × (lookup (is_at (text_cmp file.now)) files ≡ Some known) × (known.linked ≡ None)) }
    {
        match self.files_at(krate, entry) {
            Some(files) => match files.get(file) {
                Some(known) => known.linked.is_none(),
                None => false,
            },
            None => false,
        }
    }

    /// Whether it wasn't published there as a directory of n.
    pub(crate) fn is_others(&self, krate: &Label, n: SessionName) -> bool
        ensures { IsTrue result ↔ ((hash : ℕ) (files : List (Text × Known)) → IsHash hash → self.now ≢ Published krate.now (final_text n hash) files) }
    {
        match &self.site {
            Site::Out(k, e) => k != krate || !is_final_dir_of(e, n),
            _ => true,
        }
    }

    /// Whether it stands at this path, and its files are known to be exactly these.
    pub(crate) fn is_exactly(
        &self,
        alloc: Global,
        krate: &Label,
        entry: &Label,
        wanted: &[(Label, Bytes)],
    ) -> Result<bool, Memory>
        requires { AreOrdered self.now }
        ensures { IfOk result (λ yes. IsTrue yes ↔ ((its : List (Text × Known)) × (self.now ≡ Stands krate.now entry.now its) × (complete its ≡ Some wanted.now))) }
    {
        match self.files_at(krate, entry) {
            Some(files) => are_files(files, alloc, wanted),
            None => Ok(false),
        }
    }
}
