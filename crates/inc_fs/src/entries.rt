ghost use Rattle.std.specs.Prelude.{◌≡◌, [], IfOk, OnOk, OnErr};
ghost use Rattle.std.specs.Option.{option_copied};
ghost use Rattle.std.specs.Map.{lookup, set_value, keys_of};
ghost use Rattle.std.specs.BTreeMap.{insert_entry, is_at};
ghost use Rattle.std.specs.List.Sorted.{IsStrictlySortedBy};
ghost use Rattle.inc_fs.specs.Lists.{remove_entry};
ghost use Rattle.inc_fs.specs.Paths.{path_cmp};
ghost use Rattle.inc_fs.specs.State.{listed};
ghost use Rattle.inc_fs.specs.Listed.{first_path};

use crate::state::Entry;
use crate::table::Table;
use inc_base::{Copied, Label, List, Memory};
use std::alloc::Global;
use std::marker::Model;

/// The entries of all crate directories, which contracts see as a list in the order of their paths.
#[derive(Drop)]
pub struct Entries {
    by_path: Table<(Label, Label), Entry>,
}

impl Model for Entries {
    ghost use Rattle.std.specs.Prelude.{List};
    ghost use Rattle.std.specs.Map.{keys_of};
    ghost use Rattle.inc_fs.specs.Paths.{Path};
    ghost use Rattle.inc_fs.specs.declared.state.Entry.{Entry};
    ghost use Rattle.inc_fs.specs.Listed.{AreNamed};

    ghost Value = { List (Path × Entry) };

    ghost view = { λ e. e.by_path };

    ghost invariant = { λ e. AreNamed (keys_of e.by_path) };
}

impl Entries {
    pub(crate) fn new(alloc: Global) -> Entries
        ensures { result ≡ [] }
    {
        Entries {
            by_path: Table::new(alloc),
        }
    }

    /// What stands at a path.
    pub(crate) fn get(&self, path: &(Label, Label)) -> Option<&Entry>
        ensures { option_copied result ≡ lookup (is_at (path_cmp path.now)) self.now }
    {
        self.by_path.get(path)
    }

    /// Puts an entry at a path. After `Memory` all is as before.
    pub(crate) fn insert(&mut self, path: (Label, Label), what: Entry) -> Result<(), Memory>
        ensures ok { OnOk result (self.new ≡ insert_entry path_cmp self.old path what) }
        ensures err { OnErr result (self.new ≡ self.old) }
    {
        // Its contract says that the text is a label's, as the invariant has it of each entry.
        let _label = path.1.bytes();
        self.by_path.insert(path, what)
    }

    /// Takes away what stands at a path, and gives it back. It takes no memory.
    pub(crate) fn remove(&mut self, path: &(Label, Label)) -> Option<Entry>
        ensures value { result ≡ lookup (is_at (path_cmp path.now)) self.old }
        ensures rest { self.new ≡ remove_entry (is_at (path_cmp path.now)) self.old }
    {
        self.by_path.remove(path)
    }

    /// Puts an entry in the place of what stands at a path, and gives that back. It takes no memory.
    pub(crate) fn replace(&mut self, path: &(Label, Label), what: Entry) -> Option<Entry>
        ensures value { result ≡ lookup (is_at (path_cmp path.now)) self.old }
        ensures rest { self.new ≡ set_value (is_at (path_cmp path.now)) self.old what }
        ensures ordered { IsStrictlySortedBy path_cmp (keys_of self.old) }
    {
        self.by_path.replace(path, what)
    }

    /// The names of the entries of a crate directory, in order. No entry of another crate is looked at but
    /// the one that comes after them.
    pub(crate) fn listed(&self, alloc: Global, krate: &Label) -> Result<List<Label>, Memory>
        ensures { IfOk result (λ names. names ≡ listed krate.now self.now) }
    {
        let first = first_path(alloc, krate)?;
        let mut names = List::new(alloc);
        for (path, _) in self.by_path.pairs_from(first) {
            if path.0 != *krate {
                break;
            }
            names.push(path.1.copy()?)?;
        }
        Ok(names)
    }
}

/// The path before which no entry of a crate directory stands.
fn first_path(alloc: Global, krate: &Label) -> Result<(Label, Label), Memory>
    ensures { IfOk result (λ path. path ≡ first_path krate.now) }
{
    match Label::of(alloc, b"-")? {
        Some(label) => Ok((krate.copy()?, label)),
        None => unreachable!(),
    }
}
