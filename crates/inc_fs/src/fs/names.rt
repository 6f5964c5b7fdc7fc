ghost use Rattle.std.specs.Prelude.{◌≡◌, List, ℕ, Some, IsSome, OnOk, OnErr};
ghost use Rattle.std.specs.Map.{lookup, set_value, keys_of};
ghost use Rattle.std.specs.BTreeMap.{insert_entry, is_at};
ghost use Rattle.std.specs.List.Sorted.{IsStrictlySortedBy};
ghost use Rattle.inc_fs.specs.Lists.{remove_entry};
ghost use Rattle.inc_fs.specs.State.{Text, path_cmp, text_cmp, folder_of};
ghost use Rattle.inc_fs.specs.declared.state.Entry.{Entry};
ghost use Rattle.inc_fs.specs.declared.state.Entry.TheVariants.{LockFile, Folder};

use crate::entries::Entries;
use crate::state::Entry;
use crate::table::Table;
use inc_base::{Label, Memory};

// Takes the names out of a directory, so that they can be changed in place of being copied.
fn take_names(entries: &mut Entries, path: &(Label, Label)) -> Table<Label, u32>
    requires { IsSome (folder_of (lookup (is_at (path_cmp path.now)) entries.old)) }
    ensures value { folder_of (lookup (is_at (path_cmp path.now)) entries.old) ≡ Some result }
    ensures rest { entries.new ≡ set_value (is_at (path_cmp path.now)) entries.old (LockFile 0) }
    ensures ordered { IsStrictlySortedBy path_cmp (keys_of entries.old) }
{
    match entries.replace(path, Entry::LockFile(0)) {
        Some(Entry::Folder(names)) => names,
        Some(Entry::LockFile(_)) => unreachable!(),
        None => unreachable!(),
    }
}

/// Gives a file this name in a directory. After `Memory` the entries are as before.
pub(super) fn insert_name(
    entries: &mut Entries,
    path: &(Label, Label),
    name: Label,
    number: u32,
) -> Result<(), Memory>
    requires { IsSome (folder_of (lookup (is_at (path_cmp path.now)) entries.old)) }
    ensures ok { OnOk result ((names : List (Text × ℕ)) → folder_of (lookup (is_at (path_cmp path.now)) entries.old) ≡ Some names → entries.new ≡ insert_entry path_cmp entries.old path.now (Folder (insert_entry text_cmp names name number))) }
    ensures err { OnErr result (entries.new ≡ entries.old) }
{
    let mut names = take_names(entries, path);
    let inserted = names.insert(name, number);
    entries.replace(path, Entry::Folder(names));
    inserted
}

/// Takes this name of a file away from a directory. It takes no memory.
pub(super) fn remove_name(entries: &mut Entries, path: &(Label, Label), name: &Label)
    requires { IsSome (folder_of (lookup (is_at (path_cmp path.now)) entries.old)) }
    ensures { (names : List (Text × ℕ)) → folder_of (lookup (is_at (path_cmp path.now)) entries.old) ≡ Some names → entries.new ≡ insert_entry path_cmp entries.old path.now (Folder (remove_entry (is_at (text_cmp name.now)) names)) }
{
    let mut names = take_names(entries, path);
    names.remove(name);
    entries.replace(path, Entry::Folder(names));
}

/// Puts what stands at `from` in the place of what stands at `to`. It takes no memory.
pub(super) fn move_entry(entries: &mut Entries, from: &(Label, Label), to: &(Label, Label))
    ensures { (what : Entry) → lookup (is_at (path_cmp from.now)) entries.old ≡ Some what → entries.new ≡ set_value (is_at (path_cmp to.now)) (remove_entry (is_at (path_cmp from.now)) entries.old) what }
{
    if let Some(moved) = entries.remove(from) {
        entries.replace(to, moved);
    }
}
