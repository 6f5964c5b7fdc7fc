//! The laws of the table, each as the contract of a function that does nothing. The lemmas that they
//! are proved by stand in `specs/`, where the crates above cite them.

ghost use Rattle.std.specs.Prelude.{◌≡◌, ◌≢◌, ◌↔◌, ℕ, List, [], Bool, Some, None, true, false, IsSome, slice_get, length};
ghost use Rattle.std.specs.List.Sorted.{IsStrictlySortedBy};
ghost use Rattle.inc_fs.specs.declared.op.Op.{Op};
ghost use Rattle.inc_fs.specs.declared.op.Op.TheVariants.{Look, ListDir};
ghost use Rattle.inc_fs.specs.declared.op.Reply.{Reply};
ghost use Rattle.inc_fs.specs.declared.op.Reply.TheVariants.{Names};
ghost use Rattle.inc_fs.specs.declared.op.Chance.{Chance};
ghost use Rattle.inc_fs.specs.declared.state.Entry.{Entry};
ghost use Rattle.inc_fs.specs.declared.state.File.{File};
ghost use Rattle.inc_fs.specs.declared.state.Lock.{Lock};
ghost use Rattle.inc_fs.specs.declared.state.Lock.TheVariants.{Free};
ghost use Rattle.inc_fs.specs.State.{State, Text, IsIn, text_cmp, start, end_of, entry_at, folder_of, folder_at, lock_of, lock_at, number_at, opened_at, is_excluded, locked, freed, with_entry, without_entry, with_new_file, with_bytes, with_lock, with_handle, without_handle};
ghost use Rattle.inc_fs.specs.Step.{Step, StepWith};
ghost use Rattle.inc_fs.specs.Kinds.{IsKindOf};
ghost use Rattle.inc_fs.specs.Points.{with_at, put_at};
ghost use Rattle.inc_fs.specs.Readings.{bytes_of, locks_of, held_in};
ghost use Rattle.inc_fs.specs.Tidy.{IsTidy};
ghost use Rattle.inc_fs.specs.Sound.{IsSound};
ghost use Rattle.inc_fs.specs.Steps.{ChangedBy};
ghost use Rattle.inc_fs.specs.Ending.{Ended};

/// A step with a chance is a step, and every step is answered by a reply of its row.
pub fn steps_are_answered_in_kind()
    ensures step { (F G : State) (who : ℕ) (op : Op) (chance : Chance) (reply : Reply) → StepWith F who op chance reply G → Step F who op reply G }
    ensures kind { (F G : State) (who : ℕ) (op : Op) (reply : Reply) → Step F who op reply G → IsKindOf op reply }
{}

/// A step changes the entries that its op names, the bytes of the file that it appends to and the lock
/// of the file of its own handle, makes new files, and opens and closes handles of its own session.
/// Nothing else changes, other sessions' handles and what they hold with it.
pub fn steps_change_little()
    ensures { (F G : State) (who : ℕ) (op : Op) (reply : Reply) → Step F who op reply G → ChangedBy who op F G }
{}

/// The empty directory is tidy.
pub fn the_start_is_tidy()
    ensures { IsTidy start }
{}

/// A step keeps a directory tidy.
pub fn steps_keep_tidy()
    ensures { (F G : State) (who : ℕ) (op : Op) (reply : Reply) → IsTidy F → Step F who op reply G → IsTidy G }
{}

/// So does the end of a session.
pub fn endings_keep_tidy()
    ensures { (F : State) (who : ℕ) → IsTidy F → IsTidy (end_of F who) }
{}

/// An ending takes away the handles of its session and frees what they held, and no more.
pub fn endings_free_their_own()
    ensures { (F : State) (who : ℕ) → IsTidy F → Ended who F (end_of F who) }
{}

/// What is put at a path or taken from it changes what stands there, and at no other path.
pub fn entries_change_at_one_path()
    ensures put { (F : State) (krate entry : Text) (what : Entry) → entry_at (with_entry F krate entry what) ≡ put_at (entry_at F) krate entry (Some what) }
    ensures cut { (F : State) (krate entry : Text) → entry_at (without_entry F krate entry) ≡ put_at (entry_at F) krate entry None }
    ensures folder_put { (F : State) (krate entry : Text) (what : Entry) → folder_at (with_entry F krate entry what) ≡ put_at (folder_at F) krate entry (folder_of (Some what)) }
    ensures folder_cut { (F : State) (krate entry : Text) → folder_at (without_entry F krate entry) ≡ put_at (folder_at F) krate entry None }
    ensures lock_put { (F : State) (krate entry : Text) (what : Entry) → lock_at (with_entry F krate entry what) ≡ put_at (lock_at F) krate entry (lock_of (Some what)) }
    ensures lock_cut { (F : State) (krate entry : Text) → lock_at (without_entry F krate entry) ≡ put_at (lock_at F) krate entry None }
{}

/// A new file, new bytes or another lock are seen at one number, and leave bytes and locks alone
/// elsewhere.
pub fn files_change_at_one_number()
    ensures new_bytes { (F : State) → with_at (bytes_of F) (length F.files) (Some []) ≡ bytes_of (with_new_file F) }
    ensures new_lock { (F : State) → with_at (locks_of F) (length F.files) (Some Free) ≡ locks_of (with_new_file F) }
    ensures bytes { (F : State) (found : ℕ × File) (bytes : Text) → slice_get F.files found.0 ≡ Some found.1 → with_at (bytes_of F) found.0 (Some bytes) ≡ bytes_of (with_bytes F found bytes) }
    ensures bytes_alone { (F : State) (found : ℕ × File) (bytes : Text) → slice_get F.files found.0 ≡ Some found.1 → locks_of F ≡ locks_of (with_bytes F found bytes) }
    ensures lock { (F : State) (found : ℕ × File) (lock : Lock) → slice_get F.files found.0 ≡ Some found.1 → with_at (locks_of F) found.0 (Some lock) ≡ locks_of (with_lock F found lock) }
    ensures lock_alone { (F : State) (found : ℕ × File) (lock : Lock) → slice_get F.files found.0 ≡ Some found.1 → bytes_of F ≡ bytes_of (with_lock F found lock) }
{}

/// A handle that is opened or closed is seen at its number alone.
pub fn handles_change_at_one_number()
    ensures opened { (F : State) (h who file : ℕ) → with_at (opened_at F) h (Some (record { owner = who; file = file })) ≡ opened_at (with_handle F who h file) }
    ensures closed { (F : State) (h : ℕ) (found : ℕ × File) → with_at (opened_at F) h None ≡ opened_at (without_handle F h found) }
{}

/// A handle that gets a lock holds it in that mode, one that is closed holds nothing, and others hold
/// what they held. An exclusive holder is alone.
pub fn locks_change_for_one_handle()
    ensures got { (lock : Lock) (h : ℕ) (exclusive : Bool) → held_in (locked lock h exclusive) h ≡ Some exclusive }
    ensures got_alone { (h g : ℕ) (lock : Lock) (exclusive : Bool) → h ≢ g → is_excluded lock h exclusive ≡ false → held_in (locked lock h exclusive) g ≡ held_in lock g }
    ensures freed { (lock : Lock) (h : ℕ) → held_in (freed lock h) h ≡ None }
    ensures freed_alone { (h g : ℕ) (lock : Lock) → h ≢ g → held_in (freed lock h) g ≡ held_in lock g }
    ensures exclusive { (lock : Lock) (h g : ℕ) → held_in lock h ≡ Some true → IsSome (held_in lock g) → h ≡ g }
{}

/// A listing has a name exactly where the entry, or the file, stands, and in a tidy directory its names
/// ascend by their bytes, so each is there once.
pub fn listings_are_exact()
    ensures look { (F G : State) (who : ℕ) (krate entry : Text) (names : List Text) → Step F who (Look krate) (Names names) G → IsIn names entry ↔ IsSome (entry_at F krate entry) }
    ensures look_ascends { (F G : State) (who : ℕ) (krate : Text) (names : List Text) → IsTidy F → Step F who (Look krate) (Names names) G → IsStrictlySortedBy text_cmp names }
    ensures list { (F G : State) (who : ℕ) (krate entry file : Text) (names : List Text) → Step F who (ListDir krate entry) (Names names) G → IsIn names file ↔ IsSome (number_at F krate entry file) }
    ensures list_ascends { (F G : State) (who : ℕ) (krate entry : Text) (names : List Text) → IsTidy F → Step F who (ListDir krate entry) (Names names) G → IsStrictlySortedBy text_cmp names }
{}

/// The empty directory is sound, and steps and endings keep a directory sound: it is tidy, each holder of a
/// lock is a handle that was given, and a shared lock has a holder.
pub fn directories_stay_sound()
    ensures start { IsSound start }
    ensures step { (F G : State) (who : ℕ) (op : Op) (reply : Reply) → IsSound F → Step F who op reply G → IsSound G }
    ensures ending { (F : State) (who : ℕ) → IsSound F → IsSound (end_of F who) }
{}
