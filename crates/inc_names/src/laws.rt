ghost use Rattle.std.specs.Prelude.{◌≡◌, ◌≢◌, ℕ};
ghost use Rattle.inc_base.specs.Texts.{IsLabel};
ghost use Rattle.inc_names.specs.declared.entry.Entry.{Entry};
ghost use Rattle.inc_names.specs.declared.session.SessionName.{SessionName};
ghost use Rattle.inc_names.specs.Entries.{entry_text, lock_text, working_text, final_text, IsEntry};

/// Each entry's text is a label, and different entries have different texts. Finalised directories of one text
/// are of one session also where their hashes are out of range.
pub fn entries_differ()
    ensures label { (e : Entry) → IsEntry e → IsLabel (entry_text e) }
    ensures same { (d e : Entry) → IsEntry d → IsEntry e → entry_text d ≡ entry_text e → d ≡ e }
    ensures lock_working { (m n : SessionName) → lock_text m ≢ working_text n }
    ensures lock_final { (m n : SessionName) (hash : ℕ) → lock_text m ≢ final_text n hash }
    ensures working_final { (m n : SessionName) (hash : ℕ) → working_text m ≢ final_text n hash }
    ensures same_final { (m n : SessionName) (h k : ℕ) → final_text m h ≡ final_text n k → m ≡ n }
{}
