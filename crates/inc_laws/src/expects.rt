//! What a session may expect of a directory's replies in a legal history, each as the contract of a call that
//! does nothing (docs/PROTOCOL.md, "What a session may expect").
ghost use Rattle.std.specs.Prelude.{◌≡◌, ◌∷◌, [], ℕ, List, Option, None, Some, IsSome};
ghost use Rattle.std.specs.Map.{lookup};
ghost use Rattle.std.specs.BTreeMap.{is_at};
ghost use Rattle.inc_base.specs.declared.job.Job.{Job};
ghost use Rattle.inc_fs.specs.Kinds.{IsKindOf};
ghost use Rattle.inc_fs.specs.State.{State, Text, IsIn, text_cmp, number_at};
ghost use Rattle.inc_fs.specs.Step.{Step};
ghost use Rattle.inc_fs.specs.declared.op.Op.{Op};
ghost use Rattle.inc_fs.specs.declared.op.Op.TheVariants.{Draw, MakeLock, OpenLock, Look, ListDir, MakeDir, Link, Read, Create, Append, Unlink, RemoveDir, Rename};
ghost use Rattle.inc_fs.specs.declared.op.Reply.{Reply};
ghost use Rattle.inc_fs.specs.declared.op.Reply.TheVariants.{Drawn, Handle, Names, Exists, Missing, NotEmpty};
ghost use Rattle.inc_names.specs.declared.entry.Entry.{Entry};
ghost use Rattle.inc_names.specs.declared.session.SessionName.{SessionName};
ghost use Rattle.inc_names.specs.Entries.{lock_text, final_text, IsSessionName};
ghost use Rattle.inc_proto.specs.declared.event.Event.{Event};
ghost use Rattle.inc_proto.specs.declared.own.Known.{Known};
ghost use Rattle.inc_proto.specs.declared.own.OwnLock.TheVariants.{Locked};
ghost use Rattle.inc_proto.specs.Events.{Steps, own_steps};
ghost use Rattle.inc_proto.specs.Files.{Files};
ghost use Rattle.inc_proto.specs.Leads.{LeadsTo};
ghost use Rattle.inc_proto.specs.Legal.{AreAllowed};
ghost use Rattle.inc_proto.specs.Permits.{HasDir, IsHash, IsOn};
ghost use Rattle.inc_proto.specs.Views.{opening, since, own, dir};
ghost use Rattle.inc_proto.specs.Views.Dir.{Stands};
ghost use Rattle.inc_laws.specs.Invariants.{HasShown};
ghost use Rattle.inc_laws.specs.Fair.{CanBe, LoadsSet};
ghost use Rattle.inc_laws.specs.Loads.{IsLoaded, HasLoad, GaveSet};
ghost use Rattle.inc_laws.specs.Readings.{running, draws};

/// The reply to an own step is one of its row's, and the steps before it could be a session's own as well.
pub fn own_steps_are_answered_in_kind()
    ensures kind { (files : Files) (job : Job) (op : Op) (reply : Reply) (steps : Steps) → CanBe files job ((op, reply) ∷ steps) → IsKindOf op reply }
    ensures before { (files : Files) (job : Job) (step : Op × Reply) (steps : Steps) → CanBe files job (step ∷ steps) → CanBe files job steps }
{}

/// A session draws no name twice, and each in range.
pub fn drawn_names_are_new()
    ensures range { (files : Files) (job : Job) (moment random : ℕ) (steps : Steps) → CanBe files job ((Draw, Drawn moment random) ∷ steps) → IsSessionName (record { moment = moment; random = random }) }
    ensures new { (files : Files) (job : Job) (moment random : ℕ) (steps : Steps) → CanBe files job ((Draw, Drawn moment random) ∷ steps) → ¬ IsIn (draws steps) (record { moment = moment; random = random }) }
{}

/// A handle that a session gets, by opening a lock file or by making one, wasn't open, and held nothing.
pub fn given_handles_are_new()
    ensures opened { (files : Files) (job : Job) (krate entry : Text) (h : ℕ) (steps : Steps) → CanBe files job ((OpenLock krate entry, Handle h) ∷ steps) → (opening h steps ≡ None) × (since h steps ≡ None) }
    ensures made { (files : Files) (job : Job) (krate entry : Text) (h : ℕ) (steps : Steps) → CanBe files job ((MakeLock krate entry, Handle h) ∷ steps) → (opening h steps ≡ None) × (since h steps ≡ None) }
{}

/// A file that a session's own directory has, by its own steps, is there while it has its own lock: taking its
/// name away isn't answered `Missing`.
pub fn own_files_are_found()
    ensures state { (files : Files) (events : List Event) (F : State) → LeadsTo events F → AreAllowed files events → (who h : ℕ) (krate entry file : Text) (known : List (Text × Known)) (its : Known)
        → IsSome (running who events) → own (own_steps who events) ≡ Locked h → dir (own_steps who events) ≡ Stands krate entry known → lookup (is_at (text_cmp file)) known ≡ Some its
        → IsSome (number_at F krate entry file) }
    ensures own { (files : Files) (job : Job) (krate entry file : Text) (known : List (Text × Known)) (h : ℕ) (steps : Steps) → CanBe files job ((Unlink krate entry file, Missing) ∷ steps)
        → own steps ≡ Locked h → HasDir steps krate entry known → lookup (is_at (text_cmp file)) known ≡ None }
{}

/// A listing of a crate directory has one finalised entry of a name at most.
pub fn listings_have_one_final()
    ensures state { (files : Files) (events : List Event) (F G : State) → LeadsTo events F → AreAllowed files events → (who : ℕ) (krate : Text) (names : List Text) → Step F who (Look krate) (Names names) G
        → (n : SessionName) (h k : ℕ) → IsIn names (final_text n h) → IsIn names (final_text n k) → final_text n h ≡ final_text n k }
    ensures own { (files : Files) (job : Job) (krate : Text) (names : List Text) (n : SessionName) (h k : ℕ) (steps : Steps) → IsHash h → IsHash k → CanBe files job ((Look krate, Names names) ∷ steps)
        → IsIn names (final_text n h) → IsIn names (final_text n k) → h ≡ k }
{}

/// No step of a session's work on its own directory is answered as if something else were there, or nothing: with
/// its own lock it makes the directory, links, creates, appends, reads what it has, removes the directory where it has
/// no file, and publishes, and none of this is answered `Exists`, `Missing` or `NotEmpty` but a link, whose source may be
/// gone.
pub fn own_work_is_undisturbed()
    ensures directory { (files : Files) (job : Job) (krate entry : Text) (steps : Steps) → ¬ CanBe files job ((MakeDir krate entry, Exists) ∷ steps) }
    ensures link { (files : Files) (job : Job) (krate from to file : Text) (steps : Steps) → ¬ CanBe files job ((Link krate from to file, Exists) ∷ steps) }
    ensures create { (files : Files) (job : Job) (krate entry file : Text) (steps : Steps) → ¬ CanBe files job ((Create krate entry file, Exists) ∷ steps) }
    ensures create_there { (files : Files) (job : Job) (krate entry file : Text) (steps : Steps) → ¬ CanBe files job ((Create krate entry file, Missing) ∷ steps) }
    ensures append { (files : Files) (job : Job) (krate entry file piece : Text) (steps : Steps) → ¬ CanBe files job ((Append krate entry file piece, Missing) ∷ steps) }
    ensures read { (files : Files) (job : Job) (krate entry file : Text) (known : List (Text × Known)) (its : Known) (h : ℕ) (steps : Steps) → own steps ≡ Locked h → HasDir steps krate entry known
        → lookup (is_at (text_cmp file)) known ≡ Some its → ¬ CanBe files job ((Read krate entry file, Missing) ∷ steps) }
    ensures remove { (files : Files) (job : Job) (krate entry : Text) (h : ℕ) (steps : Steps) → own steps ≡ Locked h → HasDir steps krate entry [] → ¬ CanBe files job ((RemoveDir krate entry, Missing) ∷ steps) }
    ensures remove_all { (files : Files) (job : Job) (krate entry : Text) (h : ℕ) (steps : Steps) → own steps ≡ Locked h → HasDir steps krate entry [] → ¬ CanBe files job ((RemoveDir krate entry, NotEmpty) ∷ steps) }
    ensures publish { (files : Files) (job : Job) (krate from to : Text) (known : List (Text × Known)) (steps : Steps) → HasDir steps krate from known → ¬ CanBe files job ((Rename krate from to, Exists) ∷ steps) }
    ensures publish_there { (files : Files) (job : Job) (krate from to : Text) (known : List (Text × Known)) (steps : Steps) → HasDir steps krate from known → ¬ CanBe files job ((Rename krate from to, Missing) ∷ steps) }
{}

/// A finalised directory that a session holds, and has listed since without renaming it, stands: it can be listed, and
/// each file that was listed there can be linked into the session's own directory.
pub fn held_directories_are_found()
    ensures listed { (files : Files) (job : Job) (krate : Text) (n : SessionName) (hash h : ℕ) (after steps : Steps) → IsOn krate (lock_text n) (opening h steps) → since h steps ≡ Some after
        → HasShown krate (final_text n hash) after → ¬ CanBe files job ((ListDir krate (final_text n hash), Missing) ∷ steps) }
    ensures linked { (files : Files) (job : Job) (krate : Text) (n : SessionName) (hash h : ℕ) (after steps : Steps) → IsOn krate (lock_text n) (opening h steps) → since h steps ≡ Some after
        → HasShown krate (final_text n hash) after → (to file : Text) → ¬ CanBe files job ((Link krate (final_text n hash) to file, Missing) ∷ steps) }
{}

/// What a session linked as a whole set is the file set of a job of its crate, which was published under the name
/// that it linked it from: the names that it listed are the set's, its directory was given each file with its
/// bytes, and what it reads of them while it has its own lock are these bytes.
pub fn whole_loads_are_published()
    ensures given { (files : Files) (events : List Event) (F : State) → LeadsTo events F → AreAllowed files events → (who : ℕ) (krate : Text) (n : SessionName) (hash : ℕ) (names : List Text)
        → HasLoad krate n hash names (own_steps who events) → GaveSet files events who krate n hash names }
    ensures read { (files : Files) (job : Job) (n : SessionName) (hash : ℕ) (names : List Text) (steps : Steps) → CanBe files job steps → HasLoad job.krate n hash names steps → LoadsSet files job.krate n hash names steps }
{}

/// What a session has loaded is one entry, or none.
pub fn loads_are_one()
    ensures { (who : ℕ) (events : List Event) (one other : Option Entry) → IsLoaded who events one → IsLoaded who events other → one ≡ other }
{}
