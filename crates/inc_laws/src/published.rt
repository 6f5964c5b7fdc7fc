//! Laws of what was published in a legal history, each as a clause of a call that does nothing
//! (docs/PROTOCOL.md, "What every legal history keeps").
ghost use Rattle.std.specs.Prelude.{◌≡◌, ℕ, List, Some};
ghost use Rattle.inc_fs.specs.Lists.{AreDistinct};
ghost use Rattle.inc_fs.specs.Readings.{bytes_of};
ghost use Rattle.inc_fs.specs.State.{State, Text, IsIn, folder_at};
ghost use Rattle.inc_proto.specs.declared.event.Event.{Event};
ghost use Rattle.inc_proto.specs.Files.{Files, IsSet};
ghost use Rattle.inc_proto.specs.Finals.{Publication, entry_of, published, newest};
ghost use Rattle.inc_proto.specs.Leads.{LeadsTo};
ghost use Rattle.inc_proto.specs.Legal.{AreAllowed};
ghost use Rattle.inc_laws.specs.Drawn.{drawn_in};
ghost use Rattle.inc_laws.specs.Parts.{HoldsSet};
ghost use Rattle.inc_laws.specs.Readings.{jobs_of, sites_of};
ghost use Rattle.inc_laws.specs.Readings.Site.{Out};

/// What was published is some session's, with its job, and it was published under its entry; what a session
/// published is in the list.
pub fn published_entries_are_sessions()
    ensures session { (files : Files) (events : List Event) (F : State) → LeadsTo events F → AreAllowed files events → (made : Publication) → IsIn (published events) made
        → (who : ℕ) × (sites_of events who ≡ Out made.job.krate (entry_of made)) × (jobs_of events who ≡ Some made.job) }
    ensures listed { (files : Files) (events : List Event) (F : State) → LeadsTo events F → AreAllowed files events → (who : ℕ) (k e : Text) → sites_of events who ≡ Out k e
        → (made : Publication) × IsIn (published events) made × (made.job.krate ≡ k) × (entry_of made ≡ e) }
{}

/// The newest entry that a crate ever published stands, and has exactly the files of its job.
pub fn newest_entries_stand()
    ensures { (files : Files) (events : List Event) (F : State) → LeadsTo events F → AreAllowed files events → (krate : Text) (made : Publication) → newest events krate ≡ Some made
        → (set : List (Text × Text)) × (folder : List (Text × ℕ)) × IsSet files made.job set × (folder_at F krate (entry_of made) ≡ Some folder) × HoldsSet (bytes_of F) folder set }
{}

/// The drawn pairs of a state are those that were drawn in its history, and they all differ.
pub fn drawn_pairs_differ()
    ensures drawn { (events : List Event) (F : State) → LeadsTo events F → F.drawn ≡ drawn_in events }
    ensures differ { (events : List Event) (F : State) → LeadsTo events F → AreDistinct (drawn_in events) }
{}
