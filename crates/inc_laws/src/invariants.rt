//! That the invariants hold of every state that a legal history leads to, each as a clause of a call that does
//! nothing (docs/PROTOCOL.md, "What every legal history keeps").
ghost use Rattle.std.specs.Prelude.{ℕ, List, ◌∷◌};
ghost use Rattle.inc_fs.specs.State.{State};
ghost use Rattle.inc_fs.specs.Step.{Step};
ghost use Rattle.inc_fs.specs.declared.op.Op.{Op};
ghost use Rattle.inc_fs.specs.declared.op.Reply.{Reply};
ghost use Rattle.inc_proto.specs.declared.event.Event.{Event};
ghost use Rattle.inc_proto.specs.declared.event.Event.TheVariants.{Did};
ghost use Rattle.inc_proto.specs.Files.{Files};
ghost use Rattle.inc_proto.specs.Leads.{LeadsTo, Happens};
ghost use Rattle.inc_proto.specs.Legal.{MayDo, IsAllowed, AreAllowed};
ghost use Rattle.inc_laws.specs.Invariants.{NamesOnce, LocksAgree, OwnerKnows, HeldExclusively, UnpublishedPrivate, PublishedFrozen, FinalisedComplete, HeldStands, ChangesHeld, LinksPublished, NewestStands};

/// What holds of every state that a legal history leads to.
pub fn the_invariants_hold()
    ensures names_once { (files : Files) (events : List Event) (F : State) → LeadsTo events F → AreAllowed files events → NamesOnce events F }
    ensures locks_agree { (files : Files) (events : List Event) (F : State) → LeadsTo events F → AreAllowed files events → LocksAgree events F }
    ensures owner_knows { (files : Files) (events : List Event) (F : State) → LeadsTo events F → AreAllowed files events → OwnerKnows files events F }
    ensures held_exclusively { (files : Files) (events : List Event) (F : State) → LeadsTo events F → AreAllowed files events → HeldExclusively events F }
    ensures unpublished_private { (files : Files) (events : List Event) (F : State) → LeadsTo events F → AreAllowed files events → UnpublishedPrivate events F }
    ensures finalised_complete { (files : Files) (events : List Event) (F : State) → LeadsTo events F → AreAllowed files events → FinalisedComplete files events F }
    ensures held_stands { (files : Files) (events : List Event) (F : State) → LeadsTo events F → AreAllowed files events → HeldStands events F }
    ensures links_published { (files : Files) (events : List Event) (F : State) → LeadsTo events F → AreAllowed files events → LinksPublished files events F }
    ensures newest_stands { (files : Files) (events : List Event) (F : State) → LeadsTo events F → AreAllowed files events → NewestStands events F }
{}

/// No event changes a file whose creator has published, and a step changes no directory but the session's own and
/// those whose names the session holds exclusively.
pub fn events_leave_alone()
    ensures published_frozen { (files : Files) (events : List Event) (F G : State) (event : Event) → LeadsTo events F → AreAllowed files events → IsAllowed files events event → Happens events F event G → PublishedFrozen events F G }
    ensures held_exclusively { (files : Files) (events : List Event) (F G : State) (who : ℕ) (op : Op) (reply : Reply) → MayDo files events who op → Step F who op reply G → ChangesHeld events (Did who op reply ∷ events) who F G }
{}
