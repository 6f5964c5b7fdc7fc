//! That beginnings and leavings keep the laws, and so every event of a legal history: each as the contract of
//! a call that does nothing (docs/PROTOCOL.md, "What every legal history keeps").
ghost use Rattle.std.specs.Prelude.{ℕ, List, [], ◌∷◌, Option};
ghost use Rattle.inc_base.specs.declared.job.Job.{Job};
ghost use Rattle.inc_fs.specs.Sound.{IsSound};
ghost use Rattle.inc_fs.specs.State.{State, start};
ghost use Rattle.inc_fs.specs.declared.op.Op.{Op};
ghost use Rattle.inc_proto.specs.declared.event.Event.{Event};
ghost use Rattle.inc_proto.specs.declared.event.Event.TheVariants.{Begin, Left};
ghost use Rattle.inc_proto.specs.Events.{begins};
ghost use Rattle.inc_proto.specs.Files.{Files};
ghost use Rattle.inc_proto.specs.Leads.{LeadsTo, Happens};
ghost use Rattle.inc_proto.specs.Legal.{MayLeave, IsAllowed, AreAllowed};
ghost use Rattle.inc_laws.specs.Laws.{Laws};

/// The empty history meets the laws in the empty directory.
pub fn the_start_keeps_laws()
    ensures { (files : Files) → Laws files [] start }
{}

/// A beginning keeps the laws.
pub fn beginnings_keep_laws()
    ensures { (files : Files) (events : List Event) (F : State) (job : Job) → Laws files events F → Laws files (Begin (begins events) job ∷ events) F }
{}

/// A leaving keeps the laws, between two steps or within an append, after any number of its bytes.
pub fn leavings_keep_laws()
    ensures { (files : Files) (events : List Event) (F G : State) (who cut : ℕ) (during : Option Op) → IsSound F → Laws files events F
        → MayLeave files events who during → Happens events F (Left who during cut) G → Laws files (Left who during cut ∷ events) G }
{}

/// So every event that is allowed keeps the laws, and they hold of each state that a legal history leads to.
pub fn legal_histories_keep_laws()
    ensures event { (files : Files) (events : List Event) (F G : State) (event : Event) → IsSound F → Laws files events F → IsAllowed files events event → Happens events F event G → Laws files (event ∷ events) G }
    ensures state { (files : Files) (events : List Event) (F : State) → LeadsTo events F → AreAllowed files events → Laws files events F }
{}
