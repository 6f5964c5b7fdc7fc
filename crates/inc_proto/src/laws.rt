//! Laws of histories, each as the contract of a call that does nothing.
ghost use Rattle.std.specs.Prelude.{◌≡◌, ◌≤◌, ◌++◌, ◌∷◌, [], ℕ, List, None};
ghost use Rattle.inc_base.specs.declared.job.Job.{Job};
ghost use Rattle.inc_fs.specs.State.{State, IsIn};
ghost use Rattle.inc_fs.specs.Sound.{IsSound};
ghost use Rattle.inc_proto.specs.declared.event.Event.{Event};
ghost use Rattle.inc_proto.specs.declared.event.Event.TheVariants.{Begin, Left};
ghost use Rattle.inc_proto.specs.Events.{Steps, own_steps, did, is_running, job_of, by, begins, AreOfRunning};
ghost use Rattle.inc_proto.specs.Leads.{IsPossible, LeadsTo};
ghost use Rattle.inc_proto.specs.Growth.{GrowsBy};

/// Where a history grew by a session's beginning, its steps and its leaving, with others' events before
/// each, these steps are what the history has as the session's own.
pub fn growing_tells_steps()
    ensures { (own : List ℕ) (who : ℕ) (job : Job) (steps : Steps) (old new : List Event) → IsIn own who
        → GrowsBy IsPossible own old new (Left who None 0 ∷ (did who steps ++ Begin who job ∷ [])) → own_steps who new ≡ steps }
{}

/// A history that can have happened grows to one that can have happened.
pub fn growing_keeps_possible()
    ensures { (own : List ℕ) (events old new : List Event) → GrowsBy IsPossible own old new events → IsPossible old → IsPossible new }
{}

/// What a history says of a session is read from the session's own events alone.
pub fn own_events_tell_all()
    ensures steps { (who : ℕ) (events : List Event) → own_steps who (by who events) ≡ own_steps who events }
    ensures running { (who : ℕ) (events : List Event) → is_running who (by who events) ≡ is_running who events }
    ensures job { (who : ℕ) (events : List Event) → job_of who (by who events) ≡ job_of who events }
{}

/// A history that can have happened began with one that can have happened, and each state that a history
/// leads to is sound.
pub fn histories_lead_on()
    ensures before { (later earlier : List Event) → IsPossible (later ++ earlier) → IsPossible earlier }
    ensures sound { (events : List Event) (G : State) → LeadsTo events G → IsSound G }
{}

/// A number that hasn't begun has no events in a history that leads to a state and in which each step and
/// each leaving is of a session that runs then.
pub fn sessions_begin_first()
    ensures { (who : ℕ) (events : List Event) (F : State) → LeadsTo events F → AreOfRunning events → begins events ≤ who → by who events ≡ [] }
{}
