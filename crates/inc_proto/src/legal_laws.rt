//! Laws of legal histories and of what sessions see, each as the contract of a call that does nothing.
ghost use Rattle.std.specs.Prelude.{◌≡◌, ◌++◌, ◌∷◌, ℕ, List, Option};
ghost use Rattle.std.specs.List.{AllByRecursion};
ghost use Rattle.inc_fs.specs.declared.op.Op.{Op};
ghost use Rattle.inc_fs.specs.declared.op.Reply.{Reply};
ghost use Rattle.inc_proto.specs.declared.event.Event.{Event};
ghost use Rattle.inc_proto.specs.Events.{Steps, by, AreOfRunning};
ghost use Rattle.inc_proto.specs.Files.{Files};
ghost use Rattle.inc_proto.specs.Growth.{IsOfOther};
ghost use Rattle.inc_proto.specs.Leads.{IsPossible};
ghost use Rattle.inc_proto.specs.Legal.{IsLegal, AreAllowed, MayDo, view_of};
ghost use Rattle.inc_proto.specs.Views.{name, name_after, opening, opening_after, since, since_after, alone, alone_after, own, own_after, dir, dir_after};

/// What a legal history began with is legal, and a legal history can have happened. Each of its steps and
/// leavings is of a session that runs then.
pub fn legal_histories_lead_on()
    ensures before { (files : Files) (later earlier : List Event) → IsLegal files (later ++ earlier) → IsLegal files earlier }
    ensures possible { (files : Files) (events : List Event) → IsLegal files events → IsPossible events }
    ensures running { (files : Files) (events : List Event) → AreAllowed files events → AreOfRunning events }
{}

/// Others' events leave alone what a session sees, and what a session may do it may still do after them.
/// What it sees is read from its own events alone.
pub fn others_change_no_view()
    ensures one { (who : ℕ) (event : Event) (events : List Event) → IsOfOther who event → view_of who (event ∷ events) ≡ view_of who events }
    ensures many { (who : ℕ) (others old : List Event) → AllByRecursion (IsOfOther who) others → view_of who (others ++ old) ≡ view_of who old }
    ensures may { (files : Files) (who : ℕ) (op : Op) (others old : List Event) → AllByRecursion (IsOfOther who) others → MayDo files old who op → MayDo files (others ++ old) who op }
    ensures own { (who : ℕ) (events : List Event) → view_of who (by who events) ≡ view_of who events }
{}

/// What a session has drawn, holds and knows is brought forward by its own steps alone.
pub fn own_steps_bring_forward()
    ensures name { (step : Op × Reply) (steps : Steps) → name (step ∷ steps) ≡ name_after step (name steps) }
    ensures opening { (h : ℕ) (step : Op × Reply) (steps : Steps) → opening h (step ∷ steps) ≡ opening_after h step (opening h steps) }
    ensures since { (h : ℕ) (step : Op × Reply) (steps : Steps) → since h (step ∷ steps) ≡ since_after h step (since h steps) }
    ensures alone { (h : ℕ) (step : Op × Reply) (steps : Steps) → alone h (step ∷ steps) ≡ alone_after h step (alone h steps) }
    ensures own { (step : Op × Reply) (steps : Steps) → own (step ∷ steps) ≡ own_after step (own steps) }
    ensures dir { (step : Op × Reply) (steps : Steps) → dir (step ∷ steps) ≡ dir_after step (dir steps) }
{}
