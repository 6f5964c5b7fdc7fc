//! Laws of sessions, each as the contract of a call that does nothing.
ghost use Rattle.std.specs.Prelude.{◌≡◌, Some};
ghost use Rattle.inc_proto.specs.Events.{Steps};
ghost use Rattle.inc_session.specs.Ends.{IsEndOf};
ghost use Rattle.inc_session.specs.Made.{AsksPermitted, HasMade, outcome_of};
ghost use Rattle.inc_session.specs.declared.outcome.Outcome.{Outcome};
ghost use Rattle.inc_session.specs.declared.session.Session.{Session};

use inc_laws::{drawn_names_are_new, own_work_is_undisturbed};

/// Wherever a session's own steps stand in a legal history, they permit the step that it asks for.
pub fn steps_are_permitted()
    ensures { (s : Session) → AsksPermitted s }
{
    drawn_names_are_new();
    own_work_is_undisturbed();
}

/// Whatever a directory answers, a session that has ended has made its whole order, and its steps are the cause of
/// its outcome.
pub fn outcomes_have_causes()
    ensures { (s : Session) (steps : Steps) (outcome : Outcome) → HasMade s steps → outcome_of s ≡ Some outcome → IsEndOf s.task outcome steps }
{
    drawn_names_are_new();
    own_work_is_undisturbed();
}
