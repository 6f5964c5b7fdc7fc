//! Whether its lock file stands, by a listing and the own steps after it.
ghost use Rattle.std.specs.Prelude.{◌≡◌, ◌↔◌, ◌∷◌, IsTrue, reverse};
ghost use Rattle.inc_fs.specs.declared.op.Op.TheVariants.{UnlinkLock};
ghost use Rattle.inc_proto.specs.Events.{Steps};
ghost use Rattle.inc_proto.specs.Views.{IsDone, IsStanding};

use crate::sought::is_look;
use inc_base::Label;
use inc_fs::{Op, Reply};

fn is_unlinking(step: &(Op, Reply), krate: &Label, entry: &Label) -> bool
    ensures { IsTrue result ↔ IsDone (UnlinkLock krate.now entry.now) step.now }
{
    match (&step.0, &step.1) {
        (Op::UnlinkLock { krate: k, entry: e }, Reply::Done) => k == krate && e == entry,
        _ => false,
    }
}

fn stands_after(step: &(Op, Reply), krate: &Label, entry: &Label, before: bool) -> bool
    ensures { (steps : Steps) → (IsTrue before ↔ IsStanding krate.now entry.now steps) → (IsTrue result ↔ IsStanding krate.now entry.now (step.now ∷ steps)) }
{
    is_look(step, krate, entry) || before && !is_unlinking(step, krate, entry)
}

/// Whether a `Look` lists this lock file, whose name it hasn't taken away since.
pub(crate) fn is_standing(steps: &[(Op, Reply)], krate: &Label, entry: &Label) -> bool
    ensures { IsTrue result ↔ IsStanding krate.now entry.now (reverse steps.now) }
{
    let mut stands = false;
    for step in steps {
        stands = stands_after(step, krate, entry, stands);
    }
    stands
}
