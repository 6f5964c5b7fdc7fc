//! Laws of plans, each as the contract of a call that does nothing.
ghost use Rattle.std.specs.Prelude.{◌≡◌, ℕ, ◌⊎◌, [], Some};
ghost use Rattle.inc_fs.specs.declared.op.Op.{Op};
ghost use Rattle.inc_fs.specs.declared.op.Reply.{Reply};
ghost use Rattle.inc_proto.specs.Events.{Steps};
ghost use Rattle.inc_plan.specs.Plan.{Plan, then, Follows};
ghost use Rattle.inc_plan.specs.Plan.Plan.{Ask};
ghost use Rattle.inc_plan.specs.PlanLaws.{Within, Past, First};

/// The steps of two plans, one after the other, are of the first alone, or they are all of the first and
/// then of the second. The first step of a plan is the one that it asks for, and by its reply it goes on.
pub fn plans_are_followed()
    ensures parts { (first : Plan ℕ) (next : ℕ → Plan ℕ) (steps : Steps) → Follows (then first next) steps → Within first next steps ⊎ Past first next steps }
    ensures first { (op : Op) (by : Reply → Plan ℕ) (steps : Steps) → Follows (Ask op by) steps → (steps ≡ []) ⊎ First op by steps }
{}
