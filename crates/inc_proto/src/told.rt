//! Questions about the steps, and about those since a name is held: by the index, where it is kept and tells the
//! answer, and else by looking through the steps.
ghost use Rattle.std.specs.Prelude.{◌↔◌, ℕ, IsTrue, IfOk, IfSome, reverse};
ghost use Rattle.inc_proto.specs.Events.{Steps};
ghost use Rattle.inc_proto.specs.Indexes.{Indexes};
ghost use Rattle.inc_proto.specs.Sought.{Holds, IsSought, Answers};
ghost use Rattle.inc_proto.specs.Views.{HasAny};

use crate::holds::{Question, Way, holds_and};
use crate::index::Index;
use crate::sought::{Sought, has};
use inc_base::{Label, Memory};
use inc_fs::{Op, Reply};
use inc_names::SessionName;

/// Whether a handle holds n in this way, and the steps since then answer so, where the index is kept.
fn holds_by_index(
    steps: &[(Op, Reply)],
    index: &Index,
    krate: &Label,
    n: SessionName,
    way: Way,
    question: Question,
) -> Result<bool, Memory>
    requires { Indexes (reverse steps.now) index.now }
    ensures { IfOk result (λ yes. IsTrue yes ↔ ((h : ℕ) × (after : Steps) × Holds way krate.now n (reverse steps.now) h after × Answers question.entry after)) }
{
    match index.holds_so(krate, n, way, question)? {
        Some(yes) => Ok(yes),
        None => holds_and(steps, krate, n, way, question),
    }
}

/// Whether a handle holds n in this way, and the steps since then answer so.
pub(crate) fn holds_so(
    steps: &[(Op, Reply)],
    index: Option<&Index>,
    krate: &Label,
    n: SessionName,
    way: Way,
    question: Question,
) -> Result<bool, Memory>
    requires { IfSome index (λ index. Indexes (reverse steps.now) index.now) }
    ensures { IfOk result (λ yes. IsTrue yes ↔ ((h : ℕ) × (after : Steps) × Holds way krate.now n (reverse steps.now) h after × Answers question.entry after)) }
{
    match index {
        Some(index) => holds_by_index(steps, index, krate, n, way, question),
        None => holds_and(steps, krate, n, way, question),
    }
}

/// Whether one of the steps is what is looked for, where the index is kept.
fn has_by_index(steps: &[(Op, Reply)], index: &Index, sought: Sought) -> Result<bool, Memory>
    requires { Indexes (reverse steps.now) index.now }
    ensures { IfOk result (λ yes. IsTrue yes ↔ HasAny (IsSought sought.entry) (reverse steps.now)) }
{
    match index.has(sought)? {
        Some(yes) => Ok(yes),
        None => Ok(has(steps, sought)),
    }
}

/// Whether one of the steps is what is looked for.
pub(crate) fn has_so(
    steps: &[(Op, Reply)],
    index: Option<&Index>,
    sought: Sought,
) -> Result<bool, Memory>
    requires { IfSome index (λ index. Indexes (reverse steps.now) index.now) }
    ensures { IfOk result (λ yes. IsTrue yes ↔ HasAny (IsSought sought.entry) (reverse steps.now)) }
{
    match index {
        Some(index) => has_by_index(steps, index, sought),
        None => Ok(has(steps, sought)),
    }
}
