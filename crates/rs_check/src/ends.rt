ghost use Rattle.std.specs.Prelude.{◌≡◌};
ghost use Rattle.rs_tree.specs.Plain.{sta, statements, choices};
ghost use Rattle.rs_check.specs.Bodies.{ends, some_ends, all_end};

use rs_tree::{Expr, Stmt};
use sqlite_items::Items;

/// Whether a statement list ends: one of its statements is a `return`, or an `if` with an `else` whose blocks all
/// end.
#[cycle(ends)]
#[tactic(auto, using(crate::proofs::Endings::turns))]
pub(crate) fn some_ends(body: &[Stmt]) -> bool
    ensures { result ≡ some_ends (statements body.now) }
{
    for s in body {
        if ends(s) {
            return true;
        }
    }
    false
}

#[cycle(ends)]
#[tactic(auto, using(crate::proofs::Endings::turns))]
fn ends(s: &Stmt) -> bool
    ensures { result ≡ ends (sta s.now) }
{
    match s {
        Stmt::Return { .. } => true,
        Stmt::If { arms, other } => all_end(arms.as_slice(), other),
        Stmt::Let { .. } => false,
        Stmt::Assign { .. } => false,
        Stmt::Eval(_) => false,
        Stmt::While { .. } => false,
        Stmt::Print(_) => false,
    }
}

#[cycle(ends)]
#[tactic(auto, using(crate::proofs::Endings::turns))]
fn all_end(arms: &[(Expr, Items<Stmt>)], other: &Option<Items<Stmt>>) -> bool
    ensures { result ≡ all_end (choices arms.now other.now) }
{
    for arm in arms {
        if !some_ends(arm.1.as_slice()) {
            return false;
        }
    }
    match other {
        None => false,
        Some(body) => some_ends(body.as_slice()),
    }
}
