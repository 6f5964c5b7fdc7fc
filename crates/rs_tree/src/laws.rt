//! Trees are seen from their plain mirrors, and answers are ordered.

ghost use Rattle.std.specs.Prelude.{◌≡◌, ◌≤◌, ◌++◌, List, length, drop};
ghost use Rattle.std.specs.Cmp.{IsTotalOrder};
ghost use Rattle.std.specs.FinMap.{IsAntisymmetric};
ghost use Rattle.std.specs.List.{zip};
ghost use Rattle.rs_tree.specs.Leaves.{answered, definition_filled, definition_leaves, filled, leaves, sta_filled, sta_leaves};
ghost use Rattle.rs_tree.specs.Mirrors.{MirrorsExpressions, MirrorsStatements};
ghost use Rattle.rs_tree.specs.Order.{at_cmp, diag_cmp, place_cmp};
ghost use Rattle.rs_tree.specs.Plain.{Definition, Exp, Sta, definition, exp, plain_crate, plain_item, plain_placed, sta};
ghost use Rattle.rs_tree.specs.Weight.{ExpressionsWeighMore, StatementsWeighMore};
ghost use Rattle.rs_tree.specs.declared.answers.Diag as diag;
ghost use Rattle.rs_tree.specs.declared.place.At as at;
ghost use Rattle.rs_tree.specs.declared.place.Place as place;
ghost use Rattle.rs_tree.specs.declared.tree.Body.{Body};
ghost use Rattle.rs_tree.specs.declared.tree.Crate.{Crate};
ghost use Rattle.rs_tree.specs.declared.tree.Expr.{Expr};
ghost use Rattle.rs_tree.specs.declared.tree.Item.{Item};
ghost use Rattle.rs_tree.specs.declared.tree.Placed.{Placed};
ghost use Rattle.rs_tree.specs.declared.tree.Stmt.{Stmt};

use crate::answers::Diag;
use crate::place::{At, Place};

/// The plain mirrors of two trees differ where the trees do: a mirror keeps every part, place and path.
pub fn mirrors_differ()
    ensures expr { (a b : Expr) → exp a ≡ exp b → a ≡ b }
    ensures stmt { (a b : Stmt) → sta a ≡ sta b → a ≡ b }
    ensures body { (a b : Body) → definition a ≡ definition b → a ≡ b }
    ensures item { (a b : Item) → plain_item a ≡ plain_item b → a ≡ b }
    ensures placed { (a b : Placed) → plain_placed a ≡ plain_placed b → a ≡ b }
    ensures krate { (a b : Crate) → plain_crate a ≡ plain_crate b → a ≡ b }
{}

/// The plain mirror of an expression or a statement has the mirrors of its parts.
pub fn mirrors_have_parts()
    ensures expressions { MirrorsExpressions }
    ensures statements { MirrorsStatements }
{}

/// An expression weighs more than its parts, and a statement more than its blocks: what a walk goes down.
pub fn parts_weigh_less()
    ensures expressions { ExpressionsWeighMore }
    ensures statements { StatementsWeighMore }
{}

/// What stands at the paths of an answered tree is what stood at the tree's, in order, each beside its
/// answer; so there are as many, and what follows a part goes on after as many answers as the part has
/// paths.
pub fn answers_stand_at_leaves<A, B>()
    ensures expression { (missing : B) (bs : List B) (e : Exp A) → leaves (filled missing bs e) ≡ answered missing bs (leaves e) }
    ensures statement { (missing : B) (bs : List B) (s : Sta A) → sta_leaves (sta_filled missing bs s) ≡ answered missing bs (sta_leaves s) }
    ensures definition { (missing : B) (bs : List B) (d : Definition A) → definition_leaves (definition_filled missing bs d) ≡ answered missing bs (definition_leaves d) }
    ensures count { (missing : B) (bs : List B) (leaves : List A) → length (answered missing bs leaves) ≡ length leaves }
    ensures enough { (missing : B) (bs : List B) (leaves : List A) → length leaves ≤ length bs → answered missing bs leaves ≡ zip leaves bs }
    ensures left { (first later : List A) (bs : List B) → drop (length (first ++ later)) bs ≡ drop (length later) (drop (length first) bs) }
{}

/// Places in a text, places of items and diagnostics are ordered as `specs/Order.antt` says: by line and
/// column; by module and name; by place, number and text. These orders are total, and what they call equal is
/// the same value.
pub fn orders_are_total()
    ensures at { (a b : at.At) → ⟦<At as Ord>⟧.cmp a b ≡ at_cmp a b }
    ensures at_total { IsTotalOrder at_cmp }
    ensures at_same { IsAntisymmetric at_cmp }
    ensures place { (a b : place.Place) → ⟦<Place as Ord>⟧.cmp a b ≡ place_cmp a b }
    ensures place_total { IsTotalOrder place_cmp }
    ensures place_same { IsAntisymmetric place_cmp }
    ensures diag { (a b : diag.Diag) → ⟦<Diag as Ord>⟧.cmp a b ≡ diag_cmp a b }
    ensures diag_total { IsTotalOrder diag_cmp }
    ensures diag_same { IsAntisymmetric diag_cmp }
{}
