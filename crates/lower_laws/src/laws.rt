//! What folding keeps.

ghost use Rattle.std.specs.Prelude.{◌≡◌, ◌≤◌, ℕ, ℤ, true, false, List, [], ◌∷◌, Option, Some, Ok};
ghost use Rattle.rs_tree.specs.Leaves.{stas_filled};
ghost use Rattle.rs_tree.specs.Plain.{Exp, Stas};
ghost use Rattle.rs_tree.specs.declared.answers.Found.{Found};
ghost use Rattle.rs_tree.specs.declared.answers.Found.TheVariants.{Absent};
ghost use Rattle.rs_tree.specs.declared.tree.Path as path;
ghost use Rattle.rs_tree.specs.declared.ir.Instr.TheVariants.{Push};
ghost use Rattle.rs_value.specs.Value.{value};
ghost use Rattle.rs_lower.specs.Code.{code};
ghost use Rattle.rs_lower.specs.Counts.{labels, lets_all, places_all};
ghost use Rattle.rs_lower.specs.Locals.{Env};
ghost use Rattle.rs_lower.specs.Meanings.{Leaf, Meanings};
ghost use Rattle.rs_lower.specs.Reduced.{by_consts, folded, is_fixed, reduced, reduced_in, stas_reduced, valued};
ghost use Rattle.lower_laws.specs.Seen.{Agrees, World, worth_of};

/// A reduced expression comes to what the expression comes to, whatever the locals are worth and whatever functions give for what their
/// arguments come to, as long as constants have their values: the same value, or the same first fault.
pub fn folding_keeps_values()
    ensures { (w : Meanings) (given : World) → Agrees w given → (e : Exp Leaf) → worth_of given (reduced w e) ≡ worth_of given e }
{}

/// At a level that folds, exactly what has neither locals nor calls and comes to a value is folded, to that value, which one
/// instruction pushes.
pub fn values_are_folded()
    ensures only { (w : Meanings) (e : Exp Leaf) (v : ℤ) → folded w e ≡ Some v → (is_fixed e ≡ true) × (value (valued (by_consts w) e) ≡ Ok v) }
    ensures each { (w : Meanings) (e : Exp Leaf) (v : ℤ) → w.folds ≡ true → is_fixed e ≡ true → value (valued (by_consts w) e) ≡ Ok v → folded w e ≡ Some v }
    ensures pushed { (w : Meanings) (env : Env) (n : ℕ) (e : Exp Leaf) (v : ℤ) → folded w e ≡ Some v → code w env n (reduced w e) ≡ Push v ∷ [] }
{}

/// A reduced tree needs at most the labels of the tree, and as many slots.
pub fn folding_needs_no_more()
    ensures labels { (w : Meanings) (e : Exp Leaf) → labels (reduced w e) ≤ labels e }
    ensures places { (w : Meanings) (found : List Found) (stmts : Stas path.Path) → places_all (stas_reduced w (stas_filled Absent found stmts)) ≤ places_all stmts }
    ensures slots { (w : Meanings) (found : List Found) (stmts : Stas path.Path) → lets_all (stas_reduced w (stas_filled Absent found stmts)) ≡ lets_all stmts }
{}

/// At a level that doesn't fold a function is lowered as it stands.
pub fn level_0_folds_nothing()
    ensures statements { (w : Meanings) → w.folds ≡ false → (stmts : Stas Leaf) → stas_reduced w stmts ≡ stmts }
    ensures end { (w : Meanings) → w.folds ≡ false → (tail : Option (Exp Leaf)) → reduced_in w tail ≡ tail }
{}
