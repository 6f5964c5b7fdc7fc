//! The forms of functions, and the objects of units.

ghost use Rattle.std.specs.Prelude.{◌≡◌, ℕ, List};
ghost use Rattle.std.specs.List.{AllByRecursion};
ghost use Rattle.rs_tree.specs.declared.answers.Const.{Const};
ghost use Rattle.rs_tree.specs.declared.tree.Crate.{Crate};
ghost use Rattle.rs_const.specs.Constants.{AreValues};
ghost use Rattle.rs_units.specs.Units.{units_of};
ghost use Rattle.rs_object.specs.Fits.{FitsObject};
ghost use Rattle.rs_queries.specs.Built.{tree_index};
ghost use Rattle.rs_queries.specs.Known.{constants_of};
ghost use Rattle.plan_laws.specs.Roots.{FitsForm, unit_object};
ghost use Rattle.range_laws.specs.Bounded.{BoundedCrate};

use crate::diagnostics::constants_fit;
use rs_emit::code_is_right;

/// The forms of a tree's functions are in the ranges of their types, at each level: the numbers that are pushed are ones of 64 bits, the
/// places of calls are short, and there are few instructions, slots and labels.
pub fn forms_fit()
    ensures { (krate : Crate) (level : ℕ) (values : List Const) → BoundedCrate krate → AreValues (constants_of krate) values → AllByRecursion (FitsForm krate level values) krate.items }
{
    constants_fit();
}

/// The objects of a tree's units are in the ranges of their types, at each level.
pub fn objects_fit()
    ensures { (krate : Crate) (level : ℕ) (values : List Const) → BoundedCrate krate → AreValues (constants_of krate) values → AllByRecursion (λ u. FitsObject (unit_object krate level values u)) (units_of (tree_index krate)) }
{
    constants_fit();
    code_is_right();
}
