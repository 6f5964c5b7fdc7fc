//! What is said of a text.

ghost use Rattle.std.specs.Prelude.{◌≡◌, List};
ghost use Rattle.std.specs.List.{AllByRecursion};
ghost use Rattle.rs_tree.specs.declared.answers.Const.{Const};
ghost use Rattle.rs_tree.specs.declared.tree.Crate.{Crate};
ghost use Rattle.rs_answers.specs.Fits.{FitsConst, FitsDiags};
ghost use Rattle.rs_const.specs.Constants.{AreValues};
ghost use Rattle.rs_queries.specs.Known.{constants_of};
ghost use Rattle.plan_laws.specs.Roots.{wrongs_of};
ghost use Rattle.range_laws.specs.Bounded.{BoundedCrate};

/// The values of a tree's constants are in the ranges of their types.
pub fn constants_fit()
    ensures { (krate : Crate) (values : List Const) → BoundedCrate krate → AreValues (constants_of krate) values → AllByRecursion FitsConst values }
{}

/// What is wrong with the items of a tree is in the ranges of its types, whatever its constants are taken to be.
pub fn diagnostics_fit()
    ensures { (krate : Crate) (values : List Const) → BoundedCrate krate → AllByRecursion (λ p. FitsDiags (wrongs_of krate values p)) krate.items }
{}
