ghost use Rattle.std.specs.Prelude.{ℕ, List, []};
ghost use Rattle.inc_query.specs.Plans.{ReadsFit};
ghost use Rattle.inc_query.specs.declared.query.Query.{Query};
ghost use Rattle.rs_plans.specs.Plans.{plan_of};

/// The reads of each plan are of lower kinds, none comes twice, and they have the form of queries where the query has it: so the law of
/// reads holds of them (docs/FORMATS.md, "Queries").
pub fn plans_fit()
    ensures { (setting : List ℕ) (q : Query) → ReadsFit q [] (plan_of setting q) }
{}
