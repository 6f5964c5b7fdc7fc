ghost use Rattle.std.specs.Prelude.{ℕ, List, [], Bool};
ghost use Rattle.inc_query.specs.Plans.{Plan};
ghost use Rattle.inc_query.specs.declared.query.Query.{Query};
ghost use Rattle.inc_engine.specs.Builds.{Setup, setup, IsBuildOf, Before};
ghost use Rattle.inc_engine.specs.BuildLaws.{NoCollision};

/// When the promises of an engine hold: over nothing always, and over the graph and the cache that an engine made of
/// another input under the same setting, where no two values of the two inputs have one print.
pub fn builds_follow()
    ensures nothing { (plan : Query → Plan) (kept : ℕ → Bool) (ticking height : ℕ) (input s : List ℕ) → Before (setup plan kept ticking height input [] []) s }
    ensures another { (b : Setup) (s : List ℕ) → IsBuildOf b.plan b.kept s b.nodes b.cache → NoCollision b.plan s b.input → Before b s }
{}
