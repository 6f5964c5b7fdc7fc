ghost use Rattle.std.specs.Prelude.{◌≡◌, ℕ, ◌≤◌, Bool, List, [], filter};
ghost use Rattle.std.specs.List.{All, count_by};
ghost use Rattle.inc_query.specs.Plans.{Plan, ReadsFit, reads_of};
ghost use Rattle.inc_query.specs.declared.query.Query.{Query};
ghost use Rattle.inc_graph.specs.Graphs.{IsCache, IsGraph, queries_of};
ghost use Rattle.inc_graph.specs.declared.node.Node.{Node};
ghost use Rattle.inc_engine.specs.Builds.{IsBuildOf, setup, stale};
ghost use Rattle.inc_engine.specs.Finish.{HasKept};
ghost use Rattle.inc_engine.specs.Marking.{Distinct};
ghost use Rattle.inc_roots.specs.Asked.{AreAsked};
ghost use Rattle.inc_roots.specs.Fresh.{is_of};
ghost use Rattle.inc_roots.specs.Reached.{in_order};
ghost use Rattle.inc_roots.specs.Rooted.{cache_of, graph_of};

/// An input has one graph of the queries that some roots reach, and one cache of it: whatever an engine did before it finished with
/// them, where it was asked the roots and nothing else (docs/FORMATS.md, "The dependency graph").
pub fn one_graph()
    ensures graph { (plan : Query → Plan) (kept : ℕ → Bool) (input : List ℕ) (roots : List Query) (nodes : List Node) (cache : List (ℕ × List ℕ)) → ((q : Query) → ReadsFit q [] (plan q)) → IsGraph nodes → IsBuildOf plan kept input nodes cache → AreAsked (reads_of plan input) roots (queries_of nodes) → nodes ≡ graph_of plan input roots }
    ensures cache { (plan : Query → Plan) (kept : ℕ → Bool) (input : List ℕ) (roots : List Query) (nodes : List Node) (cache : List (ℕ × List ℕ)) → ((q : Query) → ReadsFit q [] (plan q)) → IsGraph nodes → IsCache nodes cache → IsBuildOf plan kept input nodes cache → HasKept kept nodes cache → AreAsked (reads_of plan input) roots (queries_of nodes) → cache ≡ cache_of plan kept input roots }
{}

/// Of the highest kind, which no query reads, the graph of some roots has these roots alone. So a build over nothing, whose promises always
/// hold, counts as many queries of that kind as there are roots of it, where none of these stands twice (docs/ARCHITECTURE.md, "How a query
/// runs").
pub fn fresh_builds()
    ensures highest { (plan : Query → Plan) (input : List ℕ) (roots : List Query) (top : ℕ) → ((q : Query) → ReadsFit q [] (plan q)) → All (λ q. q.kind ≤ top) roots → filter (is_of top) (queries_of (graph_of plan input roots)) ≡ in_order (filter (is_of top) roots) }
    ensures ticks { (plan : Query → Plan) (kept : ℕ → Bool) (ticking height : ℕ) (input s : List ℕ) (roots : List Query) → ((q : Query) → ReadsFit q [] (plan q)) → All (λ q. q.kind ≤ ticking) roots → Distinct (filter (is_of ticking) roots)
        → count_by (stale (setup plan kept ticking height input [] []) s) (queries_of (graph_of plan input roots)) ≡ count_by (is_of ticking) roots }
{}
