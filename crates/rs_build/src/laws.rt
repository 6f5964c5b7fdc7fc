//! What is made anew where there is no earlier build.

ghost use Rattle.std.specs.Prelude.{◌≡◌, ℕ, List, []};
ghost use Rattle.std.specs.List.{count_by};
ghost use Rattle.inc_base.specs.declared.job.Compiler.{Compiler};
ghost use Rattle.inc_graph.specs.Graphs.{queries_of};
ghost use Rattle.inc_engine.specs.Builds.{stale};
ghost use Rattle.rs_queries.specs.Built.{emitted};
ghost use Rattle.rs_queries.specs.declared.compiled.Compiled.{Compiled};
ghost use Rattle.rs_build.specs.Over.{IsOver, IsReadAssembled, begun, reached_graph, setup_of, value_of};

use inc_engine::builds_follow;
use inc_roots::fresh_builds;
use rs_grammar::trees_are_tidy;
use rs_plans::plans_fit;
use rs_text::texts_are_read;

/// Where there is no earlier build, what a build promises holds whatever the text is, and each object is made anew: as many as the text has
/// units where something is built, and else none. So the meter rises as by the clean build (docs/ARCHITECTURE.md, "How a query runs").
pub fn fresh_builds_make_all()
    ensures over { (compiler : Compiler) (text s : List ℕ) → IsOver (begun text compiler [] []) s }
    ensures made { (compiler : Compiler) (text s : List ℕ) (c : Compiled) → IsReadAssembled (value_of (begun text compiler [] [])) text compiler.level c
        → count_by (stale (setup_of (begun text compiler [] [])) s) (queries_of (reached_graph compiler text)) ≡ emitted c }
{
    builds_follow();
    fresh_builds();
    plans_fit();
    texts_are_read();
    trees_are_tidy();
}
