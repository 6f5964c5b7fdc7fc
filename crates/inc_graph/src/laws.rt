//! Files are seen from their bytes, and read back from them.

ghost use Rattle.std.specs.Prelude.{◌≡◌, ℕ, List, Option, Some};
ghost use Rattle.inc_wire.specs.Readings.{IsReadAs};
ghost use Rattle.inc_wire.specs.declared.header.Header.{Header};
ghost use Rattle.inc_graph.specs.Forms.{FitsCache, FitsFile, FitsGraph, cache_form, file_form, graph_form};
ghost use Rattle.inc_graph.specs.declared.node.Node.{Node};

/// No two graphs with their headers have the same bytes, and no two caches with theirs (docs/FORMATS.md, "The
/// dependency graph", "The kept values").
pub fn files_differ()
    ensures graph { (a b : Header × List Node) → FitsFile FitsGraph a → FitsFile FitsGraph b → file_form graph_form a ≡ file_form graph_form b → a ≡ b }
    ensures cache { (a b : Header × List (ℕ × List ℕ)) → FitsFile FitsCache a → FitsFile FitsCache b → file_form cache_form a ≡ file_form cache_form b → a ≡ b }
{}

/// What is read of a graph's or a cache's bytes is that graph or that cache: so by the contracts of what writes and
/// reads them, what was written is read back.
pub fn files_are_read_back()
    ensures graph { (a : Header × List Node) (read : Option (Header × List Node)) → FitsFile FitsGraph a → IsReadAs (FitsFile FitsGraph) (file_form graph_form) (file_form graph_form a) read → read ≡ Some a }
    ensures cache { (a : Header × List (ℕ × List ℕ)) (read : Option (Header × List (ℕ × List ℕ))) → FitsFile FitsCache a → IsReadAs (FitsFile FitsCache) (file_form cache_form) (file_form cache_form a) read → read ≡ Some a }
{}
