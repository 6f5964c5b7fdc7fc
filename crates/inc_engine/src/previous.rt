ghost use Rattle.std.specs.Prelude.{◌≡◌, ◌≢◌, ◌<◌, ◌^◌, ◌⊎◌, ◌↔◌, ℕ, IfSome, IfNone, IfOk, IsTrue, length, slice_index_or};
ghost use Rattle.std.specs.List.{All};
ghost use Rattle.std.specs.List.Sorted.{IsStrictlySortedBy};
ghost use Rattle.std.specs.Ordering.{nat_cmp};
ghost use Rattle.inc_graph.specs.Graphs.{IsGraph, IsCache, queries_of, positions_of};
ghost use Rattle.inc_engine.specs.Builds.{at};
ghost use Rattle.inc_engine.specs.Marking.{IsCached};

use inc_base::{Bytes, Copied, Memory};
use inc_graph::{Cache, Graph, Node};
use inc_query::{Providers, Query};
use inc_wire::Print;

/// The graph and the cache of an earlier build.
#[derive(Drop)]
pub(crate) struct Previous {
    pub graph: Graph,
    pub cache: Cache,
}

/// Whether two values have one print.
pub(crate) fn same_print(a: &Print, b: &Print) -> bool
    ensures { IsTrue result ↔ (a.now.0 ≡ b.now.0) }
{
    a.0 == b.0
}

/// The position of a query's node.
pub(crate) fn find_node(nodes: &[Node], q: &Query) -> Option<usize>
    requires { IsGraph nodes.now }
    ensures found { IfSome result (λ i. (i < length nodes.now) × (at (queries_of nodes.now) i ≡ q.now)) }
    ensures none { IfNone result (All (λ n. n.query ≢ q.now) nodes.now) }
{
    match nodes.binary_search_by(|n| n.query.cmp(q)) {
        Ok(i) => Some(i),
        Err(_) => None,
    }
}

fn find_value(cache: &[(u32, Bytes)], place: u32) -> Option<&Bytes>
    requires { IsStrictlySortedBy nat_cmp (positions_of cache.now) }
    ensures found { IfSome result (λ v. (i : ℕ) × (i < length cache.now) × ((e : _) → (slice_index_or cache.now i e ≡ (place, v.now)))) }
    ensures none { IfNone result (All (λ e. e.0 ≢ place) cache.now) }
{
    match cache.binary_search_by_key(&place, |e| e.0) {
        Ok(i) => Some(&cache[i].1),
        Err(_) => None,
    }
}

/// The position of a query that may be found green: the input never is.
pub(crate) fn find_green(previous: &Previous, q: &Query) -> Option<usize>
    requires { IsGraph previous.now.graph }
    ensures found { IfSome result (λ i. (i < length previous.now.graph) × (at (queries_of previous.now.graph) i ≡ q.now) × (0 < q.now.kind)) }
    ensures none { IfNone result ((q.now.kind ≡ 0) ⊎ All (λ n. n.query ≢ q.now) previous.now.graph) }
{
    if q.kind == 0 {
        None
    } else {
        find_node(previous.graph.as_slice(), q)
    }
}

/// The value that is kept of a node that is to be green. `None` inside means that its kind isn't kept.
pub(crate) fn kept_value<P: Providers>(
    p: &P,
    previous: &Previous,
    place: usize,
    kind: u8,
) -> Result<Option<Option<Bytes>>, Memory>
    requires few { place < 2 ^ 32 }
    requires cache { IsCache previous.now.graph previous.now.cache }
    ensures some { IfOk result (λ o. IfSome o (λ v. IsCached P.kept previous.now.cache place kind v)) }
    ensures none { IfOk result (λ o. IfNone o (IsTrue (P.kept kind) × All (λ e. e.0 ≢ place) previous.now.cache)) }
{
    if !p.keeps(kind) {
        return Ok(Some(None));
    }
    match find_value(previous.cache.as_slice(), place as u32) {
        Some(value) => Ok(Some(Some(value.copy()?))),
        None => Ok(None),
    }
}
