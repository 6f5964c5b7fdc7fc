ghost use Rattle.std.specs.Prelude.{◌≡◌, ◌+◌, ◌<◌, ◌^◌, ℕ, List, length, if◌then◌else◌};
ghost use Rattle.std.specs.List.{All, count_by};
ghost use Rattle.inc_graph.specs.Graphs.{IsGraph};
ghost use Rattle.inc_engine.specs.Builds.{Setup, Before, is_red};
ghost use Rattle.inc_engine.specs.Marking.{asked, IsRight};
ghost use Rattle.inc_engine.specs.Finish.{IsRedBy};

use crate::done::Done;
use crate::previous::{Previous, find_node, same_print};
use inc_graph::Node;

/// What an engine did, by nodes of its graph: those that it ran, those that it found green and never ran, and
/// those that are new or whose print differs.
#[derive(Clone, Copy, Debug, PartialEq, Eq)]
pub struct Work {
    pub ran: u32,
    pub green: u32,
    pub red: u32,
}

/// Whether an entry is new, or its print isn't that of its node.
fn is_red(nodes: &[Node], done: &Done) -> bool
    requires { IsGraph nodes.now }
    ensures { IsRedBy nodes.now done.now result }
{
    match find_node(nodes, &done.query) {
        Some(i) => !same_print(&done.print, &nodes[i].print),
        None => true,
    }
}

/// What the entries were.
pub(crate) fn work_of(previous: &Previous, memo: &[Done]) -> Work
    requires few { length memo.now < 2 ^ 32 }
    requires graph { IsGraph previous.now.graph }
    ensures all { result.ran + result.green ≡ length memo.now }
    ensures red { (b : Setup) (s : List ℕ) → b.nodes ≡ previous.now.graph → Before b s → All (IsRight b (asked memo.now)) memo.now → result.red ≡ count_by (λ d. is_red b s d.query) memo.now }
{
    let mut work = Work {
        ran: 0,
        green: 0,
        red: 0,
    };
    for done in memo {
        let red = is_red(previous.graph.as_slice(), done);
        work = counted(work, done.ran, red);
    }
    work
}

/// With one more entry.
fn counted(work: Work, ran: bool, red: bool) -> Work
    requires few { work.ran + work.green + 1 < 2 ^ 32 }
    requires reds { work.red + 1 < 2 ^ 32 }
    ensures all { result.ran + result.green ≡ work.ran + work.green + 1 }
    ensures red { result.red ≡ work.red + (if red then 1 else 0) }
{
    let mut next = work;
    if ran {
        next.ran += 1;
    } else {
        next.green += 1;
    }
    if red {
        next.red += 1;
    }
    next
}
