//! A tree that was checked: its lines, and what its items call.

ghost use Rattle.std.specs.Prelude.{◌≡◌, map, fold, IfOk, Some};
ghost use Rattle.rs_lines.specs.Lines.{note};
ghost use Rattle.rs_queries.specs.Diagnosed.{calls_of, dead_lines};
ghost use Rattle.rs_queries.specs.State.{IsChecked};

use crate::answered::Answered;
use crate::dead::{calls_of_all, tell_dead};
use crate::known::Known;
use crate::own::own_lines;
use inc_base::{List, Memory};
use rs_lines::Lines;
use rs_tree::{Index, Place};
use std::alloc::Global;

/// The lines of a tree, and what each item calls, where no line is an error's.
#[derive(Drop)]
pub(crate) struct Checked {
    pub lines: Lines,
    pub calls: Option<List<(Place, List<Place>)>>,
}

/// A tree of which this is known, checked.
pub(crate) fn check_tree<'a>(
    alloc: Global,
    index: &'a Index,
    known: &'a Known<'_>,
) -> Result<Checked, Memory>
    ensures { IfOk result (IsChecked index.now.items known.now) }
{
    let lines = own_lines(alloc, index, known)?;
    if lines.has_error() {
        return Ok(Checked { lines, calls: None });
    }
    let used = used(alloc, lines, index, &known.answered)?;
    Ok(used)
}

// More lines, where there is no error yet: those of functions that are never used.
fn used<'a>(
    alloc: Global,
    lines: Lines,
    index: &'a Index,
    answered: &'a [Answered<'_>],
) -> Result<Checked, Memory>
    ensures lines { IfOk result (λ c. c.lines ≡ fold note lines (dead_lines index.now.items answered.now)) }
    ensures calls { IfOk result (λ c. c.calls ≡ Some (map (calls_of index.now.items) answered.now)) }
{
    let mut lines = lines;
    let calls = calls_of_all(alloc, &*index, &*answered)?;
    tell_dead(alloc, &mut lines, &*index, &*answered, &calls)?;
    Ok(Checked {
        lines,
        calls: Some(calls),
    })
}
