ghost use Rattle.std.specs.Prelude.{◌≡◌, IfOk};
ghost use Rattle.rs_queries.specs.Diagnosed.{IsDiagnosis, SaysTree};
ghost use Rattle.rs_queries.specs.State.{SaysItems};

use crate::checked::check_tree;
use crate::fault::fault_text;
use crate::known::known_of;
use crate::reading::{Reading, read};
use inc_base::{Bytes, Memory};
use rs_names::index;
use rs_tree::{Crate, Index, Placed};
use std::alloc::Global;

/// The diagnostics of a text, each on a line of its own, in order of place, number and text, each once (docs/LANGUAGE.md,
/// "Diagnostics"): the fault of a text that has no tree; else what is wrong in its items, and, where no line is an error's,
/// the functions that are never used.
///
/// `Memory` where there is none for the tree, for what is known of it, or for the lines.
pub fn diagnose(alloc: Global, text: &[u8]) -> Result<Bytes, Memory>
    ensures { IfOk result (IsDiagnosis text.now) }
{
    match read(alloc, text)? {
        Reading::Tree(tree) => tree_text(alloc, &tree),
        Reading::Fault(fault) => fault_text(alloc, &fault),
    }
}

fn tree_text(alloc: Global, tree: &Crate) -> Result<Bytes, Memory>
    ensures { IfOk result (SaysTree tree.now) }
{
    let index = index(tree)?;
    indexed_text(alloc, tree.items.as_slice(), &index)
}

fn indexed_text<'a>(alloc: Global, placed: &'a [Placed], index: &'a Index) -> Result<Bytes, Memory>
    ensures { IfOk result (SaysItems index.now.items placed.now) }
{
    let known = known_of(alloc, placed, index)?;
    let checked = check_tree(alloc, &*index, &known)?;
    checked.lines.print(alloc)
}
