ghost use Rattle.std.specs.Prelude.{◌≡◌, IfOk};
ghost use Rattle.rs_check.specs.Items.{lines};

use inc_base::{List, Memory};
use rs_tree::Diag;
use std::alloc::Global;
use std::collections::BTreeSet;

/// Diagnostics in order of place, number and text, each once.
pub(crate) fn in_order(alloc: Global, diags: List<Diag>) -> Result<List<Diag>, Memory>
    ensures { IfOk result (λ ds. ds ≡ lines diags) }
{
    let mut set = BTreeSet::new(alloc);
    for diag in diags.into_vec() {
        set.insert(diag)?;
    }
    let mut list = List::new(alloc);
    for diag in set {
        list.push(diag)?;
    }
    Ok(list)
}
