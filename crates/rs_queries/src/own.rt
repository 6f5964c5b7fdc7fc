//! Lines of the root's `main` and of items.

ghost use Rattle.std.specs.Prelude.{◌≡◌, map, fold, IfOk, OnOk};
ghost use Rattle.rs_reach.specs.Dead.{is_function};
ghost use Rattle.rs_lines.specs.Lines.{line_of, note, told};
ghost use Rattle.rs_queries.specs.Diagnosed.{all_item_lines, has_main, item_lines, main_lines, own_lines};

use crate::answered::Answered;
use crate::known::{Known, constant_places, value_at};
use inc_base::{List, Memory};
use rs_check::check_in;
use rs_diag::Fault;
use rs_lines::{Line, Lines};
use rs_names::Names;
use rs_tree::{At, Const, Diag, Index, IndexItem};
use rs_types::Sigs;
use std::alloc::Global;

/// All lines of a tree but those of functions that are never used.
pub(crate) fn own_lines<'a>(
    alloc: Global,
    index: &'a Index,
    known: &'a Known<'_>,
) -> Result<Lines, Memory>
    ensures { IfOk result (λ ls. ls ≡ told (own_lines index.now.items known.now.sigs known.now.constants known.now.values.items known.now.answered.items)) }
{
    let names = Names::new(index)?;
    let mut lines = Lines::new(alloc);
    tell_main(alloc, &mut lines, &names)?;
    tell_items(alloc, &mut lines, known, &names)?;
    Ok(lines)
}

/// Adds the line of a text whose root has no function `main` (docs/LANGUAGE.md, "Diagnostics"), or none.
///
/// # Errors
///
/// [`Memory`] if there is none for the line; the lines may lack it then.
pub fn tell_main<'a>(alloc: Global, lines: &mut Lines, names: &Names<'a>) -> Result<(), Memory>
    ensures { OnOk result (lines.new ≡ fold note lines.old (main_lines names.now)) }
{
    if has_main(names) {
        return Ok(());
    }
    let diag = Fault::NoMain.at(alloc, At { line: 0, column: 0 })?;
    lines.add(Line::of(At { line: 1, column: 1 }, diag))
}

fn has_main<'a>(names: &Names<'a>) -> bool
    ensures { result ≡ has_main names.now }
{
    match names.find((b"", b"main")) {
        None => false,
        Some(item) => is_function(item),
    }
}

fn is_function(item: &IndexItem) -> bool
    ensures { result ≡ is_function item.now }
{
    item.kind == 1 || item.kind == 2
}

fn tell_items<'a>(
    alloc: Global,
    lines: &mut Lines,
    known: &'a Known<'_>,
    names: &Names<'a>,
) -> Result<(), Memory>
    ensures { OnOk result (lines.new ≡ fold note lines.old (all_item_lines names.now known.now.sigs known.now.constants known.now.values.items known.now.answered.items)) }
{
    let sigs = Sigs::new(alloc, known.sigs.as_slice())?;
    let places = constant_places(alloc, known.constants.as_slice())?;
    for one in &known.answered {
        let value = value_at(&places, &known.values, one.key());
        tell_item(alloc, lines, one, &*names, &sigs, value)?;
    }
    Ok(())
}

fn tell_item<'a, 'b>(
    alloc: Global,
    lines: &mut Lines,
    one: &'a Answered<'_>,
    names: &'b Names<'a>,
    sigs: &'b Sigs<'a>,
    value: Option<Const>,
) -> Result<(), Memory>
    ensures { OnOk result (lines.new ≡ fold note lines.old (item_lines names.now sigs.now value one.now)) }
{
    let placed = one.placed();
    let module = placed.module.as_slice();
    let diags = check_in(alloc, &placed.item, module, names, one.found(), sigs, value)?;
    tell_all(lines, placed.start, diags)
}

// The diagnostics of an item that begins there.
fn tell_all(lines: &mut Lines, start: At, diags: List<Diag>) -> Result<(), Memory>
    ensures { OnOk result (lines.new ≡ fold note lines.old (map (line_of start) diags)) }
{
    for diag in diags.into_vec() {
        lines.add(Line::of(start, diag))?;
    }
    Ok(())
}
