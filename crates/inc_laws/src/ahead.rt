//! What comes after each of a session's own steps, told from the newest on: where a handle is closed first, and
//! a file linked first. A step's place is the number of steps before it.
ghost use Rattle.std.specs.Prelude.{◌≡◌, ◌≢◌, ◌↔◌, ◌<◌, ◌≤◌, [], ℕ, OnOk, IfOk, length, reverse};
ghost use Rattle.inc_laws.specs.Places.{closings_by, linkings_by, closed_in, linked_in, AreBefore, IsFar, AreFar};

use inc_base::{Copied, Label, Memory};
use inc_fs::{Op, Reply, Table};
use std::alloc::Global;

/// A directory's name, and a file of it.
type Source = (Label, Label);

fn source_of(from: &Label, file: &Label) -> Result<Source, Memory>
    ensures { IfOk result (λ source. source ≡ (from.now, file.now)) }
{
    let from = from.copy()?;
    let file = file.copy()?;
    Ok((from, file))
}

fn note_closing(
    closings: &mut Table<u32, usize>,
    step: &(Op, Reply),
    at: usize,
) -> Result<(), Memory>
    ensures { OnOk result (closings.new ≡ closings_by step.now at closings.old) }
{
    match (&step.0, &step.1) {
        (Op::Close { handle }, Reply::Done) => closings.insert(*handle, at),
        _ => Ok(()),
    }
}

fn note_linking(
    linkings: &mut Table<Source, usize>,
    krate: &Label,
    step: &(Op, Reply),
    at: usize,
) -> Result<(), Memory>
    ensures { OnOk result (linkings.new ≡ linkings_by krate.now step.now at linkings.old) }
{
    match (&step.0, &step.1) {
        (
            Op::Link {
                krate: k,
                from,
                file,
                ..
            },
            Reply::Done,
        ) => {
            if k == krate {
                let source = source_of(from, file)?;
                linkings.insert(source, at)
            } else {
                Ok(())
            }
        }
        _ => Ok(()),
    }
}

fn closed_at(closings: &Table<u32, usize>, h: u32, end: usize) -> usize
    ensures { result ≡ closed_in closings.now end h }
{
    match closings.get(&h) {
        Some(at) => *at,
        None => end,
    }
}

fn linked_at(
    linkings: &Table<Source, usize>,
    from: &Label,
    file: &Label,
    end: usize,
) -> Result<usize, Memory>
    ensures { IfOk result (λ at. at ≡ linked_in linkings.now end (from.now, file.now)) }
{
    let source = source_of(from, file)?;
    match linkings.get(&source) {
        Some(at) => Ok(*at),
        None => Ok(end),
    }
}

/// The later of two places.
pub(crate) fn later_place(one: usize, other: usize) -> usize
    ensures { (bound : ℕ) → result < bound ↔ ((one < bound) × (other < bound)) }
{
    if one < other { other } else { one }
}

/// Where the last of these files is linked first.
fn all_linked(
    linkings: &Table<Source, usize>,
    from: &Label,
    names: &[Label],
    end: usize,
) -> Result<usize, Memory>
    ensures { IfOk result (λ last. (bound : ℕ) → 0 < bound → (last < bound ↔ AreBefore (λ file. linked_in linkings.now end (from.now, file)) bound names.now)) }
{
    let mut last = 0;
    for file in names {
        let at = linked_at(linkings, from, file, end)?;
        last = later_place(last, at);
    }
    Ok(last)
}

/// What is told of a step ahead: of a lock that is got, where its handle is closed; of a listing of this crate,
/// where all that it lists is linked.
fn far_of(
    closings: &Table<u32, usize>,
    linkings: &Table<Source, usize>,
    krate: &Label,
    step: &(Op, Reply),
    end: usize,
) -> Result<usize, Memory>
    ensures { IfOk result (λ far. IsFar krate.now (closed_in closings.now end) (linked_in linkings.now end) end step.now far) }
{
    match (&step.0, &step.1) {
        (Op::TryLock { handle, .. }, Reply::Got) => Ok(closed_at(closings, *handle, end)),
        (Op::ListDir { krate: k, entry }, Reply::Names(names)) => {
            if k == krate && !names.as_slice().is_empty() {
                all_linked(linkings, entry, names.as_slice(), end)
            } else {
                Ok(end)
            }
        }
        _ => Ok(end),
    }
}

/// What is told ahead of each of these steps, the last first.
pub(crate) fn told_ahead(
    alloc: Global,
    krate: &Label,
    steps: &[(Op, Reply)],
) -> Result<Vec<usize>, Memory>
    ensures { IfOk result (λ fars. AreFar krate.now (length steps.now) steps.now 0 (reverse fars.items)) }
{
    let mut closings = Table::new(alloc);
    let mut linkings = Table::new(alloc);
    let mut fars = Vec::new(alloc);
    for at in (0..steps.len()).rev() {
        let step = &steps[at];
        fars.push(far_of(&closings, &linkings, krate, step, steps.len())?)?;
        note_closing(&mut closings, step, at)?;
        note_linking(&mut linkings, krate, step, at)?;
    }
    Ok(fars)
}
