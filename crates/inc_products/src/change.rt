//! What changes one set of files into another.

ghost use Rattle.std.specs.Prelude.{◌≡◌, ◌++◌, ◌+◌, ◌<◌, [], ◌∷◌, List, length, IfOk, OnOk};
ghost use Rattle.std.proofs.Common.{rules};
ghost use Rattle.inc_products.specs.Plans.{drop_of, plan_of, rewrite, write_of};

use crate::named::FileSet;
use inc_base::{Bytes, Copied, Label, List, Memory};
use std::alloc::Global;
use std::cmp::Ordering;

/// A change of a set of files.
#[derive(Clone, Debug, Drop)]
pub enum Change {
    /// The file of this name is taken away.
    Drop(Label),
    /// The file of this name gets these bytes, whether it was there or not.
    Write(Label, Bytes),
}

impl Copied for Change {
    ghost same = { Prim.search rules };
}

/// The changes that turn one set into another, in the order of the names; files that are equal aren't named. `Memory`
/// where there is none for the changes. (docs/ARCHITECTURE.md, "Saved files")
pub fn plan(old: &FileSet, wanted: &FileSet) -> Result<List<Change>, Memory>
    ensures { IfOk result (λ changes. changes ≡ plan_of old.now wanted.now) }
{
    plan_of(old.allocator(), old.pairs(), wanted.pairs())
}

/// A file of a set.
type File = (Label, Bytes);

fn plan_of(alloc: Global, old: &[File], wanted: &[File]) -> Result<List<Change>, Memory>
    ensures { IfOk result (λ changes. changes ≡ plan_of old.now wanted.now) }
{
    let mut changes = List::new(alloc);
    let mut olds = old;
    let mut wants = wanted;
    'each: while !olds.is_empty() || !wants.is_empty() {
        let rest = next_change(&mut changes, olds, wants)?;
        olds = rest.0;
        wants = rest.1;
    }
    Ok(changes)
}

/// Adds the change of the first name of both, if its files differ, and answers what follows it.
fn next_change<'a>(
    changes: &mut List<Change>,
    olds: &'a [File],
    wants: &'a [File],
) -> Result<(&'a [File], &'a [File]), Memory>
    ensures plan { IfOk result (λ rest. changes.new ++ plan_of rest.0.now rest.1.now ≡ changes.old ++ plan_of olds.now wants.now) }
    ensures less { IfOk result (λ rest. 0 < length olds.now + length wants.now → length rest.0.now + length rest.1.now < length olds.now + length wants.now) }
{
    match (olds, wants) {
        ([], []) => Ok((olds, wants)),
        ([], [want, more @ ..]) => {
            push_write(changes, want)?;
            Ok((olds, more))
        }
        ([old, more @ ..], []) => {
            push_drop(changes, old)?;
            Ok((more, wants))
        }
        ([old, more_olds @ ..], [want, more_wants @ ..]) => match old.0.cmp(&want.0) {
            Ordering::Less => {
                push_drop(changes, old)?;
                Ok((more_olds, wants))
            }
            Ordering::Equal => {
                rewrite(changes, old, want)?;
                Ok((more_olds, more_wants))
            }
            Ordering::Greater => {
                push_write(changes, want)?;
                Ok((olds, more_wants))
            }
        },
    }
}

fn push_drop(changes: &mut List<Change>, old: &File) -> Result<(), Memory>
    ensures { OnOk result (changes.new ≡ changes.old ++ drop_of old.now ∷ []) }
{
    changes.push(Change::Drop(old.0.copy()?))
}

fn push_write(changes: &mut List<Change>, want: &File) -> Result<(), Memory>
    ensures { OnOk result (changes.new ≡ changes.old ++ write_of want.now ∷ []) }
{
    let name = want.0.copy()?;
    match want.1.copy() {
        Ok(bytes) => changes.push(Change::Write(name, bytes)),
        Err(refused) => {
            drop(name);
            Err(refused)
        }
    }
}

/// Writes a file that is there, where its bytes differ.
fn rewrite(changes: &mut List<Change>, old: &File, want: &File) -> Result<(), Memory>
    ensures { OnOk result ((later : List Change) → changes.new ++ later ≡ changes.old ++ rewrite old.now want.now later) }
{
    if old.1 == want.1 {
        return Ok(());
    }
    push_write(changes, want)
}
