//! Names that are defined twice.

ghost use Rattle.std.specs.Prelude.{◌≡◌, IfOk, MatchOption};
ghost use Rattle.std.specs.Option.{option_copied};
ghost use Rattle.rs_grammar.specs.Twice.{AllOnce, IsFirstTwice, key};
ghost use Rattle.rs_reader.specs.Ends.{HasNames};

use inc_base::{Bytes, Copied, Memory};
use rs_grammar::{Named, SyntaxFault};
use std::alloc::Global;
use std::collections::BTreeSet;

/// What two names that clash share: the module, and the name.
fn key(named: &Named) -> (Option<&[u8]>, &[u8])
    ensures { (option_copied result.0, result.1.now) ≡ key named.now }
{
    (
        named.module.as_ref().map(Bytes::as_slice),
        named.name.as_slice(),
    )
}

/// The first name that an earlier one clashes with: both are modules' names, or both are names of items of
/// one module, and they are the same.
fn first_twice(alloc: Global, names: &[Named]) -> Result<Option<&Named>, Memory>
    ensures { IfOk result (λ r. MatchOption r (AllOnce names.now) (λ d. IsFirstTwice names.now d.now)) }
{
    let mut seen: BTreeSet<(Option<&[u8]>, &[u8])> = BTreeSet::new(alloc);
    for named in names {
        if !seen.insert(key(named))? {
            return Ok(Some(named));
        }
    }
    Ok(None)
}

/// Whether each name is defined once: no module has the name of an earlier one, and no item that of an earlier
/// item of its module (docs/LANGUAGE.md, "Faults").
///
/// `Twice` with the place and the text of the first that isn't, `Memory` for want of memory.
pub fn check_names(alloc: Global, names: &[Named]) -> Result<(), SyntaxFault>
    ensures { HasNames names.now result }
{
    match first_twice(alloc, names)? {
        Some(named) => Err(SyntaxFault::Twice(named.at, named.name.copy()?)),
        None => Ok(()),
    }
}
