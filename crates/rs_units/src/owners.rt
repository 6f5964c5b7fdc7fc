ghost use Rattle.std.specs.Prelude.{◌≡◌, ◌++◌, ◌∷◌, [], ◌||◌, ℕ, Bool, List, filter, is_some, IfOk, OnOk};
ghost use Rattle.std.specs.BTreeMap.{get_by};
ghost use Rattle.std.specs.Ordering.{nat_cmp};
ghost use Rattle.std.specs.Cmp.Lexicographic.{slice_cmp};
ghost use Rattle.rs_units.specs.Units.{is_own, has_own, units_of};

use inc_base::{Bytes, List, Memory};
use rs_tree::{Index, IndexItem};
use std::alloc::Global;
use std::collections::BTreeMap;

// The kind of a function that isn't copied into the units that call it.
pub(crate) const OWN: u8 = 1;

/// The units of a program, each by its module: the root, which is the empty text, where it has a function of
/// kind 1, and each module that has one, in index order. `Memory` where there is none for them
/// (docs/FORMATS.md, "Units").
pub fn units(index: &Index) -> Result<List<Bytes>, Memory>
    ensures { IfOk result (λ us. us ≡ units_of index.now) }
{
    let alloc = index.items.allocator();
    let owners = owners_of(alloc, index.items.as_slice())?;
    let mut units = List::new(alloc);
    push_if(&mut units, &owners, b"")?;
    for module in index.modules.as_slice() {
        push_if(&mut units, &owners, module.as_slice())?;
    }
    Ok(units)
}

/// The modules with a function of kind 1.
type Owners<'a> = BTreeMap<&'a [u8], ()>;

#[tactic(auto, using(crate::proofs::Own::own_more))]
fn owners_of<'a>(alloc: Global, items: &'a [IndexItem]) -> Result<Owners<'a>, Memory>
    ensures { IfOk result (λ m. (q : List ℕ) → is_some (get_by (λ k. slice_cmp nat_cmp q k.now) m) ≡ has_own items.now q) }
{
    let mut owners = BTreeMap::new(alloc);
    for i in (0..items.len()).rev() {
        note(&mut owners, &items[i])?;
    }
    Ok(owners)
}

fn note<'a>(owners: &mut Owners<'a>, item: &'a IndexItem) -> Result<(), Memory>
    ensures { OnOk result ((q : List ℕ) → is_some (get_by (λ k. slice_cmp nat_cmp q k.now) owners.new) ≡ (is_own q item.now || is_some (get_by (λ k. slice_cmp nat_cmp q k.now) owners.old))) }
{
    if item.kind != OWN {
        return Ok(());
    }
    owners.insert(item.module.as_slice(), ())?;
    Ok(())
}

/// Adds a module where it is among the owners.
fn push_if<'a>(units: &mut List<Bytes>, owners: &Owners<'a>, name: &'a [u8]) -> Result<(), Memory>
    ensures { (has : List ℕ → Bool) → ((q : List ℕ) → is_some (get_by (λ k. slice_cmp nat_cmp q k.now) owners.now) ≡ has q) → OnOk result (units.new ≡ units.old ++ filter has (name.now ∷ [])) }
{
    if owners.get(&name).is_none() {
        return Ok(());
    }
    units.push(Bytes::of(units.allocator(), name)?)?;
    Ok(())
}
