ghost use Rattle.std.specs.Prelude.{◌≡◌, ℕ, if◌then◌else◌, ◌<◌, ◌^◌, List, map, ◌++◌, length, IfOk, OnOk};
ghost use Rattle.std.specs.BTreeMap.{get_by};
ghost use Rattle.std.specs.Option.{option_copied};
ghost use Rattle.std.specs.List.{flat_map};
ghost use Rattle.std.specs.Ordering.{nat_cmp};
ghost use Rattle.std.specs.Cmp.Lexicographic.{slice_cmp};
ghost use Rattle.rs_link.specs.Symbols.{funcs_of, number_from, number_of, first_twice};

use inc_base::{MOST, Memory};
use rs_object::{Func, Object};
use std::alloc::Global;
use std::collections::BTreeMap;

/// The functions of objects, in order. More than `MOST` of them answer `Memory`.
pub(crate) fn funcs_of<'a>(alloc: Global, objects: &'a [Object]) -> Result<Vec<&'a Func>, Memory>
    ensures all { IfOk result (λ v. map (λ f. f.now) v.items ≡ funcs_of objects.now) }
    ensures few { IfOk result (λ v. length v.items < 2 ^ 32) }
{
    let mut funcs = Vec::new(alloc);
    for object in objects {
        push_all(&mut funcs, object.funcs.as_slice())?;
    }
    Ok(funcs)
}

fn push_all<'a>(to: &mut Vec<&'a Func>, funcs: &'a [Func]) -> Result<(), Memory>
    requires { length to.old.items < 2 ^ 32 }
    ensures all { OnOk result (map (λ f. f.now) to.new.items ≡ map (λ f. f.now) to.old.items ++ funcs.now) }
    ensures few { OnOk result (length to.new.items < 2 ^ 32) }
{
    for func in funcs {
        if to.len() >= MOST {
            return Err(Memory);
        }
        to.push(func)?;
    }
    Ok(())
}

/// The numbers of functions by their symbols, and the first symbol that two have.
#[derive(Drop)]
pub(crate) struct Numbers<'a> {
    pub map: BTreeMap<&'a [u8], usize>,
    pub twice: Option<&'a [u8]>,
}

pub(crate) fn numbers_of<'a>(alloc: Global, funcs: &[&'a Func]) -> Result<Numbers<'a>, Memory>
    ensures map { IfOk result (λ n. (q : List ℕ) → get_by (λ k. slice_cmp nat_cmp q k.now) n.map ≡ number_of (map (λ f. f.now) funcs.now) q) }
    ensures twice { IfOk result (λ n. option_copied n.twice ≡ first_twice (map (λ f. f.now) funcs.now)) }
{
    let mut map = BTreeMap::new(alloc);
    let mut twice = None;
    for i in (0..funcs.len()).rev() {
        let symbol = funcs[i].symbol.as_slice();
        let again = map.insert(symbol, i)?.is_some();
        twice = earlier(twice, again, symbol);
    }
    Ok(Numbers { map, twice })
}

/// The symbol before the others, where it comes again, or else what they have.
fn earlier<'a>(twice: Option<&'a [u8]>, again: bool, symbol: &'a [u8]) -> Option<&'a [u8]>
    ensures { option_copied result ≡ (if again then Some symbol.now else option_copied twice.entry) }
{
    if again { Some(symbol) } else { twice }
}
