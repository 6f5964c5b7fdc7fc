ghost use Rattle.std.specs.Prelude.{◌≡◌, ℕ, ◌<◌, ◌^◌, List, map, length, All};
ghost use Rattle.std.specs.BTreeMap.{get_by};
ghost use Rattle.std.specs.Ordering.{nat_cmp};
ghost use Rattle.std.specs.Option.{option_copied};
ghost use Rattle.std.specs.Cmp.Lexicographic.{slice_cmp};
ghost use Rattle.rs_object.specs.Grammar.{HasRelocs, InGrammar};
ghost use Rattle.rs_object.specs.declared.object.Func.{Func};
ghost use Rattle.rs_link.specs.Symbols.{funcs_of, number_of, undefined_in, first_undefined};
ghost use Rattle.rs_link.specs.Linked.{Links};

use crate::code::number;
use crate::fault::LinkFault;
use crate::image::image_of;
use crate::numbers::{funcs_of, numbers_of};
use inc_base::{Bytes, Copied, List};
use rs_object::{Func, Object};
use std::alloc::Global;
use std::collections::BTreeMap;

/// The image of objects, which are in unit order and each in the grammar of objects.
///
/// `Twice` of the first symbol, in order of objects and their functions, that a later function has too; else
/// `Undefined` of the first symbol, in order of relocations, that no function has; else `Undefined` of `main`
/// where no function has that symbol. `Memory` where there is none for the image or the symbols, and where there
/// are more functions than a list may have (docs/FORMATS.md, "Images").
#[tactic(auto, using(crate::proofs::Tables::all_have_relocs))]
pub fn link(objects: &List<Object>) -> Result<Bytes, LinkFault>
    requires { All InGrammar objects.now }
    ensures { Links (funcs_of objects.now) result }
{
    let alloc = objects.allocator();
    let funcs = funcs_of(alloc, objects.as_slice())?;
    link_funcs(alloc, &funcs)
}

fn link_funcs<'a>(alloc: Global, funcs: &[&'a Func]) -> Result<Bytes, LinkFault>
    requires few { length funcs.now < 2 ^ 32 }
    requires relocs { All HasRelocs (map (λ f. f.now) funcs.now) }
    ensures { Links (map (λ f. f.now) funcs.now) result }
{
    let numbers = numbers_of(alloc, funcs)?;
    if let Some(symbol) = numbers.twice {
        return Err(LinkFault::Twice(Bytes::of(alloc, symbol)?));
    }
    if let Some(symbol) = first_undefined(&numbers.map, funcs) {
        return Err(LinkFault::Undefined(Bytes::of(alloc, symbol)?));
    }
    let main: &'a [u8] = b"main";
    if numbers.map.get(&main).is_none() {
        return Err(LinkFault::Undefined(Bytes::of(alloc, main)?));
    }
    Ok(image_of(alloc, &numbers.map, funcs, number(&numbers.map, main))?)
}

/// The first symbol, in order of relocations, that no function has.
fn first_undefined<'a>(numbers: &BTreeMap<&'a [u8], usize>, funcs: &[&'a Func]) -> Option<&'a [u8]>
    ensures { (all : List Func) → ((q : List ℕ) → get_by (λ k. slice_cmp nat_cmp q k.now) numbers.now ≡ number_of all q) → option_copied result ≡ first_undefined all (map (λ f. f.now) funcs.now) }
{
    for func in funcs {
        if let Some(symbol) = undefined_in(numbers, func.relocs.as_slice()) {
            return Some(symbol);
        }
    }
    None
}

fn undefined_in<'a>(
    numbers: &BTreeMap<&'a [u8], usize>,
    relocs: &'a [(u32, Bytes)],
) -> Option<&'a [u8]>
    ensures { (all : List Func) → ((q : List ℕ) → get_by (λ k. slice_cmp nat_cmp q k.now) numbers.now ≡ number_of all q) → option_copied result ≡ undefined_in all relocs.now }
{
    for reloc in relocs {
        let symbol = reloc.1.as_slice();
        if numbers.get(&symbol).is_none() {
            return Some(symbol);
        }
    }
    None
}
