ghost use Rattle.std.specs.Prelude.{◌≡◌, ℕ, ◌<◌, ◌^◌, List, length, IfOk, unwrap_or};
ghost use Rattle.std.specs.BTreeMap.{get_by};
ghost use Rattle.std.specs.Ordering.{nat_cmp};
ghost use Rattle.std.specs.Cmp.Lexicographic.{slice_cmp};
ghost use Rattle.rs_object.specs.Grammar.{AreRelocs};
ghost use Rattle.rs_object.specs.declared.object.Func.{Func};
ghost use Rattle.rs_link.specs.Symbols.{number_of};
ghost use Rattle.rs_link.specs.Image.{linked_code};

use inc_base::{Bytes, MOST, Memory};
use inc_wire::put_number;
use std::alloc::Global;
use std::collections::BTreeMap;

/// The code with each relocation's number in its place.
pub(crate) fn linked_code<'a>(
    alloc: Global,
    numbers: &BTreeMap<&'a [u8], usize>,
    code: &[u8],
    relocs: &'a [(u32, Bytes)],
) -> Result<Bytes, Memory>
    requires { AreRelocs 0 code.now relocs.now }
    ensures { (all : List Func) → length all < 2 ^ 32 → ((q : List ℕ) → get_by (λ k. slice_cmp nat_cmp q k.now) numbers.now ≡ number_of all q) → IfOk result (λ b. b ≡ linked_code all code.now relocs.now) }
{
    let mut linked = Bytes::new(alloc);
    let mut from: usize = 0;
    for reloc in relocs {
        let at = reloc.0 as usize;
        linked.append(&code[from..at])?;
        put_number(
            &mut linked,
            4,
            u64::from(number(numbers, reloc.1.as_slice())),
        )?;
        from = at + 4;
    }
    linked.append(&code[from..])?;
    Ok(linked)
}

/// The number of a symbol's function, or 0 where it has none.
pub(crate) fn number<'a>(numbers: &BTreeMap<&'a [u8], usize>, symbol: &'a [u8]) -> u32
    ensures { (all : List Func) → length all < 2 ^ 32 → ((q : List ℕ) → get_by (λ k. slice_cmp nat_cmp q k.now) numbers.now ≡ number_of all q) → result ≡ unwrap_or (number_of all symbol.now) 0 }
{
    match numbers.get(&symbol) {
        Some(number) => small(*number),
        None => 0,
    }
}

fn small(number: usize) -> u32
    ensures { number < 2 ^ 32 → result ≡ number }
{
    if number > MOST {
        return 0;
    }
    number as u32
}
