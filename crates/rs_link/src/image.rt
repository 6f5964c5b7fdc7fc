ghost use Rattle.std.specs.Prelude.{◌≡◌, ℕ, ◌<◌, ◌^◌, ◌++◌, List, map, length, IfOk, OnOk, All};
ghost use Rattle.std.specs.BTreeMap.{get_by};
ghost use Rattle.std.specs.Ordering.{nat_cmp};
ghost use Rattle.std.specs.Cmp.Lexicographic.{slice_cmp};
ghost use Rattle.rs_object.specs.Grammar.{HasRelocs};
ghost use Rattle.rs_object.specs.declared.object.Func.{Func};
ghost use Rattle.rs_link.specs.Symbols.{number_of};
ghost use Rattle.rs_link.specs.Image.{body_form, image_form};

use crate::code::linked_code;
use inc_base::{Bytes, Memory};
use inc_wire::{put_number, put_text};
use rs_object::Func;
use std::alloc::Global;
use std::collections::BTreeMap;

/// The image of functions whose `main` has this number.
pub(crate) fn image_of<'a>(
    alloc: Global,
    numbers: &BTreeMap<&'a [u8], usize>,
    funcs: &[&'a Func],
    main: u32,
) -> Result<Bytes, Memory>
    requires few { length funcs.now < 2 ^ 32 }
    requires relocs { All HasRelocs (map (λ f. f.now) funcs.now) }
    requires numbers { (q : List ℕ) → get_by (λ k. slice_cmp nat_cmp q k.now) numbers.now ≡ number_of (map (λ f. f.now) funcs.now) q }
    ensures { IfOk result (λ b. b ≡ image_form main (map (λ f. f.now) funcs.now)) }
{
    let mut image = Bytes::new(alloc);
    image.append(b"RIMG")?;
    put_number(&mut image, 2, 1)?;
    put_number(&mut image, 4, funcs.len() as u64)?;
    put_number(&mut image, 4, u64::from(main))?;
    for func in funcs {
        put_body(alloc, &mut image, numbers, func)?;
    }
    Ok(image)
}

fn put_body<'a>(
    alloc: Global,
    to: &mut Bytes,
    numbers: &BTreeMap<&'a [u8], usize>,
    func: &'a Func,
) -> Result<(), Memory>
    requires { HasRelocs func.now }
    ensures { OnOk result ((all : List Func) → length all < 2 ^ 32 → ((q : List ℕ) → get_by (λ k. slice_cmp nat_cmp q k.now) numbers.now ≡ number_of all q) → to.new ≡ to.old ++ body_form all func.now) }
{
    let code = linked_code(alloc, numbers, func.code.as_slice(), func.relocs.as_slice())?;
    put_number(to, 2, u64::from(func.params))?;
    put_number(to, 2, u64::from(func.slots))?;
    put_text(to, code.as_slice())
}
