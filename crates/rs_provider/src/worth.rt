//! The value of one constant, where those that it reaches are known.

ghost use Rattle.std.specs.Prelude.{◌≡◌, IfOk, slice_get, option_and_then};
ghost use Rattle.std.specs.Option.{option_map_or};
ghost use Rattle.rs_answers.specs.Forms.{const_form};
ghost use Rattle.rs_const.specs.Constants.{names};
ghost use Rattle.rs_plans.specs.Plans.{const_at};

use inc_base::{Bytes, Memory};
use rs_answers::const_bytes;
use rs_const::{Entry, const_values};
use rs_lookup::Places;
use rs_tree::{Const, Place};
use std::alloc::Global;

/// The value of the constant at a place, by these.
pub(crate) fn value_of(at: &Place, known: &[Entry]) -> Result<Bytes, Memory>
    ensures { IfOk result (λ v. v ≡ const_form (const_at known.now at.now)) }
{
    let alloc = at.name.allocator();
    let value = const_at(alloc, at, known)?;
    const_bytes(alloc, value)
}

fn const_at(alloc: Global, at: &Place, known: &[Entry]) -> Result<Const, Memory>
    ensures { IfOk result (λ c. c ≡ const_at known.now at.now) }
{
    let values = const_values(alloc, known)?;
    let places = places_of(alloc, known)?;
    let number = places.find((at.module.as_slice(), at.name.as_slice()));
    Ok(value_at(&values, number))
}

fn value_at(values: &[Const], number: Option<usize>) -> Const
    ensures { result ≡ option_map_or (λ c. c) (option_and_then (slice_get values.now) number) Const.Bad }
{
    match number {
        None => Const::Bad,
        Some(number) => match values.get(number) {
            None => Const::Bad,
            Some(value) => *value,
        },
    }
}

fn places_of<'a>(alloc: Global, known: &'a [Entry]) -> Result<Places<'a>, Memory>
    ensures { IfOk result (λ ps. ps ≡ names known.now) }
{
    let mut keys = Vec::with_capacity(alloc, known.len())?;
    for (place, _, _) in known {
        keys.push((place.module.as_slice(), place.name.as_slice()))?;
    }
    Places::new(alloc, keys)
}
