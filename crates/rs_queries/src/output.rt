//! What objects give: their bytes, and the image.

ghost use Rattle.std.specs.Prelude.{◌≡◌, map, IfOk, All};
ghost use Rattle.rs_object.specs.Grammar.{InGrammar};
ghost use Rattle.rs_queries.specs.Built.{image_of, output_of, stored};

use crate::compiled::Built;
use inc_base::{Bytes, Copied, List, Memory};
use rs_link::{LinkFault, link};
use rs_object::{Object, encode_object};
use std::alloc::Global;

pub(crate) fn output_of(alloc: Global, objects: &List<Object>) -> Result<Built, Memory>
    requires { All InGrammar objects.now }
    ensures { IfOk result (λ b. b ≡ output_of objects.now) }
{
    let stored = all_stored(alloc, objects.as_slice())?;
    let image = image_of(objects)?;
    Ok(Built {
        objects: stored,
        image,
    })
}

fn all_stored(alloc: Global, objects: &[Object]) -> Result<List<(Bytes, Bytes)>, Memory>
    requires { All InGrammar objects.now }
    ensures { IfOk result (λ all. all ≡ map stored objects.now) }
{
    let mut all = List::new(alloc);
    for object in objects {
        all.push(stored(object)?)?;
    }
    Ok(all)
}

fn stored(object: &Object) -> Result<(Bytes, Bytes), Memory>
    requires { InGrammar object.now }
    ensures { IfOk result (λ s. s ≡ stored object.now) }
{
    let unit = object.unit.copy()?;
    let bytes = encode_object(object)?;
    Ok((unit, bytes))
}

/// The image that objects are linked to, where they are.
fn image_of(objects: &List<Object>) -> Result<Option<Bytes>, Memory>
    requires { All InGrammar objects.now }
    ensures { IfOk result (λ i. i ≡ image_of objects.now) }
{
    match link(objects) {
        Ok(image) => Ok(Some(image)),
        Err(LinkFault::Undefined(symbol)) => {
            drop(symbol);
            Ok(None)
        }
        Err(LinkFault::Twice(symbol)) => {
            drop(symbol);
            Ok(None)
        }
        Err(LinkFault::Memory) => Err(Memory),
    }
}
