//! What is made of the values of objects.

ghost use Rattle.std.specs.Prelude.{◌≡◌, ℕ, List, map, Option, None, Some, IfOk, IfSome};
ghost use Rattle.std.specs.List.{All, AllZip, Contains};
ghost use Rattle.inc_wire.specs.Readings.{IsNoForm};
ghost use Rattle.rs_object.specs.Fits.{FitsObject};
ghost use Rattle.rs_object.specs.Forms.{object_form};
ghost use Rattle.rs_object.specs.Grammar.{InGrammar};
ghost use Rattle.rs_object.specs.declared.object.Object.{Object};
ghost use Rattle.rs_queries.specs.Built.{image_of, output_of, stored};
ghost use Rattle.rs_build.specs.Made.{AreObjectsOf, IsNoneOf};

use inc_base::{Bytes, Copied, List, Memory};
use rs_link::{LinkFault, link};
use rs_object::{Object, decode_object};
use rs_queries::Built;
use std::alloc::Global;

/// The objects that these values are, or None where one isn't an object.
pub(crate) fn objects_of(alloc: Global, values: &[Bytes]) -> Result<Option<List<Object>>, Memory>
    ensures objects { IfOk result (λ o. IfSome o (AreObjectsOf values.now)) }
    ensures grammar { IfOk result (λ o. IfSome o (All InGrammar)) }
    ensures none { IfOk result (λ o. o ≡ None → IsNoneOf values.now) }
{
    let mut objects = List::new(alloc);
    for value in values {
        match decode_object(alloc, value.as_slice())? {
            Some(object) => objects.push(object)?,
            None => {
                drop(objects);
                return Ok(None);
            }
        }
    }
    Ok(Some(objects))
}

/// The objects of units, with the bytes that they are, and the image that they link to.
pub(crate) fn output_of(objects: &List<Object>, values: &[Bytes]) -> Result<Built, Memory>
    requires objects { AreObjectsOf values.now objects.now }
    requires grammar { All InGrammar objects.now }
    ensures { IfOk result (λ b. b ≡ output_of objects.now) }
{
    let stored = all_stored(objects, values)?;
    let image = image_of(objects)?;
    Ok(Built {
        objects: stored,
        image,
    })
}

fn all_stored(objects: &List<Object>, values: &[Bytes]) -> Result<List<(Bytes, Bytes)>, Memory>
    requires { AreObjectsOf values.now objects.now }
    ensures { IfOk result (λ all. all ≡ map stored objects.now) }
{
    let mut all = List::new(objects.allocator());
    for (i, object) in objects.as_slice().iter().enumerate() {
        all.push((object.unit.copy()?, values[i].copy()?))?;
    }
    Ok(all)
}

/// The image that objects are linked to, where they are.
fn image_of(objects: &List<Object>) -> Result<Option<Bytes>, Memory>
    requires { All InGrammar objects.now }
    ensures { IfOk result (λ i. i ≡ image_of objects.now) }
{
    match link(objects) {
        Ok(image) => Ok(Some(image)),
        Err(LinkFault::Undefined(symbol)) => {
            drop(symbol);
            Ok(None)
        }
        Err(LinkFault::Twice(symbol)) => {
            drop(symbol);
            Ok(None)
        }
        Err(LinkFault::Memory) => Err(Memory),
    }
}
