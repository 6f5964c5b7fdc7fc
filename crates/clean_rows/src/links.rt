//! Objects that are linked as they stand.

ghost use Rattle.std.specs.Prelude.{IfOk};
ghost use Rattle.std.specs.List.{All};
ghost use Rattle.rs_object.specs.Grammar.{InGrammar};

use crate::print::put_image;
use inc_base::{Bytes, List, Memory, Meter};
use rs_emit::emit;
use rs_link::{LinkFault, link};
use rs_object::Object;
use rs_tree::{Instr, Ir, Place};
use std::alloc::Global;

/// What comes of linking no objects, or of two that both have a function `main`.
pub fn put_link(alloc: Global, to: &mut Bytes, count: u32) -> Result<(), Memory> {
    if count == 0 {
        return put_linked(to, &List::new(alloc));
    }
    let objects = two_of(alloc)?;
    put_linked(to, &objects)
}

fn two_of(alloc: Global) -> Result<List<Object>, Memory>
    ensures { IfOk result (All InGrammar) }
{
    let mut objects = List::new(alloc);
    objects.push(main_object(alloc)?)?;
    objects.push(main_object(alloc)?)?;
    Ok(objects)
}

fn main_object(alloc: Global) -> Result<Object, Memory>
    ensures { IfOk result InGrammar }
{
    let mut members = List::new(alloc);
    members.push((main_place(alloc)?, main_form(alloc)?))?;
    let mut meter = Meter::new();
    emit(b"", &members, &mut meter)
}

fn main_place(alloc: Global) -> Result<Place, Memory> {
    Ok(Place {
        module: Bytes::new(alloc),
        name: Bytes::of(alloc, b"main")?,
    })
}

fn main_form(alloc: Global) -> Result<Ir, Memory> {
    let mut code = List::new(alloc);
    code.push(Instr::Plain(0x31))?;
    Ok(Ir {
        inline: false,
        params: 0,
        slots: 0,
        code,
    })
}

fn put_linked(to: &mut Bytes, objects: &List<Object>) -> Result<(), Memory>
    requires { All InGrammar objects.now }
{
    match link(objects) {
        Ok(image) => put_image(to, image.as_slice()),
        Err(LinkFault::Undefined(symbol)) => put_fault(to, b"undefined ", symbol.as_slice()),
        Err(LinkFault::Twice(symbol)) => put_fault(to, b"twice ", symbol.as_slice()),
        Err(LinkFault::Memory) => Err(Memory),
    }
}

fn put_fault(to: &mut Bytes, before: &[u8], symbol: &[u8]) -> Result<(), Memory> {
    to.append(before)?;
    to.append(symbol)?;
    to.append(b"\n")
}
