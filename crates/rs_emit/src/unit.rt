ghost use Rattle.std.specs.Prelude.{◌≡◌, IfOk};
ghost use Rattle.inc_base.specs.Meters.{ticked};
ghost use Rattle.rs_object.specs.Grammar.{InGrammar};
ghost use Rattle.rs_emit.specs.Objects.{func_of, object_of};

use crate::code::code_of;
use crate::relocs::relocs_of;
use crate::symbols::{is_copied, symbol_in, unit_text};
use inc_base::{Bytes, List, Memory, Meter};
use rs_object::{Func, Object};
use rs_tree::{Ir, Place};
use std::alloc::Global;

/// The object of a unit, of its members in their order, each with its intermediate form. The root's unit is
/// the empty text. It is in the grammar of objects.
///
/// The meter ticks once, whatever is answered. `Memory` where there is none for the object, and where a
/// member's code is longer than a list may be (docs/FORMATS.md, "Objects").
pub fn emit(unit: &[u8], members: &List<(Place, Ir)>, meter: &mut Meter) -> Result<Object, Memory>
    ensures tick { meter.new ≡ ticked meter.old }
    ensures makes { IfOk result (λ o. o ≡ object_of unit.now members.now) }
    ensures grammar { IfOk result InGrammar }
{
    meter.tick();
    let alloc = members.allocator();
    let mut funcs = List::new(alloc);
    for member in members.as_slice() {
        funcs.push(func_of(alloc, unit, &member.0, &member.1)?)?;
    }
    Ok(Object {
        unit: Bytes::of(alloc, unit_text(unit))?,
        funcs,
    })
}

fn func_of(alloc: Global, unit: &[u8], place: &Place, ir: &Ir) -> Result<Func, Memory>
    ensures { IfOk result (λ f. f ≡ func_of unit.now (place.now, ir.now)) }
{
    let symbol = symbol_in(alloc, unit, is_copied(ir.inline, place), place)?;
    let code = code_of(alloc, ir.code.as_slice())?;
    let relocs = relocs_of(alloc, unit, ir.code.as_slice())?;
    Ok(Func {
        symbol,
        params: ir.params,
        slots: ir.slots,
        code,
        relocs,
    })
}
