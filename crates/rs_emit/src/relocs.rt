ghost use Rattle.std.specs.Prelude.{◌≡◌, ◌++◌, ◌+◌, ◌<◌, ◌^◌, IfOk, OnOk};
ghost use Rattle.rs_emit.specs.Code.{size, sizes};
ghost use Rattle.rs_emit.specs.Symbols.{reloc_of, relocs_from};

use crate::starts::size_of;
use crate::symbols::{is_copied, symbol_in};
use inc_base::{Bytes, List, Memory};
use rs_tree::Instr;
use std::alloc::Global;

/// Where the code needs the numbers of which functions, in ascending order.
pub(crate) fn relocs_of(
    alloc: Global,
    unit: &[u8],
    instrs: &[Instr],
) -> Result<List<(u32, Bytes)>, Memory>
    requires { sizes instrs.now < 2 ^ 32 }
    ensures { IfOk result (λ rs. rs ≡ relocs_from unit.now 0 instrs.now) }
{
    let mut relocs = List::new(alloc);
    let mut at = 0;
    for instr in instrs {
        put_reloc(alloc, &mut relocs, unit, at, instr)?;
        at += size_of(instr) as u32;
    }
    Ok(relocs)
}

fn put_reloc(
    alloc: Global,
    to: &mut List<(u32, Bytes)>,
    unit: &[u8],
    at: u32,
    instr: &Instr,
) -> Result<(), Memory>
    requires { at + size instr.now < 2 ^ 32 }
    ensures { OnOk result (to.new ≡ to.old ++ reloc_of unit.now at instr.now) }
{
    match instr {
        Instr::Call(inline, place) => {
            let symbol = symbol_in(alloc, unit, is_copied(*inline, place), place)?;
            to.push((at + 1, symbol))
        }
        _ => Ok(()),
    }
}
