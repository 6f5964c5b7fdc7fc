ghost use Rattle.std.specs.Prelude.{◌≡◌, ◌++◌, ◌<◌, ◌^◌, slice_index, IfOk, OnOk};
ghost use Rattle.rs_emit.specs.Code.{bytes_of, code_of, sizes};

use crate::starts::starts_of;
use inc_base::{Bytes, Memory};
use inc_wire::put_number;
use rs_tree::Instr;
use std::alloc::Global;

/// The code of instructions.
pub(crate) fn code_of(alloc: Global, instrs: &[Instr]) -> Result<Bytes, Memory>
    ensures makes { IfOk result (λ b. b ≡ code_of instrs.now) }
    ensures few { IfOk result (λ b. sizes instrs.now < 2 ^ 32) }
{
    let starts = starts_of(alloc, instrs)?;
    let mut code = Bytes::new(alloc);
    for instr in instrs {
        put_instr(&mut code, &starts, instr)?;
    }
    Ok(code)
}

fn put_instr(to: &mut Bytes, starts: &[u32], instr: &Instr) -> Result<(), Memory>
    ensures { OnOk result (to.new ≡ to.old ++ bytes_of (slice_index starts.now) instr.now) }
{
    match instr {
        Instr::Push(value) => {
            put_number(to, 1, 0x01)?;
            put_number(to, 8, value.cast_unsigned())
        }
        Instr::Load(slot) => {
            put_number(to, 1, 0x02)?;
            put_number(to, 2, u64::from(*slot))
        }
        Instr::Store(slot) => {
            put_number(to, 1, 0x03)?;
            put_number(to, 2, u64::from(*slot))
        }
        Instr::Plain(code) => put_number(to, 1, u64::from(*code)),
        Instr::Jump(code, label) => {
            put_number(to, 1, u64::from(*code))?;
            put_number(to, 4, u64::from(start_at(starts, *label)))
        }
        Instr::Label(_) => Ok(()),
        Instr::Call(_, _) => to.append(&[0x30, 0, 0, 0, 0]),
    }
}

fn start_at(starts: &[u32], label: u16) -> u32
    ensures { result ≡ slice_index starts.now label }
{
    starts.get(usize::from(label)).copied().unwrap_or(0)
}
