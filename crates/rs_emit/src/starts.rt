ghost use Rattle.std.specs.Prelude.{◌≡◌, ℕ, ◌<◌, ◌≤◌, ◌==◌, ◌^◌, if◌then◌else◌, slice_index, IfOk, OnOk};
ghost use Rattle.rs_emit.specs.Code.{size, sizes, is_place, offset};

use inc_base::{MOST, Memory};
use rs_tree::Instr;
use std::alloc::Global;

/// The offset of each label: the sum of the lengths before its place. `Memory` where the code is longer
/// than a list may be.
pub(crate) fn starts_of(alloc: Global, code: &[Instr]) -> Result<Vec<u32>, Memory>
    ensures starts { IfOk result (λ v. (l : ℕ) → slice_index v.items l ≡ offset code.now l) }
    ensures few { IfOk result (λ v. sizes code.now < 2 ^ 32) }
{
    let mut starts = Vec::new(alloc);
    let mut at = 0;
    for instr in code {
        place(&mut starts, instr, at)?;
        if at > MOST - size_of(instr) {
            return Err(Memory);
        }
        at += size_of(instr);
    }
    Ok(starts)
}

/// Notes where a label stands.
fn place(starts: &mut Vec<u32>, instr: &Instr, at: usize) -> Result<(), Memory>
    requires { at < 2 ^ 32 }
    ensures { OnOk result ((l : ℕ) → slice_index starts.new.items l ≡ (if is_place l instr.now then at else slice_index starts.old.items l)) }
{
    match instr {
        Instr::Label(label) => set_at(starts, usize::from(*label), at as u32),
        _ => Ok(()),
    }
}

fn set_at(starts: &mut Vec<u32>, label: usize, at: u32) -> Result<(), Memory>
    requires { label < 2 ^ 16 }
    ensures { OnOk result ((l : ℕ) → slice_index starts.new.items l ≡ (if l == label then at else slice_index starts.old.items l)) }
{
    while starts.len() <= label {
        starts.push(0)?;
    }
    starts[label] = at;
    Ok(())
}

pub(crate) fn size_of(instr: &Instr) -> usize
    ensures size { result ≡ size instr.now }
    ensures small { result ≤ 9 }
{
    match instr {
        Instr::Push(_) => 9,
        Instr::Load(_) | Instr::Store(_) => 3,
        Instr::Plain(_) => 1,
        Instr::Jump(_, _) | Instr::Call(_, _) => 5,
        Instr::Label(_) => 0,
    }
}
