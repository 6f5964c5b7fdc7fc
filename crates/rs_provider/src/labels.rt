//! The labels of an intermediate form.

ghost use Rattle.std.specs.Prelude.{◌≡◌, IfOk};
ghost use Rattle.std.specs.List.{list_all};
ghost use Rattle.rs_tree.specs.Labels.{count_of_places};
ghost use Rattle.rs_plans.specs.Readings.{has_label, has_labels};
ghost use Rattle.rs_provider.specs.Counts.{AreCounted};

use inc_base::Memory;
use rs_tree::{Instr, Ir};
use std::alloc::Global;
use std::collections::BTreeMap;
use std::marker::Model;

/// Whether each label that a jump names has exactly one place.
pub(crate) fn has_labels(ir: &Ir) -> Result<bool, Memory>
    ensures { IfOk result (λ b. b ≡ has_labels ir.now) }
{
    let labels = Labels::of(ir.code.allocator(), ir.code.as_slice())?;
    let placed = labels.are_placed();
    drop(labels);
    Ok(placed)
}

/// Instructions, and how many places each label has among them. Contracts see them as the instructions.
#[derive(Drop)]
struct Labels<'a> {
    code: &'a [Instr],
    counts: BTreeMap<u16, usize>,
}

impl<'a> Model for Labels<'a> {
    ghost use Rattle.std.specs.Prelude.{List};
    ghost use Rattle.rs_tree.specs.declared.ir.Instr.{Instr};
    ghost use Rattle.rs_provider.specs.Counts.{AreCounted};

    ghost Value = { List Instr };

    ghost view = { λ l. l.code.now };

    ghost invariant = { λ l. AreCounted l.counts l.code.now };
}

impl<'a> Labels<'a> {
    fn of(alloc: Global, code: &'a [Instr]) -> Result<Labels<'a>, Memory>
        ensures { IfOk result (λ l. l ≡ code.now) }
    {
        let counts = counts_of(alloc, code)?;
        Ok(Labels { code, counts })
    }

    fn are_placed(&self) -> bool
        ensures { result ≡ list_all (has_label self.now) self.now }
    {
        self.code.iter().all(|instr| self.has(instr))
    }

    fn has(&self, instr: &Instr) -> bool
        ensures { result ≡ has_label self.now instr.now }
    {
        match instr {
            Instr::Jump(_, label) => self.count(*label) == 1,
            _ => true,
        }
    }

    fn count(&self, label: u16) -> usize
        ensures { result ≡ count_of_places label self.now }
    {
        self.counts.get(&label).copied().unwrap_or(0)
    }
}

// How many places each label has.
fn counts_of(alloc: Global, code: &[Instr]) -> Result<BTreeMap<u16, usize>, Memory>
    ensures { IfOk result (λ counts. AreCounted counts code.now) }
{
    let mut counts = BTreeMap::new(alloc);
    for i in (0..code.len()).rev() {
        if let Instr::Label(label) = &code[i] {
            let more = counts.get(label).copied().unwrap_or(0);
            counts.insert(*label, more + 1)?;
        }
    }
    Ok(counts)
}
