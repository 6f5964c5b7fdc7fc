ghost use Rattle.std.specs.Prelude.{◌≡◌, ◌≤◌, ℕ, true, false, IfOk, IfSome, OnErr};
ghost use Rattle.std.specs.BTreeSet.{contains};
ghost use Rattle.inc_fs.specs.Drawn.{pair_cmp};

use inc_base::Memory;
use std::alloc::Global;
use std::collections::BTreeSet;

/// The pairs of a moment and a random part that were drawn.
#[derive(Drop)]
pub struct Draws {
    pairs: BTreeSet<(u64, u32)>,
    last: u64,
}

impl Draws {
    /// None yet. It takes no memory.
    pub fn new(alloc: Global) -> Draws
        ensures { result.last ≡ 0 }
    {
        Draws {
            pairs: BTreeSet::new(alloc),
            last: 0,
        }
    }

    /// Draws a new pair: the moment is the greater of this one and the last drawn one, and the random part
    /// the first free one from `first` on. The pairs of before stay. `Memory` draws nothing, and also comes
    /// where none is free.
    pub fn draw(&mut self, moment: u64, first: u32) -> Result<(u64, u32), Memory>
        ensures moment { IfOk result (λ pair. moment ≤ pair.0) }
        ensures later { IfOk result (λ pair. (self.old.last ≤ pair.0) × (self.new.last ≡ pair.0)) }
        ensures fresh { IfOk result (λ pair. contains pair_cmp self.old.pairs pair ≡ false) }
        ensures noted { IfOk result (λ pair. contains pair_cmp self.new.pairs pair ≡ true) }
        ensures stay { (pair : ℕ × ℕ) → contains pair_cmp self.old.pairs pair ≡ true → contains pair_cmp self.new.pairs pair ≡ true }
        ensures err { OnErr result ((self.new.last ≡ self.old.last) × ((pair : ℕ × ℕ) → contains pair_cmp self.new.pairs pair ≡ contains pair_cmp self.old.pairs pair)) }
    {
        let moment = moment.max(self.last);
        let Some(random) = first_free(&self.pairs, moment, first) else {
            return Err(Memory);
        };
        self.pairs.insert((moment, random))?;
        self.last = moment;
        Ok((moment, random))
    }
}

/// The first random part, from this one on and round, that makes a new pair with the moment.
fn first_free(pairs: &BTreeSet<(u64, u32)>, moment: u64, first: u32) -> Option<u32>
    ensures { IfSome result (λ random. contains pair_cmp pairs.now (moment, random) ≡ false) }
{
    for step in 0..=u32::MAX {
        let random = first.wrapping_add(step);
        if !pairs.contains(&(moment, random)) {
            return Some(random);
        }
    }
    None
}
