ghost use Rattle.std.specs.Prelude.{◌≡◌, ◌∷◌, ◌<◌, ◌^◌, [], OnOk, OnErr, IfOk, IfSome, IfNone};
ghost use Rattle.inc_fs.specs.Drawn.{AreDrawnUpTo};
ghost use Rattle.inc_fs.specs.Lists.{IsIn};
ghost use Rattle.inc_fs.specs.State.{last_moment};

use crate::table::Table;
use inc_base::Memory;
use std::alloc::Global;
use std::marker::Model;

/// The pairs drawn so far, which contracts see as a list, the latest first.
///
/// Beside each pair stands a random part to go on with: all from the pair's own up to that one are drawn
/// with its moment. A search shortens the ways that it goes, so that one from the same place is short.
#[derive(Drop)]
pub struct DrawnPairs {
    in_order: Vec<(u64, u32)>,
    skips: Table<(u64, u32), u32>,
}

impl Model for DrawnPairs {
    ghost use Rattle.std.specs.Prelude.{ℕ, List, reverse};
    ghost use Rattle.inc_fs.specs.Drawn.{AreSkips};

    ghost Value = { List (ℕ × ℕ) };

    ghost view = { λ d. reverse d.in_order.items };

    ghost invariant = { λ d. AreSkips (reverse d.in_order.items) d.skips };
}

impl DrawnPairs {
    pub(crate) fn new(alloc: Global) -> DrawnPairs
        ensures { result ≡ [] }
    {
        DrawnPairs {
            in_order: Vec::new(alloc),
            skips: Table::new(alloc),
        }
    }

    /// The moment of the latest pair, or 0.
    pub(crate) fn last_moment(&self) -> u64
        ensures value { result ≡ last_moment self.now }
        ensures few { result < 2 ^ 64 }
    {
        match self.in_order.last() {
            None => 0,
            Some((moment, _)) => *moment,
        }
    }

    /// Where to go on from a drawn pair, and None where it wasn't drawn.
    fn next(&self, moment: u64, random: u32) -> Option<u32>
        ensures some { IfSome result (λ next. IsIn self.now (moment, random) × AreDrawnUpTo self.now moment random next) }
        ensures none { IfNone result (¬ IsIn self.now (moment, random)) }
    {
        self.skips.get(&(moment, random)).copied()
    }

    /// Notes where to go on from a drawn pair.
    fn set_next(&mut self, moment: u64, random: u32, next: u32)
        requires drawn { IsIn self.old (moment, random) }
        requires skip { AreDrawnUpTo self.old moment random next }
        ensures { self.new ≡ self.old }
    {
        self.skips.replace(&(moment, random), next);
    }

    /// The first random part, from this one on and wrapping, that makes a new pair with the moment. The
    /// pairs stay. `Memory` where none is found.
    pub(crate) fn first_new(&mut self, moment: u64, random: u32) -> Result<u32, Memory>
        ensures new { IfOk result (λ found. ¬ (IsIn self.old (moment, found))) }
        ensures first { IfOk result (λ found. AreDrawnUpTo self.old moment random found) }
        ensures kept { self.new ≡ self.old }
    {
        let mut at = random;
        for _ in 0..u32::MAX {
            let Some(next) = self.next(moment, at) else {
                return Ok(at);
            };
            let Some(further) = self.next(moment, next) else {
                return Ok(next);
            };
            self.set_next(moment, at, further);
            at = further;
        }
        Err(Memory)
    }

    /// Notes a pair as the latest. After `Memory` it is as before.
    pub(crate) fn push(&mut self, moment: u64, random: u32) -> Result<(), Memory>
        ensures ok { OnOk result (self.new ≡ (moment, random) ∷ self.old) }
        ensures err { OnErr result (self.new ≡ self.old) }
    {
        self.in_order.reserve(1)?;
        let next = random.wrapping_add(1);
        self.skips.insert((moment, random), next)?;
        self.in_order.push((moment, random)).unwrap();
        Ok(())
    }
}
