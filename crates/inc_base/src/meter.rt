ghost use Rattle.std.specs.Prelude.{◌≡◌, ◌+◌, ◌<◌, ◌^◌, ℕ};
ghost use Rattle.inc_base.specs.Meters.{ticked, raised};

use std::marker::Model;

/// A count of emitted units. It stands still at `u64::MAX`, and takes no memory.
#[derive(Debug, Drop)]
pub struct Meter {
    count: u64,
}

impl Model for Meter {
    ghost use Rattle.std.specs.Prelude.{ℕ};

    ghost Value = { ℕ };

    ghost view = { λ m. m.count };
}

impl Meter {
    /// A meter at 0.
    pub fn new() -> Meter
        ensures { result ≡ 0 }
    {
        Meter { count: 0 }
    }

    /// Raises the count by one.
    pub fn tick(&mut self)
        ensures { self.new ≡ ticked self.old }
    {
        self.count = self.count.saturating_add(1);
    }

    /// How often it ticked.
    pub fn count(&self) -> u64
        ensures { result ≡ self.now }
    {
        self.count
    }
}

/// Rises of a count add up, and a rise by one is a tick.
pub fn rises_add_up()
    ensures none { (count : ℕ) → raised count 0 ≡ count }
    ensures more { (count m n : ℕ) → raised (raised count m) n ≡ raised count (m + n) }
    ensures one { (count : ℕ) → count < 2 ^ 64 → raised count 1 ≡ ticked count }
{}
