ghost use Rattle.std.specs.Prelude.{None};

use inc_base::{Bytes, Failed, Sink};
use std::alloc::Global;

/// A sink that takes one byte a call, so many times, and then fails.
#[derive(Drop)]
pub struct Narrow {
    bytes: Bytes,
    left: u32,
    faults: u64,
}

impl Narrow {
    pub fn new(alloc: Global, left: u32) -> Narrow {
        Narrow {
            bytes: Bytes::new(alloc),
            left,
            faults: 0,
        }
    }

    pub fn into_bytes(self) -> Bytes {
        let Narrow {
            bytes,
            left: _,
            faults: _,
        } = self;
        bytes
    }
}

impl Sink for Narrow {
    ghost held = { λ _. None };

    ghost faults = { λ s. s.faults };

    fn write(&mut self, from: &[u8]) -> Result<usize, Failed> {
        let [first, ..] = from else {
            return Ok(0);
        };
        if self.left == 0 || self.bytes.push(*first).is_err() {
            self.faults = self.faults.saturating_add(1);
            return Err(Failed);
        }
        self.left -= 1;
        Ok(1)
    }
}
