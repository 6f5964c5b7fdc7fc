//! A few bytes in place.

ghost use Rattle.std.specs.Prelude.{◌≡◌, ◌+◌, ◌≤◌, [], ◌++◌, length, take};

use std::marker::Model;

/// How many bytes there is room for.
pub(crate) const ROOM: usize = 14;

/// At most `ROOM` bytes, which stand in the value itself. Contracts see their list.
#[derive(Drop)]
pub(crate) struct Short {
    count: u8,
    bytes: [u8; ROOM],
}

impl Model for Short {
    ghost use Rattle.std.specs.Prelude.{List, ℕ, take, ◌≤◌};

    ghost Value = { List ℕ };

    ghost view = { λ s. take s.count s.bytes };

    ghost invariant = { λ s. s.count ≤ 14 };
}

impl Short {
    pub(crate) fn new() -> Short
        ensures { result ≡ [] }
    {
        Short {
            count: 0,
            bytes: [0; ROOM],
        }
    }

    pub(crate) fn as_slice(&self) -> &[u8]
        ensures value { result.now ≡ self.now }
        ensures few { length self.now ≤ 14 }
    {
        &self.bytes[..self.count as usize]
    }

    /// The same bytes again.
    pub(crate) fn again(&self) -> Short
        ensures { result ≡ self.now }
    {
        Short {
            count: self.count,
            bytes: self.bytes,
        }
    }

    /// How many more there is room for.
    pub(crate) fn left(&self) -> usize
        ensures { length self.now + result ≡ 14 }
    {
        ROOM - self.count as usize
    }

    /// Adds a piece at the end.
    pub(crate) fn add(&mut self, piece: &[u8])
        requires { length self.old + length piece.now ≤ 14 }
        ensures { self.new ≡ self.old ++ piece.now }
    {
        let from = self.count as usize;
        let to = from + piece.len();
        self.bytes[from..to].copy_from_slice(piece);
        self.count = to as u8;
    }
}
