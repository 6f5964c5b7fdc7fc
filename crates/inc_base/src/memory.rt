ghost use Rattle.std.specs.Prelude.{◌≡◌};

use std::alloc::{AllocError, AllocFailed};
use thiserror::Error;

/// Want of memory: the allocator refused, or a list is full, or a number has no successor left.
///
/// It is the one answer that no contract ties to a cause, and no other answer is merged with it. The
/// value that a call was made on is as before unless the call says otherwise (docs/ARCHITECTURE.md,
/// "Idioms").
#[derive(Clone, Copy, Debug, PartialEq, Eq, Error)]
#[error("out of memory")]
pub struct Memory;

impl From<AllocError> for Memory {
    fn from(_refused: AllocError) -> Memory {
        Memory
    }
}

impl<T: Drop> From<AllocFailed<T>> for Memory {
    fn from(_refused: AllocFailed<T>) -> Memory {
        Memory
    }
}
