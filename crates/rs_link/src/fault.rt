ghost use Rattle.std.specs.Prelude.{◌≡◌};

use inc_base::{Bytes, Memory};
use thiserror::Error;

/// Why objects don't link.
#[derive(Debug, Drop, Error)]
pub enum LinkFault {
    /// No function has this symbol, which a relocation names, or which is `main`.
    #[error("no function has a symbol")]
    Undefined(Bytes),
    /// Two functions have this symbol.
    #[error("two functions have one symbol")]
    Twice(Bytes),
    /// There is no memory for the image or the symbols, or there are more functions than a list may have.
    #[error("out of memory")]
    Memory,
}

impl From<Memory> for LinkFault {
    ghost use Rattle.rs_link.specs.declared.fault.LinkFault.TheVariants as faults;

    ghost from_gives = { λ _ e. e ≡ faults.Memory };

    fn from(_full: Memory) -> LinkFault {
        LinkFault::Memory
    }
}
