ghost use Rattle.std.proofs.Common.{rules};

use inc_base::{Copied, Memory};
use rs_tree::At;
use thiserror::Error;

/// Why a text has no tokens.
#[derive(Clone, Copy, Debug, PartialEq, Eq, Error)]
pub enum LexFault {
    /// The place of the first byte at which no token, separator or comment begins.
    #[error("unexpected byte")]
    At(At),
    /// The tokens find no memory, or the text is too long for a list.
    #[error("out of memory")]
    Memory,
}

impl Copied for LexFault {
    ghost same = { Prim.search rules };
}

impl From<Memory> for LexFault {
    ghost use Rattle.std.specs.Prelude.{◌≡◌};
    ghost use Rattle.rs_lex.specs.declared.fault.LexFault.TheVariants as fault;

    ghost from_gives = { λ _ e. e ≡ fault.Memory };

    fn from(_refused: Memory) -> LexFault {
        LexFault::Memory
    }
}
