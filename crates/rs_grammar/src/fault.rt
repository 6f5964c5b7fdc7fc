ghost use Rattle.std.proofs.Common.{rules};

use inc_base::{Bytes, Copied, Memory};
use rs_tree::At;
use std::alloc::AllocError;
use thiserror::Error;

/// Why tokens have no tree: the first of these that the text has (docs/LANGUAGE.md, "Faults").
#[derive(Clone, Debug, Drop, Error)]
pub enum SyntaxFault {
    /// The place of the first `(` or `{` with which more than 64 of them are open.
    #[error("nesting over 64")]
    Nesting(At),
    /// The place of the first token that can't follow those before it, or of the text's end where no token
    /// is at fault and something is missing.
    #[error("syntax error")]
    Syntax(At),
    /// The place and the text of the first name that an earlier item of its module has, or, of a module, an
    /// earlier module.
    #[error("a name is defined twice")]
    Twice(At, Bytes),
    /// There was no memory for the tree.
    #[error("out of memory")]
    Memory,
}

impl Copied for SyntaxFault {
    ghost same = { Prim.search rules };
}

impl From<Memory> for SyntaxFault {
    ghost use Rattle.std.specs.Prelude.{◌≡◌};
    ghost use Rattle.rs_grammar.specs.declared.fault.SyntaxFault.TheVariants as fault;

    ghost from_gives = { λ _ e. e ≡ fault.Memory };

    fn from(_error: Memory) -> SyntaxFault {
        SyntaxFault::Memory
    }
}

impl From<AllocError> for SyntaxFault {
    ghost use Rattle.std.specs.Prelude.{◌≡◌};
    ghost use Rattle.rs_grammar.specs.declared.fault.SyntaxFault.TheVariants as fault;

    ghost from_gives = { λ _ e. e ≡ fault.Memory };

    fn from(_error: AllocError) -> SyntaxFault {
        SyntaxFault::Memory
    }
}
