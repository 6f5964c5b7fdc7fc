ghost use Rattle.std.specs.Prelude.{◌≡◌};
ghost use Rattle.std.proofs.Common.{rules};
ghost use Rattle.rs_text.specs.Faults.{fault_of};

use inc_base::{Bytes, Copied, Memory};
use rs_grammar::SyntaxFault;
use rs_tree::At;
use thiserror::Error;

/// Why a text has no tree: the first of these that it has (docs/LANGUAGE.md, "Faults").
#[derive(Clone, Debug, Drop, Error)]
pub enum TextFault {
    /// The place of the first byte at which no token, separator or comment begins.
    #[error("unexpected byte")]
    Byte(At),
    /// The place of the first `(` or `{` with which more than 64 of them are open.
    #[error("nesting over 64")]
    Nesting(At),
    /// The place of the first token that can't follow those before it, or of the text's end where no token
    /// is at fault and something is missing.
    #[error("syntax error")]
    Syntax(At),
    /// The place and the text of the first name that an earlier item of its module has, or, of a module, an
    /// earlier module.
    #[error("a name is defined twice")]
    Twice(At, Bytes),
    /// There was no memory for the tokens or the tree, or the text is too long for a list.
    #[error("out of memory")]
    Memory,
}

impl Copied for TextFault {
    ghost same = { Prim.search rules };
}

impl From<Memory> for TextFault {
    ghost use Rattle.std.specs.Prelude.{◌≡◌};
    ghost use Rattle.rs_text.specs.declared.fault.TextFault.TheVariants as fault;

    ghost from_gives = { λ _ e. e ≡ fault.Memory };

    fn from(_refused: Memory) -> TextFault {
        TextFault::Memory
    }
}

/// The fault of a text whose tokens have this one.
pub(crate) fn fault_of(fault: SyntaxFault) -> TextFault
    ensures { result ≡ fault_of fault }
{
    match fault {
        SyntaxFault::Nesting(at) => TextFault::Nesting(at),
        SyntaxFault::Syntax(at) => TextFault::Syntax(at),
        SyntaxFault::Twice(at, name) => TextFault::Twice(at, name),
        SyntaxFault::Memory => TextFault::Memory,
    }
}
