ghost use Rattle.std.specs.Prelude.{◌≡◌};
ghost use Rattle.std.proofs.Common.{rules};

use inc_base::Copied;

/// What a session is named by: when it began, in microseconds, and a random part.
/// (docs/PROTOCOL.md, "Names")
#[derive(Clone, Copy, Debug, PartialEq, Eq)]
pub struct SessionName {
    pub moment: u64,
    pub random: u32,
}

impl Copied for SessionName {
    ghost same = { Prim.search rules };
}
