ghost use Rattle.std.specs.Prelude.{◌≡◌};
ghost use Rattle.std.proofs.Common.{rules};

use crate::session::SessionName;
use inc_base::Copied;

/// An entry of a crate's directory. (docs/PROTOCOL.md, "Names")
#[derive(Clone, Copy, Debug, PartialEq, Eq)]
pub enum Entry {
    /// The session's lock file.
    Lock(SessionName),
    /// The directory that the session works in.
    Working(SessionName),
    /// The directory that it published, with its job's hash.
    Final(SessionName, u128),
}

impl Copied for Entry {
    ghost same = { Prim.search rules };
}
