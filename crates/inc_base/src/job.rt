ghost use Rattle.std.specs.Prelude.{◌≡◌, ◌<◌};
ghost use Rattle.std.proofs.Common.{rules};

use crate::bytes::Bytes;
use crate::copied::Copied;
use crate::label::Name;

/// The version of this compiler.
pub const VERSION: u32 = 1;

/// A compiler: its version, and the level that it optimises at, which is 0 or 1.
///
/// Sessions of another compiler are never used (docs/PROTOCOL.md, "Names").
#[derive(Clone, Copy, Debug, PartialEq, Eq)]
pub struct Compiler {
    pub version: u32,
    pub level: u8,
    pub ghost level_is: { level < 2 },
}

impl Copied for Compiler {
    ghost same = { Prim.search rules };
}

/// What a session is to compile: the text of a crate, by a compiler.
#[derive(Clone, Debug, Drop)]
pub struct Job {
    pub krate: Name,
    pub compiler: Compiler,
    pub text: Bytes,
}

impl Copied for Job {
    ghost same = { Prim.search rules };
}
