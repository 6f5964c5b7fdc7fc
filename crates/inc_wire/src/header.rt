ghost use Rattle.std.proofs.Common.{rules};

use inc_base::{Compiler, Copied, Name};

/// What a file begins with: the format of the file, the compiler that wrote it, and the crate that it
/// is of. (docs/FORMATS.md, "Fields")
#[derive(Clone, Debug, Drop)]
pub struct Header {
    pub format: u16,
    pub compiler: Compiler,
    pub krate: Name,
}

impl Copied for Header {
    ghost same = { Prim.search rules };
}
