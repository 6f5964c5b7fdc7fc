use inc_base::Bytes;
use inc_fs::{Op, Reply};

/// How many units a session emitted, of how many.
#[derive(Clone, Copy, Debug, PartialEq, Eq)]
pub struct Used {
    pub emitted: u32,
    pub units: u32,
}

/// How a session ended (docs/PROTOCOL.md, "The order of a session"). The note says whether a step of its ending
/// was answered by a fault.
#[derive(Debug, Drop)]
pub enum Outcome {
    /// It published: the lines of its diagnostics, and the image.
    Built {
        diags: Bytes,
        image: Bytes,
        used: Used,
        note: bool,
    },
    /// Its text has errors: the lines of its diagnostics.
    Errors {
        diags: Bytes,
        note: bool,
    },
    /// The directory failed before the ending.
    DiskFault,
    /// It lost so many names, all that it draws.
    Lost(u32),
    /// The directory answered this step by a reply that disagrees with the session's own steps.
    Disturbed(Op, Reply),
}
