use inc_base::Bytes;
use inc_session::Used;
use rs_queries::CleanBuild;

/// What a command comes to where nothing refused it, before any of it is written.
#[derive(Drop)]
pub enum Answer {
    /// A session published: the lines of the diagnostics, the image, how many units it emitted, of how many, and
    /// whether a step of its ending was answered by a fault.
    Built {
        diags: Bytes,
        image: Bytes,
        used: Used,
        note: bool,
    },
    /// A session's text has errors: the lines of the diagnostics, and the same note.
    Failed {
        diags: Bytes,
        note: bool,
    },
    /// A clean build.
    Cleaned(CleanBuild),
}
