//! What compiling gives.

use inc_base::{Bytes, List};

/// What a text without error gives (docs/FORMATS.md, "A build").
#[derive(Debug, Drop)]
pub struct Built {
    /// Of each unit, in unit order, its text, which is `crate` or its module, and the bytes of its object.
    pub objects: List<(Bytes, Bytes)>,
    /// The image that the objects are linked to; None where they can't be.
    pub image: Option<Bytes>,
}

/// What is compiled of a text.
#[derive(Debug, Drop)]
pub struct Compiled {
    /// The diagnostics, each on a line of its own.
    pub diags: Bytes,
    /// How many units its tree has; 0 where it has none.
    pub units: u32,
    /// None exactly where a line is an error's.
    pub built: Option<Built>,
}

/// The clean build of a text: what is compiled of it, without the objects.
#[derive(Debug, Drop)]
pub struct CleanBuild {
    /// The diagnostics, each on a line of its own.
    pub diags: Bytes,
    /// None where a line is an error's, and where the objects can't be linked.
    pub image: Option<Bytes>,
    /// How many units its tree has; 0 where it has none.
    pub units: u32,
}
