use inc_base::Bytes;
use inc_names::SessionName;

/// The step of an ending after errors that is asked for.
#[derive(Clone, Copy, Debug)]
pub enum FailingAt {
    RemoveDir(SessionName),
    UnlinkLock(SessionName),
    /// Whether a step before it was answered by a fault.
    Close(bool),
}

/// An ending after errors on its way, with the lines of its diagnostics.
#[derive(Drop)]
pub struct Failing {
    pub handle: u32,
    pub diags: Bytes,
    pub at: FailingAt,
}
