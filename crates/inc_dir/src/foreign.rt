use inc_fs::{Chance, Op};

/// A step of another session, which is made before own act number `before`, counted from 0, where that
/// session runs and may make it, and else is skipped.
#[derive(Debug, Drop)]
pub struct Foreign {
    /// Before which act of the directory's own sessions it is made.
    pub before: u32,
    /// The number of the session that makes it. One of the directory's own sessions never does.
    pub who: u32,
    pub op: Op,
    pub chance: Chance,
}
