ghost use Rattle.std.specs.Prelude.{◌≡◌, true};
ghost use Rattle.inc_session.specs.Saving.{are_writes};

use crate::queue::Queue;
use inc_base::Bytes;

/// Saving and publishing on its way: the steps that are left, the latest of which publishes, and what was
/// compiled. Where none is left it closes its lock by this handle.
#[derive(Drop)]
pub struct Saving {
    pub handle: u32,
    pub diags: Bytes,
    pub image: Bytes,
    pub units: u32,
    pub ops: Queue,
    pub ghost writes: { are_writes ops ≡ true },
}
