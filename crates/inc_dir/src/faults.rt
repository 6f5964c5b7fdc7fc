ghost use Rattle.std.specs.Prelude.{◌≡◌, ◌≤◌};
ghost use Rattle.inc_dir.specs.Replays.{faults_after};

use inc_fs::Reply;

/// A count of faults after a reply.
pub(crate) fn faults_after(faults: u64, reply: &Reply) -> u64
    ensures value { result ≡ faults_after faults reply.now }
    ensures later { faults ≤ result }
{
    if reply.is_fault() {
        faults.saturating_add(1)
    } else {
        faults
    }
}
