ghost use Rattle.std.specs.Prelude.{◌↔◌, IsTrue};
ghost use Rattle.inc_fs.specs.Kinds.{IsKindOf};

use crate::op::{Op, Reply};

/// Whether the reply is of a kind that the table has for this op (docs/PROTOCOL.md, "The table of
/// steps"). A `Fault` always is.
pub fn is_kind_of(op: &Op, reply: &Reply) -> bool
    ensures { IsTrue result ↔ IsKindOf op.now reply.now }
{
    match op {
        Op::Draw => matches!(reply, Reply::Fault | Reply::Drawn(..)),
        Op::MakeLock { .. } => matches!(reply, Reply::Fault | Reply::Handle(_) | Reply::Exists),
        Op::OpenLock { .. } => matches!(reply, Reply::Fault | Reply::Handle(_) | Reply::Missing),
        Op::TryLock { .. } => {
            matches!(
                reply,
                Reply::Fault | Reply::Got | Reply::Held | Reply::Missing
            )
        }
        Op::Look { .. } => matches!(reply, Reply::Fault | Reply::Names(_)),
        Op::ListDir { .. } => matches!(reply, Reply::Fault | Reply::Names(_) | Reply::Missing),
        Op::MakeDir { .. } => matches!(reply, Reply::Fault | Reply::Done | Reply::Exists),
        Op::Read { .. } => matches!(reply, Reply::Fault | Reply::Bytes(_) | Reply::Missing),
        Op::Link { .. } | Op::Create { .. } | Op::Rename { .. } => {
            matches!(
                reply,
                Reply::Fault | Reply::Done | Reply::Missing | Reply::Exists
            )
        }
        Op::Append { .. } | Op::Unlink { .. } | Op::UnlinkLock { .. } | Op::Close { .. } => {
            matches!(reply, Reply::Fault | Reply::Done | Reply::Missing)
        }
        Op::RemoveDir { .. } => {
            matches!(
                reply,
                Reply::Fault | Reply::Done | Reply::Missing | Reply::NotEmpty
            )
        }
    }
}
