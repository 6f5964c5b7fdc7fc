ghost use Rattle.std.specs.Prelude.{IfOk, IfSome};
ghost use Rattle.inc_fs.specs.Kinds.{IsKindOf};

use crate::stop::{Failure, Stop};
use inc_base::{List, Memory};
use inc_fs::{Op, Reply};
use std::alloc::Global;
use std::io::ErrorKind;

/// The reply to a step that wasn't made: `Ok` with the one of its row, where there is one, and `Err` with the
/// failure for which it is `Fault`.
///
/// This is the one place where what the system answers becomes a reply (docs/PROTOCOL.md, "What the system
/// answers").
pub fn reply_to(alloc: Global, op: &Op, stop: Stop) -> Result<Result<Reply, Failure>, Memory>
    ensures { IfOk result (λ answer. IfOk answer (λ reply. IsKindOf op.now reply)) }
{
    let (reply, number) = match stop {
        Stop::Memory => return Err(Memory),
        Stop::Failed(failure) => return Ok(Err(failure)),
        Stop::Absent => (absent(alloc, op), None),
        Stop::Taken => (taken(op), None),
        Stop::System(kind, number) => (of_kind(alloc, op, kind), number),
    };
    match reply {
        Some(reply) => Ok(Ok(reply)),
        None => Ok(Err(Failure::System(number))),
    }
}

/// The reply where the system answered with an error of this kind.
fn of_kind(alloc: Global, op: &Op, kind: ErrorKind) -> Option<Reply>
    ensures { IfSome result (λ reply. IsKindOf op.now reply) }
{
    match kind {
        ErrorKind::NotFound => absent(alloc, op),
        ErrorKind::AlreadyExists | ErrorKind::DirectoryNotEmpty => taken(op),
        _ => None,
    }
}

/// The reply where nothing has a name that the step asks for. A crate directory that nobody made is empty.
fn absent(alloc: Global, op: &Op) -> Option<Reply>
    ensures { IfSome result (λ reply. IsKindOf op.now reply) }
{
    match op {
        Op::Look { .. } => Some(Reply::Names(List::new(alloc))),
        Op::OpenLock { .. }
        | Op::ListDir { .. }
        | Op::Link { .. }
        | Op::Read { .. }
        | Op::Create { .. }
        | Op::Append { .. }
        | Op::Unlink { .. }
        | Op::UnlinkLock { .. }
        | Op::RemoveDir { .. }
        | Op::Rename { .. } => Some(Reply::Missing),
        Op::Draw
        | Op::MakeLock { .. }
        | Op::TryLock { .. }
        | Op::MakeDir { .. }
        | Op::Close { .. } => None,
    }
}

/// The reply where something has the name that the step would give, or is in the folder that it would remove.
fn taken(op: &Op) -> Option<Reply>
    ensures { IfSome result (λ reply. IsKindOf op.now reply) }
{
    match op {
        Op::MakeLock { .. }
        | Op::MakeDir { .. }
        | Op::Link { .. }
        | Op::Create { .. }
        | Op::Rename { .. } => Some(Reply::Exists),
        Op::RemoveDir { .. } => Some(Reply::NotEmpty),
        _ => None,
    }
}
