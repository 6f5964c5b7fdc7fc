//! A session's name and its own lock, brought forward by one of its steps.
ghost use Rattle.std.specs.Prelude.{◌≡◌};
ghost use Rattle.inc_proto.specs.Views.{name_after, own_after, tried_own, closed_own};

use crate::own::OwnLock;
use inc_fs::{Op, Reply};
use inc_names::SessionName;

/// Its name after a step.
pub(crate) fn name_after(step: &(Op, Reply), before: Option<SessionName>) -> Option<SessionName>
    ensures { result ≡ name_after step.now before }
{
    match (&step.0, &step.1) {
        (Op::Draw, Reply::Drawn(moment, random)) => Some(SessionName {
            moment: *moment,
            random: *random,
        }),
        _ => before,
    }
}

fn tried_own(handle: u32, exclusive: bool, before: OwnLock) -> OwnLock
    ensures { result ≡ tried_own handle exclusive before }
{
    match before {
        OwnLock::NoLock => OwnLock::NoLock,
        OwnLock::Unlocked(h) => {
            if exclusive && handle == h {
                OwnLock::Locked(h)
            } else {
                OwnLock::Unlocked(h)
            }
        }
        OwnLock::Locked(h) => {
            if !exclusive && handle == h {
                OwnLock::NoLock
            } else {
                OwnLock::Locked(h)
            }
        }
    }
}

fn closed_own(handle: u32, before: OwnLock) -> OwnLock
    ensures { result ≡ closed_own handle before }
{
    match before {
        OwnLock::NoLock => OwnLock::NoLock,
        OwnLock::Unlocked(h) | OwnLock::Locked(h) => {
            if handle == h { OwnLock::NoLock } else { before }
        }
    }
}

/// Its own lock after a step.
pub(crate) fn own_after(step: &(Op, Reply), before: OwnLock) -> OwnLock
    ensures { result ≡ own_after step.now before }
{
    match (&step.0, &step.1) {
        (Op::Draw, Reply::Drawn(_, _)) => OwnLock::NoLock,
        (Op::MakeLock { .. }, Reply::Handle(handle)) => OwnLock::Unlocked(*handle),
        (Op::TryLock { handle, exclusive }, Reply::Got) => tried_own(*handle, *exclusive, before),
        (Op::Close { handle }, Reply::Done) => closed_own(*handle, before),
        _ => before,
    }
}
