ghost use Rattle.std.specs.Prelude.{◌≡◌};

use inc_base::{Copied, Job, List};
use inc_fs::{Op, Reply};
use std::alloc::AllocError;

/// What happened in a directory (docs/PROTOCOL.md, "Histories"). Sessions are numbered from 0, in the
/// order in which they began.
#[derive(Debug, Drop)]
pub enum Event {
    /// The session of this number began, with its job.
    Begin(u32, Job),
    /// The session made a step, and got this reply.
    Did(u32, Op, Reply),
    /// The session left. It was stopped within an append, which had added up to so many of its first bytes,
    /// or between two steps.
    Left(u32, Option<Op>, u32),
}

// By hand, with the op copied last: a derived clone ends an op, variant by variant, where the reply finds no
// memory, and takes minutes to check.
impl Clone for Event {
    ghost is_clone = { λ x y. y ≡ x };

    fn clone(&self) -> Result<Event, AllocError> {
        match self {
            Event::Begin(number, job) => Ok(Event::Begin(*number, job.clone()?)),
            Event::Did(number, op, reply) => {
                let reply = reply.clone()?;
                match op.clone() {
                    Ok(op) => Ok(Event::Did(*number, op, reply)),
                    Err(refused) => {
                        drop(reply);
                        Err(refused)
                    }
                }
            }
            Event::Left(number, None, cut) => Ok(Event::Left(*number, None, *cut)),
            Event::Left(number, Some(op), cut) => Ok(Event::Left(*number, Some(op.clone()?), *cut)),
        }
    }
}

impl Copied for Event {
    ghost same = { λ x y e. e };
}

/// Events in the order in which they happened.
pub type History = List<Event>;
