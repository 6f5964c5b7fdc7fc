ghost use Rattle.std.specs.Prelude.{◌≡◌, ◌≤◌, ◌+◌, ◌<◌, ◌⊎◌, length, ℕ, List, true, false, None, is_ok, IfOk, OnOk, OnErr, ◌∷◌, []};
ghost use Rattle.inc_base.specs.Outside.{Rose};
ghost use Rattle.inc_fs.specs.Kinds.{IsKindOf};
ghost use Rattle.inc_fs.specs.declared.op.Reply.TheVariants.{Fault};
ghost use Rattle.inc_proto.specs.declared.event.Event.TheVariants.{Begin, Did, Left};
ghost use Rattle.inc_proto.specs.Growth.{TellsOn};
ghost use Rattle.inc_dir.specs.Replays.{next_reply, answered};

use crate::dir::Dir;
use crate::faults::faults_after;
use inc_base::{Copied, Job, List, Memory};
use inc_fs::{Op, Reply, is_kind_of};
use inc_proto::Content;
use std::marker::Model;

/// A directory that answers from a list, and tells nothing.
///
/// Each step uses up the next reply, and answers it where its kind stands in the step's row, else `Fault`.
/// Past the end it answers `Fault`. Its count rises at each `Fault`.
#[derive(Drop)]
pub struct ReplayDir {
    replies: List<Reply>,
    at: usize,
    runs: bool,
    faults: u64,
}

impl Model for ReplayDir {
    ghost use Rattle.std.specs.Prelude.{drop, length, ◌≤◌};
    ghost use Rattle.inc_dir.specs.Replays.{Replaying};

    ghost Value = { Replaying };

    ghost view = { λ d. record { left = drop d.at d.replies; runs = d.runs; faults = d.faults } };

    ghost invariant = { λ d. d.at ≤ length d.replies };
}

impl ReplayDir {
    /// A directory with these replies, in which no session runs.
    pub fn new(replies: List<Reply>) -> ReplayDir
        ensures { result ≡ record { left = replies; runs = false; faults = 0 } }
    {
        ReplayDir {
            replies,
            at: 0,
            runs: false,
            faults: 0,
        }
    }
}

/// The next reply, where it is one of the op's row, else `Fault`.
fn next_reply(left: &[Reply], op: &Op) -> Result<Reply, Memory>
    ensures value { IfOk result (λ reply. reply ≡ next_reply left.now op.now) }
    ensures kind { IfOk result (λ reply. IsKindOf op.now reply) }
{
    match left.first() {
        Some(reply) if is_kind_of(op, reply) => Ok(reply.copy()?),
        _ => Ok(Reply::Fault),
    }
}

/// The place after this one, but none past the end.
fn place_after(at: usize, len: usize) -> usize
    requires { at ≤ len }
    ensures { (at < len) × (result ≡ at + 1) ⊎ (at ≡ len) × (result ≡ len) }
{
    if at < len { at + 1 } else { len }
}

impl ReplayDir {
    /// Uses up the next reply.
    fn answer(&mut self, op: &Op) -> Result<Reply, Memory>
        ensures value { IfOk result (λ reply. reply ≡ next_reply self.old.left op.now) }
        ensures kind { IfOk result (λ reply. IsKindOf op.now reply) }
        ensures ok { IfOk result (λ reply. self.new ≡ answered self.old reply) }
        ensures later { self.old.faults ≤ self.new.faults }
        ensures err { OnErr result (self.new ≡ self.old) }
    {
        let reply = next_reply(&self.replies.as_slice()[self.at..], op)?;
        self.at = place_after(self.at, self.replies.len());
        self.faults = faults_after(self.faults, &reply);
        Ok(reply)
    }
}

impl<C: Content> Dir<C> for ReplayDir {
    ghost told = { λ _. None };

    ghost runs = { λ d. d.runs };

    ghost own = { λ _. [] };

    ghost faults = { λ d. d.faults };

    fn begin(&mut self, job: Job) -> Result<(), Memory>
        requires { self.old.runs ≡ false }
        ensures runs { self.new.runs ≡ is_ok result }
        ensures faults { self.old.faults ≤ self.new.faults }

        // A session runs, and all else is as before.
        ensures begun { OnOk result (self.new ≡ record self.old { runs = true }) }
        ensures kept { OnErr result (self.new ≡ self.old) }
    {
        drop(job);
        self.runs = true;
        Ok(())
    }

    fn act(&mut self, op: Op) -> Result<Reply, Memory>
        requires { self.old.runs ≡ true }
        ensures runs { self.new.runs ≡ true }
        ensures kind { IfOk result (λ reply. IsKindOf op reply) }
        ensures faults { self.old.faults ≤ self.new.faults }
        ensures cause { IfOk result (λ reply. reply ≡ Fault → Rose self.old.faults self.new.faults) }

        // The answer is the next reply, where it is of the op's row, else a fault; after `Memory` nothing was used up.
        ensures next { IfOk result (λ reply. reply ≡ next_reply self.old.left op) }
        ensures used { IfOk result (λ reply. self.new ≡ answered self.old reply) }
        ensures kept { OnErr result (self.new ≡ self.old) }
    {
        let answer = self.answer(&op);
        drop(op);
        answer
    }

    fn leave(&mut self)
        requires { self.old.runs ≡ true }
        ensures faults { self.old.faults ≤ self.new.faults }

        // No session runs, and all else is as before.
        ensures left { self.new ≡ record self.old { runs = false } }
    {
        self.runs = false;
    }
}
