ghost use Rattle.std.specs.Prelude.{◌≡◌, ◌∷◌, [], OnOk, OnErr, IfSome, reverse};
ghost use Rattle.inc_fs.specs.declared.op.Op.TheVariants.{Draw};
ghost use Rattle.inc_fs.specs.declared.op.Reply.TheVariants.{Fault};
ghost use Rattle.inc_proto.specs.Events.{Steps};
ghost use Rattle.inc_proto.specs.Indexes.{Indexes};
ghost use Rattle.inc_proto.specs.Seen.{HasPlace};
ghost use Rattle.inc_proto.specs.Views.{name, own, dir};

use crate::forward::{name_after, own_after};
use crate::index::{Index, bring_index, keep_index};
use crate::own::OwnLock;
use crate::own_dir::{OwnDir, kept_after, kept_again};
use inc_base::{Copied, Job, List, Memory};
use inc_fs::{Op, Reply};
use inc_names::SessionName;
use std::marker::Model;
use std::mem;

/// What a session sees: its number, its job, and its own steps with their replies. What it holds, has
/// listed and knows is read from these steps alone (docs/PROTOCOL.md, "What a session may do").
#[derive(Drop)]
pub struct View {
    who: u32,
    job: Job,
    steps: List<(Op, Reply)>,
    drawn: Option<SessionName>,
    lock: OwnLock,
    /// Its directory, where there was memory to bring it forward.
    kept: Option<OwnDir>,
    /// The index of its steps, where there was.
    index: Option<Index>,
}

impl Model for View {
    ghost use Rattle.std.specs.Prelude.{reverse};
    ghost use Rattle.inc_proto.specs.Seen.{Seen, AreOf};

    ghost Value = { Seen };

    ghost view = { λ v. record { number = v.who; job = v.job; steps = reverse v.steps } };

    ghost invariant = { λ v. AreOf (reverse v.steps) v.drawn v.lock v.kept v.index };
}

impl View {
    /// The view of a session that has just begun.
    pub fn new(who: u32, job: Job) -> View
        ensures { result ≡ record { number = who; job = job; steps = [] } }
    {
        let alloc = job.text.allocator();
        View {
            who,
            job,
            steps: List::new(alloc),
            drawn: None,
            lock: OwnLock::NoLock,
            kept: Some(OwnDir::new(alloc)),
            index: Some(Index::new(alloc)),
        }
    }

    /// The session's number.
    pub fn number(&self) -> u32
        ensures { result ≡ self.now.number }
    {
        self.who
    }

    /// Its job.
    pub fn job(&self) -> &Job
        ensures { result.now ≡ self.now.job }
    {
        &self.job
    }

    /// Its own steps with their replies, in their order.
    pub fn steps(&self) -> &[(Op, Reply)]
        ensures { reverse result.now ≡ self.now.steps }
    {
        self.steps.as_slice()
    }

    /// Notes one more step and its reply. `Memory` leaves the view as it was.
    pub fn note(&mut self, op: Op, reply: &Reply) -> Result<(), Memory>
        ensures ok { OnOk result (self.new ≡ record self.old { steps = (op, reply.now) ∷ self.old.steps }) }
        ensures err { OnErr result (self.new ≡ self.old) }
    {
        match reply.copy() {
            Ok(copy) => match self.hold_place() {
                Ok(()) => {
                    self.fill_place(op, copy);
                    Ok(())
                }
                Err(refused) => {
                    drop(op);
                    drop(copy);
                    Err(refused)
                }
            },
            Err(refused) => {
                drop(op);
                Err(refused)
            }
        }
    }

    /// Holds the place of a step that is about to be made. `Memory` leaves the view as it was.
    pub(crate) fn hold_place(&mut self) -> Result<(), Memory>
        ensures ok { OnOk result (self.new ≡ record self.old { steps = (Draw, Fault) ∷ self.old.steps }) }
        ensures err { OnErr result (self.new ≡ self.old) }
    {
        let alloc = self.job.text.allocator();
        let kept = mem::replace(&mut self.kept, None);
        let again = kept_again(alloc, self.steps.as_slice(), kept);
        drop(mem::replace(&mut self.kept, again));
        keep_index(&mut self.index, alloc, self.steps.as_slice());
        self.steps.push((Op::Draw, Reply::Fault))
    }

    /// Gives up the place of a step that wasn't made.
    pub(crate) fn give_up_place(&mut self)
        requires { HasPlace self.old.steps }
        ensures { (steps : Steps) → self.old.steps ≡ (Draw, Fault) ∷ steps → self.new ≡ record self.old { steps = steps } }
    {
        self.steps.drop_last();
    }

    /// Puts the step into its place, and brings forward what is kept. It takes memory only for the directory
    /// and the index, which aren't kept where there is none.
    pub(crate) fn fill_place(&mut self, op: Op, reply: Reply)
        requires { HasPlace self.old.steps }
        ensures { (steps : Steps) → self.old.steps ≡ (Draw, Fault) ∷ steps → self.new ≡ record self.old { steps = (op, reply) ∷ steps } }
    {
        let step = (op, reply);
        self.drawn = name_after(&step, self.drawn);
        self.lock = own_after(&step, self.lock);
        let alloc = self.job.text.allocator();
        let kept = mem::replace(&mut self.kept, None);
        let next = kept_after(alloc, &step, kept);
        drop(mem::replace(&mut self.kept, next));
        bring_index(&mut self.index, &step, self.steps.len() - 1);
        self.steps.set_last(step);
    }

    /// Its name: the latest pair that it drew.
    pub(crate) fn name(&self) -> Option<SessionName>
        ensures { result ≡ name self.now.steps }
    {
        self.drawn
    }

    /// Its own lock.
    pub(crate) fn own_lock(&self) -> OwnLock
        ensures { result ≡ own self.now.steps }
    {
        self.lock
    }

    /// Its directory, where it is kept. `own_dir` tells it from the steps.
    pub(crate) fn dir(&self) -> Option<&OwnDir>
        ensures { IfSome result (λ own. own.now ≡ dir self.now.steps) }
    {
        self.kept.as_ref()
    }

    /// The index of its steps, where it is kept.
    pub(crate) fn index(&self) -> Option<&Index>
        ensures { IfSome result (λ index. Indexes self.now.steps index.now) }
    {
        self.index.as_ref()
    }
}
