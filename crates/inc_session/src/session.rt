ghost use Rattle.std.specs.Prelude.{◌≡◌, ◌<◌, [], IfOk, OnOk, OnErr, IsSome, None};
ghost use Rattle.std.specs.Option.{option_copied};
ghost use Rattle.inc_plan.specs.Plan.{asks, fed};
ghost use Rattle.rs_queries.specs.Reading.{IsReading};
ghost use Rattle.inc_session.specs.Compiling.{units_of};
ghost use Rattle.inc_session.specs.Order.{part_rest};
ghost use Rattle.inc_session.specs.Made.{HasMade, AsksPermitted, GoesOn, left_of, left_in, outcome_of, outcome_in, rest_of};
ghost use Rattle.inc_session.specs.Reading.{metered_for};

use crate::laws::steps_are_permitted;
use crate::naming::again;
use crate::outcome::Outcome;
use crate::part::{Part, naming};
use crate::task::Task;
use inc_base::{Job, Memory, Meter};
use inc_fs::{Op, Reply};
use rs_queries::{Reading, read};
use std::alloc::Global;
use std::mem;

/// A session that publishes what a job's text compiles to (docs/PROTOCOL.md, "The order of a session").
///
/// It asks for a step by `op`, and `feed` gives it the reply, until it has ended and has an `outcome`.
#[derive(Drop)]
pub struct Session {
    task: Task,
    part: Part,
    op: Option<Op>,
}

/// The part after a reply, and what it asks for.
fn next(
    part: Part,
    task: &Task,
    reply: Reply,
    meter: &mut Meter,
) -> Result<(Part, Option<Op>), Memory>
    requires { IsSome (asks (part_rest task.now part)) }
    ensures rest { IfOk result (λ to. part_rest task.now to.0 ≡ fed (part_rest task.now part) reply) }
    ensures asks { IfOk result (λ to. to.1 ≡ asks (part_rest task.now to.0)) }
    ensures fewer { IfOk result (λ to. left_in to.0 < left_in part) }
    ensures meter { OnOk result (meter.new ≡ metered_for (units_of task.now) (asks (part_rest task.now part)) reply meter.old) }
{
    match part.feed(task, reply, meter) {
        Ok(part) => match part.op(task) {
            Ok(op) => Ok((part, op)),
            Err(refused) => {
                drop(part);
                Err(refused)
            }
        },
        Err(refused) => Err(refused),
    }
}

/// How a part ended.
fn outcome_in(part: &Part) -> Option<&Outcome>
    ensures { option_copied result ≡ outcome_in part.now }
{
    match part {
        Part::Ended(outcome) => Some(outcome),
        Part::Naming(_) => None,
        Part::Saving(_) => None,
        Part::Failing(_) => None,
        Part::GaveUp => None,
    }
}

fn ended_by(part: Part) -> Option<Outcome>
    ensures { result ≡ outcome_in part }
{
    match part {
        Part::Ended(outcome) => Some(outcome),
        part => {
            drop(part);
            None
        }
    }
}

impl Session {
    /// A session of this job that has made no step. `Memory` where there is none for the reading of its text, its
    /// name and its hash.
    pub fn new(alloc: Global, job: Job) -> Result<Session, Memory>
        ensures job { IfOk result (λ session. session.task ≡ job) }
        ensures made { IfOk result (λ session. HasMade session []) }
    {
        match read(alloc, job.text.as_slice()) {
            Ok(reading) => Session::of(alloc, job, reading),
            Err(refused) => {
                drop(job);
                Err(refused)
            }
        }
    }

    /// The same of a job whose text was read so.
    pub fn of(alloc: Global, job: Job, reading: Reading) -> Result<Session, Memory>
        requires { IsReading job.text reading }
        ensures job { IfOk result (λ session. session.task ≡ job) }
        ensures made { IfOk result (λ session. HasMade session []) }
    {
        let task = match Task::of(alloc, job, reading) {
            Ok(task) => task,
            Err(refused) => return Err(refused),
        };
        let mut meter = Meter::new();
        let part = match naming(&task, again(8), &mut meter) {
            Ok(part) => part,
            Err(refused) => {
                drop(task);
                return Err(refused);
            }
        };
        match part.op(&task) {
            Ok(op) => Ok(Session { task, part, op }),
            Err(refused) => {
                drop(part);
                drop(task);
                Err(refused)
            }
        }
    }

    /// The step that it asks for: `None` exactly where it has ended. Wherever its own steps and their replies
    /// stand in a legal history, that step is permitted.
    pub fn op(&self) -> Option<&Op>
        ensures value { option_copied result ≡ self.now.op }
        ensures permitted { AsksPermitted self.now }
    {
        steps_are_permitted();
        self.op.as_ref()
    }

    /// Takes the reply to the step that it asks for, which is of the kinds of that step's row. The meter rises by
    /// the units of its text where its directory was made. After `Memory` it has ended without an outcome.
    pub fn feed(&mut self, reply: Reply, meter: &mut Meter) -> Result<(), Memory>
        requires going { IsSome self.old.op }
        requires asks { self.old.op ≡ asks (rest_of self.old) }
        ensures ok { OnOk result (GoesOn self.old reply self.new) }
        ensures fewer { OnOk result (left_of self.new < left_of self.old) }
        ensures meter { OnOk result (meter.new ≡ metered_for (units_of self.old.task) self.old.op reply meter.old) }
        ensures err { OnErr result ((self.new.task ≡ self.old.task) × (self.new.op ≡ None) × (outcome_of self.new ≡ None)) }
    {
        drop(self.op.take());
        let part = mem::replace(&mut self.part, Part::GaveUp);
        let (part, op) = next(part, &self.task, reply, meter)?;
        drop(mem::replace(&mut self.part, part));
        drop(mem::replace(&mut self.op, op));
        Ok(())
    }

    /// How it ended, once it has. After `Memory` from `feed` there is no outcome.
    pub fn outcome(&self) -> Option<&Outcome>
        ensures { option_copied result ≡ outcome_of self.now }
    {
        outcome_in(&self.part)
    }

    /// The same, for good.
    pub fn into_outcome(self) -> Option<Outcome>
        ensures { result ≡ outcome_of self }
    {
        let Session { task, part, op } = self;
        drop(op);
        drop(task);
        ended_by(part)
    }
}
