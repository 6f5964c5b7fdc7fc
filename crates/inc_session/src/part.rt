ghost use Rattle.std.specs.Prelude.{◌≡◌, ◌+◌, ◌^◌, ◌<◌, ◌≤◌, length, IfOk, OnOk, IsSome, Some};
ghost use Rattle.inc_base.specs.declared.job.Job.{Job};
ghost use Rattle.inc_plan.specs.Plan.{asks, fed, then};
ghost use Rattle.inc_session.specs.Compiling.{units_of};
ghost use Rattle.inc_session.specs.Ending.{is_fault};
ghost use Rattle.inc_session.specs.Made.{left_in, left_of_failing, left_of_fed};
ghost use Rattle.inc_session.specs.Naming.{naming_plan};
ghost use Rattle.inc_session.specs.Order.{after_naming, after_compiling, part_rest};
ghost use Rattle.inc_session.specs.Reading.{metered_for, metered_end, metered_fed};

use crate::compile::{Compiled, Made};
use crate::failing::{Failing, FailingAt};
use crate::naming::{Naming, NamingEnd, NamingFed};
use crate::ops::ops_of;
use crate::outcome::{Outcome, Used};
use crate::saving::Saving;
use crate::task::Task;
use inc_base::{Bytes, Copied, Memory, Meter};
use inc_fs::{Op, Reply};
use inc_names::SessionName;

/// The part of its order that a session is in.
#[derive(Drop)]
pub enum Part {
    Naming(Naming),
    Saving(Saving),
    Failing(Failing),
    Ended(Outcome),
    /// For want of memory.
    GaveUp,
}

fn is_fault(reply: &Reply) -> bool
    ensures { result ≡ is_fault reply.now }
{
    matches!(reply, Reply::Fault)
}

/// Saving begins.
fn saving(
    task: &Task,
    its: SessionName,
    handle: u32,
    diags: Bytes,
    made: Made,
) -> Result<Part, Memory>
    ensures rest { IfOk result (λ part. part_rest task.now part ≡ after_compiling task.now its handle diags (Some made)) }
    ensures few { IfOk result (λ part. left_in part < 2 ^ 65) }
{
    let Made {
        image,
        units,
        files,
    } = made;
    match ops_of(task, its, files.pairs()) {
        Ok(ops) => {
            drop(files);
            let _count = ops.len();
            Ok(Part::Saving(Saving {
                handle,
                diags,
                image,
                units,
                ops,
            }))
        }
        Err(refused) => {
            drop(files);
            drop(image);
            drop(diags);
            Err(refused)
        }
    }
}

/// After compiling.
fn compiled(task: &Task, its: SessionName, handle: u32, compiled: Compiled) -> Result<Part, Memory>
    ensures rest { IfOk result (λ part. part_rest task.now part ≡ after_compiling task.now its handle compiled.diags compiled.made) }
    ensures few { IfOk result (λ part. left_in part < 2 ^ 65) }
{
    let Compiled { diags, made } = compiled;
    match made {
        Some(made) => saving(task, its, handle, diags, made),
        None => Ok(Part::Failing(Failing {
            handle,
            diags,
            at: FailingAt::RemoveDir(its),
        })),
    }
}

/// After naming: with its directory made, it compiles.
fn named(task: &Task, end: NamingEnd, meter: &mut Meter) -> Result<Part, Memory>
    ensures rest { IfOk result (λ part. part_rest task.now part ≡ after_naming task.now end) }
    ensures few { IfOk result (λ part. left_in part < 2 ^ 65) }
    ensures meter { OnOk result (meter.new ≡ metered_end (units_of task.now) end meter.old) }
{
    match end {
        NamingEnd::Named(its, handle) => match task.compile(meter) {
            Ok(made) => compiled(task, its, handle, made),
            Err(refused) => Err(refused),
        },
        NamingEnd::Lost => Ok(Part::Ended(Outcome::Lost(8))),
        NamingEnd::DiskFault => Ok(Part::Ended(Outcome::DiskFault)),
        NamingEnd::Disturbed(op, reply) => Ok(Part::Ended(Outcome::Disturbed(op, reply))),
    }
}

/// Naming after a reply, and what follows it where it ended.
pub(crate) fn naming(task: &Task, to: NamingFed, meter: &mut Meter) -> Result<Part, Memory>
    ensures rest { IfOk result (λ part. part_rest task.now part ≡ then (naming_plan task.now.krate to) (after_naming task.now)) }
    ensures few { IfOk result (λ part. left_in part ≤ 2 ^ 65 + left_of_fed to) }
    ensures meter { OnOk result (meter.new ≡ metered_fed (units_of task.now) to meter.old) }
{
    match to {
        NamingFed::On(naming) => Ok(Part::Naming(naming)),
        NamingFed::End(end) => named(task, end, meter),
    }
}

/// Saving after a reply.
fn saved(saving: Saving, reply: Reply) -> Part
    ensures rest { (job : Job) → part_rest job result ≡ fed (part_rest job (Part.Saving saving)) reply }
    ensures fewer { left_in result < length saving.ops + 1 }
{
    let Saving {
        handle,
        diags,
        image,
        units,
        ops,
    } = saving;
    match ops.take() {
        Some((op, ops)) => match reply {
            Reply::Done => {
                drop(op);
                Part::Saving(Saving {
                    handle,
                    diags,
                    image,
                    units,
                    ops,
                })
            }
            Reply::Fault => {
                drop(op);
                drop(ops);
                drop(image);
                drop(diags);
                Part::Ended(Outcome::DiskFault)
            }
            reply => {
                drop(ops);
                drop(image);
                drop(diags);
                Part::Ended(Outcome::Disturbed(op, reply))
            }
        },
        None => {
            let note = is_fault(&reply);
            drop(reply);
            Part::Ended(Outcome::Built {
                diags,
                image,
                used: Used {
                    emitted: units,
                    units,
                },
                note,
            })
        }
    }
}

/// An ending after errors, after a reply.
fn failed(failing: Failing, reply: Reply) -> Part
    ensures rest { (job : Job) → part_rest job result ≡ fed (part_rest job (Part.Failing failing)) reply }
    ensures fewer { left_in result < left_of_failing failing.at }
{
    let Failing { handle, diags, at } = failing;
    let fault = is_fault(&reply);
    drop(reply);
    match at {
        FailingAt::RemoveDir(its) => {
            let at = if fault {
                FailingAt::Close(true)
            } else {
                FailingAt::UnlinkLock(its)
            };
            Part::Failing(Failing { handle, diags, at })
        }
        FailingAt::UnlinkLock(_) => Part::Failing(Failing {
            handle,
            diags,
            at: FailingAt::Close(fault),
        }),
        FailingAt::Close(noted) => Part::Ended(Outcome::Errors {
            diags,
            note: fault || noted,
        }),
    }
}

impl Saving {
    /// The step that it asks for.
    fn op(&self) -> Result<Op, Memory>
        ensures { (job : Job) → IfOk result (λ op. asks (part_rest job (Part.Saving self.now)) ≡ Some op) }
    {
        match self.ops.first() {
            Some(op) => op.copy(),
            None => Ok(Op::Close {
                handle: self.handle,
            }),
        }
    }
}

impl Failing {
    /// The step that it asks for.
    fn op(&self, task: &Task) -> Result<Op, Memory>
        ensures { IfOk result (λ op. asks (part_rest task.now (Part.Failing self.now)) ≡ Some op) }
    {
        match self.at {
            FailingAt::RemoveDir(its) => task.remove_dir(its),
            FailingAt::UnlinkLock(its) => task.unlink_lock(its),
            FailingAt::Close(_) => Ok(Op::Close {
                handle: self.handle,
            }),
        }
    }
}

impl Part {
    /// The step that it asks for, unless it has ended.
    pub(crate) fn op(&self, task: &Task) -> Result<Option<Op>, Memory>
        ensures { IfOk result (λ op. op ≡ asks (part_rest task.now self.now)) }
    {
        match self {
            Part::Naming(naming) => Ok(Some(naming.op(task)?)),
            Part::Saving(saving) => Ok(Some(saving.op()?)),
            Part::Failing(failing) => Ok(Some(failing.op(task)?)),
            Part::Ended(_) => Ok(None),
            Part::GaveUp => Ok(None),
        }
    }

    /// Goes on by the reply. The meter rises by the units of the text where its directory was made.
    pub(crate) fn feed(self, task: &Task, reply: Reply, meter: &mut Meter) -> Result<Part, Memory>
        requires { IsSome (asks (part_rest task.now self)) }
        ensures rest { IfOk result (λ part. part_rest task.now part ≡ fed (part_rest task.now self) reply) }
        ensures fewer { IfOk result (λ part. left_in part < left_in self) }
        ensures meter { OnOk result (meter.new ≡ metered_for (units_of task.now) (asks (part_rest task.now self)) reply meter.old) }
    {
        match self {
            Part::Naming(part) => match part.feed(task, reply) {
                Ok(to) => naming(task, to, meter),
                Err(refused) => Err(refused),
            },
            Part::Saving(part) => Ok(saved(part, reply)),
            Part::Failing(part) => Ok(failed(part, reply)),
            Part::Ended(outcome) => {
                drop(reply);
                Ok(Part::Ended(outcome))
            }
            Part::GaveUp => {
                drop(reply);
                Ok(Part::GaveUp)
            }
        }
    }
}
