ghost use Rattle.std.specs.Prelude.{◌≡◌, IfOk, OnOk};
ghost use Rattle.inc_base.specs.Meters.{raised};
ghost use Rattle.inc_fs.specs.declared.op.Op.TheVariants.{Look, MakeLock, MakeDir, Create, Append, RemoveDir, UnlinkLock};
ghost use Rattle.inc_names.specs.Entries.{lock_text, working_text};
ghost use Rattle.inc_wire.specs.Forms.{job_hash_of};
ghost use Rattle.rs_queries.specs.Reading.{IsReading};
ghost use Rattle.inc_session.specs.Compiling.{compiled_of, units_of};
ghost use Rattle.inc_session.specs.Saving.{publishing};

use crate::compile::{Compiled, compile, share};
use inc_base::{Bytes, Copied, Job, Label, Memory, Meter};
use inc_fs::Op;
use inc_names::{Entry, SessionName, crate_dir, entry_text};
use inc_wire::job_hash;
use rs_queries::Reading;
use std::alloc::Global;
use std::marker::Model;
use std::rc::Rc;

/// A job with what a session needs of it: the name of its crate's directory, its hash, and the reading of its text.
#[derive(Drop)]
pub struct Task {
    alloc: Global,
    krate: Label,
    hash: u128,
    reading: Rc<Reading>,
    job: Job,
}

impl Model for Task {
    ghost use Rattle.std.specs.Prelude.{◌≡◌};
    ghost use Rattle.inc_base.specs.declared.job.Job.{Job};
    ghost use Rattle.inc_wire.specs.Forms.{job_hash_of};
    ghost use Rattle.rs_queries.specs.Reading.{IsReading};

    ghost Value = { Job };

    ghost view = { λ t. t.job };

    ghost invariant = { λ t. (t.krate ≡ t.job.krate) × (t.hash ≡ job_hash_of t.job) × IsReading t.job.text t.reading.value };
}

/// The name of a job's crate's directory, and the job's hash.
fn named(alloc: Global, job: &Job) -> Result<(Label, u128), Memory>
    ensures { IfOk result (λ found. (found.0 ≡ job.now.krate) × (found.1 ≡ job_hash_of job.now)) }
{
    let krate = crate_dir(alloc, &job.krate)?;
    let hash = job_hash(alloc, job)?;
    Ok((krate, hash))
}

impl Task {
    /// A job whose text was read so.
    pub(crate) fn of(alloc: Global, job: Job, reading: Reading) -> Result<Task, Memory>
        requires { IsReading job.text reading }
        ensures { IfOk result (λ task. task ≡ job) }
    {
        match named(alloc, &job) {
            Ok((krate, hash)) => match share(alloc, reading) {
                Ok(reading) => Ok(Task {
                    alloc,
                    krate,
                    hash,
                    reading,
                    job,
                }),
                Err(refused) => {
                    drop(krate);
                    drop(job);
                    Err(refused)
                }
            },
            Err(refused) => {
                drop(reading);
                drop(job);
                Err(refused)
            }
        }
    }

    pub(crate) fn alloc(&self) -> Global {
        self.alloc
    }

    /// What its text compiles to, as `compile` says.
    pub(crate) fn compile(&self, meter: &mut Meter) -> Result<Compiled, Memory>
        ensures value { IfOk result (λ compiled. compiled ≡ compiled_of self.now) }
        ensures meter { OnOk result (meter.new ≡ raised meter.old (units_of self.now)) }
    {
        compile(self.alloc, &self.job, &self.reading, meter)
    }

    pub(crate) fn krate(&self) -> Result<Label, Memory>
        ensures { IfOk result (λ label. label ≡ self.now.krate) }
    {
        self.krate.copy()
    }

    pub(crate) fn lock(&self, name: SessionName) -> Result<Label, Memory>
        ensures { IfOk result (λ label. label ≡ lock_text name) }
    {
        entry_text(self.alloc, &Entry::Lock(name))
    }

    pub(crate) fn working(&self, name: SessionName) -> Result<Label, Memory>
        ensures { IfOk result (λ label. label ≡ working_text name) }
    {
        entry_text(self.alloc, &Entry::Working(name))
    }

    pub(crate) fn look(&self) -> Result<Op, Memory>
        ensures { IfOk result (λ op. op ≡ Look self.now.krate) }
    {
        Ok(Op::Look {
            krate: self.krate()?,
        })
    }

    pub(crate) fn make_lock(&self, name: SessionName) -> Result<Op, Memory>
        ensures { IfOk result (λ op. op ≡ MakeLock self.now.krate (lock_text name)) }
    {
        Ok(Op::MakeLock {
            krate: self.krate()?,
            entry: self.lock(name)?,
        })
    }

    pub(crate) fn make_dir(&self, name: SessionName) -> Result<Op, Memory>
        ensures { IfOk result (λ op. op ≡ MakeDir self.now.krate (working_text name)) }
    {
        Ok(Op::MakeDir {
            krate: self.krate()?,
            entry: self.working(name)?,
        })
    }

    pub(crate) fn create(&self, name: SessionName, file: &Label) -> Result<Op, Memory>
        ensures { IfOk result (λ op. op ≡ Create self.now.krate (working_text name) file.now) }
    {
        Ok(Op::Create {
            krate: self.krate()?,
            entry: self.working(name)?,
            file: file.copy()?,
        })
    }

    pub(crate) fn append(&self, name: SessionName, file: &Label, piece: &[u8]) -> Result<Op, Memory>
        ensures { IfOk result (λ op. op ≡ Append self.now.krate (working_text name) file.now piece.now) }
    {
        Ok(Op::Append {
            krate: self.krate()?,
            entry: self.working(name)?,
            file: file.copy()?,
            piece: Bytes::of(self.alloc, piece)?,
        })
    }

    pub(crate) fn remove_dir(&self, name: SessionName) -> Result<Op, Memory>
        ensures { IfOk result (λ op. op ≡ RemoveDir self.now.krate (working_text name)) }
    {
        Ok(Op::RemoveDir {
            krate: self.krate()?,
            entry: self.working(name)?,
        })
    }

    pub(crate) fn unlink_lock(&self, name: SessionName) -> Result<Op, Memory>
        ensures { IfOk result (λ op. op ≡ UnlinkLock self.now.krate (lock_text name)) }
    {
        Ok(Op::UnlinkLock {
            krate: self.krate()?,
            entry: self.lock(name)?,
        })
    }

    pub(crate) fn publishing(&self, name: SessionName) -> Result<Op, Memory>
        ensures { IfOk result (λ op. op ≡ publishing self.now name) }
    {
        Ok(Op::Rename {
            krate: self.krate()?,
            from: self.working(name)?,
            to: entry_text(self.alloc, &Entry::Final(name, self.hash))?,
        })
    }
}
