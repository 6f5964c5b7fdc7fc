ghost use Rattle.std.specs.Prelude.{◌≡◌, IfOk, List};
ghost use Rattle.inc_base.specs.declared.job.Job.{Job};
ghost use Rattle.inc_proto.specs.Files.{Files, AreAmong};

use inc_base::{Bytes, Job, Label, List, Memory};

/// What sessions are to publish, which publishing is compared with (docs/PROTOCOL.md, "What a session may
/// do"). Its meanings are the same for all its values.
pub trait Content: Drop {
    /// The files of each job by names and bytes, in the order of the names; none where its text has an
    /// error.
    ghost files: { Files };

    /// What is taken to hold of the jobs that began, as that none of their values collide.
    ghost clear: { List Job → Type 0 };

    /// The files of a job, or `None` exactly where its text has an error. `Memory` where there is no
    /// memory for them.
    fn wanted(&self, job: &Job) -> Result<Option<List<(Label, Bytes)>>, Memory>
        ensures { IfOk result (λ found. found ≡ files job.now) };

    /// What is clear stays clear with fewer jobs.
    ghost fewer: { (some all : List Job) → AreAmong some all → clear all → clear some };
}
