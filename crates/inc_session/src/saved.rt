ghost use Rattle.std.specs.Prelude.{◌≡◌, IfOk};
ghost use Rattle.inc_session.specs.Compiling.{files_in};
ghost use Rattle.inc_session.specs.Saves.{saved_clear, saved_files};

use crate::compile::{Compiled, compile, share};
use inc_base::{Bytes, Copied, Job, Label, List, Memory, Meter};
use inc_proto::Content;
use rs_queries::read;
use std::alloc::Global;

/// What sessions publish (docs/PROTOCOL.md, "What a session may do"): the files that a job's text compiles to,
/// and nothing where it has errors. Every list of jobs is clear, since nothing that a build relies on is hashed
/// yet.
#[derive(Clone, Copy, Debug)]
pub struct Saved;

impl Content for Saved {
    ghost files = { saved_files };

    ghost clear = { saved_clear };

    fn wanted(&self, job: &Job) -> Result<Option<List<(Label, Bytes)>>, Memory>
        ensures { IfOk result (λ found. found ≡ saved_files job.now) }
    {
        let alloc = job.text.allocator();
        let reading = share(alloc, read(alloc, job.text.as_slice())?)?;
        let mut meter = Meter::new();
        match compile(alloc, job, &reading, &mut meter) {
            Ok(compiled) => files_in(alloc, &compiled),
            Err(refused) => Err(refused),
        }
    }

    ghost fewer = { λ some all among clear. tt };
}

/// The files of what was made.
fn files_in(alloc: Global, compiled: &Compiled) -> Result<Option<List<(Label, Bytes)>>, Memory>
    ensures { IfOk result (λ files. files ≡ files_in compiled.now.made) }
{
    match &compiled.made {
        Some(made) => Ok(Some(copied(alloc, made.files.pairs())?)),
        None => Ok(None),
    }
}

fn copied(alloc: Global, files: &[(Label, Bytes)]) -> Result<List<(Label, Bytes)>, Memory>
    ensures { IfOk result (λ all. all ≡ files.now) }
{
    let mut all = List::new(alloc);
    for file in files {
        all.push(copy_of(file)?)?;
    }
    Ok(all)
}

fn copy_of(file: &(Label, Bytes)) -> Result<(Label, Bytes), Memory>
    ensures { IfOk result (λ copy. copy ≡ file.now) }
{
    let name = file.0.copy()?;
    let bytes = file.1.copy()?;
    Ok((name, bytes))
}
