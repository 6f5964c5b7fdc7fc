//! What the sessions are to publish.
ghost use Rattle.std.specs.Prelude.{◌≡◌, IfOk};
ghost use Rattle.proto_rows.specs.Fixed.{fixed, one, two, IsClear};

use inc_base::{Bytes, Compiler, Job, Label, List, Memory, Name, VERSION};
use inc_proto::Content;
use std::alloc::Global;

/// A job of this crate with this text.
pub fn job(alloc: Global, krate: &[u8], text: &str) -> Result<Option<Job>, Memory> {
    let Some(krate) = Name::of(alloc, krate)? else {
        return Ok(None);
    };
    let compiler = Compiler {
        version: VERSION,
        level: 0,
    };
    let text = Bytes::of(alloc, text.as_bytes())?;
    Ok(Some(Job {
        krate,
        compiler,
        text,
    }))
}

/// The files of each job.
#[derive(Drop)]
pub struct Fixed {
    pub alloc: Global,
}

fn file(alloc: Global, name: &[u8], bytes: &[u8]) -> Result<(Label, Bytes), Memory>
    ensures { IfOk result (λ it. it ≡ (name.now, bytes.now)) }
{
    match Label::of(alloc, name)? {
        Some(label) => Ok((label, Bytes::of(alloc, bytes)?)),
        None => Err(Memory),
    }
}

fn one(alloc: Global) -> Result<List<(Label, Bytes)>, Memory>
    ensures { IfOk result (λ set. set ≡ one) }
{
    let first = file(alloc, b"f", b"one")?;
    let mut set = List::new(alloc);
    set.push(first)?;
    Ok(set)
}

fn two(alloc: Global) -> Result<List<(Label, Bytes)>, Memory>
    ensures { IfOk result (λ set. set ≡ two) }
{
    let mut set = one(alloc)?;
    set.push(file(alloc, b"g", b"two")?)?;
    Ok(set)
}

impl Content for Fixed {
    ghost files = { fixed };

    ghost clear = { IsClear };

    ghost fewer = { λ some all among clear. clear };

    fn wanted(&self, job: &Job) -> Result<Option<List<(Label, Bytes)>>, Memory> {
        let count = job.text.len();
        if count == 2 {
            Ok(Some(two(self.alloc)?))
        } else if count == 1 {
            Ok(Some(one(self.alloc)?))
        } else {
            Ok(None)
        }
    }
}
