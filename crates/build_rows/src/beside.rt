//! A session that works beside, number 0.

use inc_base::{Bytes, Compiler, Job, Label, List, Memory, Name};
use inc_dir::Foreign;
use inc_fs::{Chance, Op};
use inc_proto::Ground;
use inc_session::Saved;
use std::alloc::Global;

/// What the outside decides of its steps.
const CHANCE: Chance = Chance {
    moment: 7,
    random: 0,
    fails: None,
};

/// Its job, of the crate `k` and the empty text.
fn job(alloc: Global) -> Result<Job, Memory> {
    let Some(krate) = Name::of(alloc, b"k")? else {
        return Err(Memory);
    };
    Ok(Job {
        krate,
        compiler: Compiler {
            version: 1,
            level: 1,
        },
        text: Bytes::new(alloc),
    })
}

/// It begins.
pub fn begin_beside(alloc: Global, ground: &mut Ground<Saved>) -> Result<(), Memory> {
    let job = job(alloc)?;
    match ground.begin(job) {
        Ok(_) => Ok(()),
        Err(refused) => Err(refused),
    }
}

/// Its steps, before own acts 0, 2, 2 and 14, and five that are skipped: the lock file of a name that was not drawn, the same once
/// more, a step of the own session, one of a session that isn't there, and one that comes after the last act.
pub fn steps_beside(alloc: Global) -> Result<List<Foreign>, Memory> {
    let mut steps = List::new(alloc);
    put(&mut steps, 14, 0, Op::Close { handle: 0 })?;
    put(&mut steps, 0, 0, Op::Draw)?;
    put(&mut steps, 1, 0, lock(alloc, b"s-8-0.lock")?)?;
    put(&mut steps, 2, 0, lock(alloc, b"s-7-0.lock")?)?;
    put(&mut steps, 2, 0, Op::Close { handle: 1 })?;
    put(&mut steps, 3, 0, lock(alloc, b"s-7-0.lock")?)?;
    put(&mut steps, 4, 1, Op::Close { handle: 0 })?;
    put(&mut steps, 5, 2, Op::Draw)?;
    put(&mut steps, 15, 0, Op::Draw)?;
    Ok(steps)
}

fn put(steps: &mut List<Foreign>, before: u32, who: u32, op: Op) -> Result<(), Memory> {
    steps.push(Foreign {
        before,
        who,
        op,
        chance: CHANCE,
    })
}

fn lock(alloc: Global, entry: &[u8]) -> Result<Op, Memory> {
    let entry = label(alloc, entry)?;
    let krate = label(alloc, b"k")?;
    Ok(Op::MakeLock { krate, entry })
}

fn label(alloc: Global, text: &[u8]) -> Result<Label, Memory> {
    match Label::of(alloc, text)? {
        Some(label) => Ok(label),
        None => Err(Memory),
    }
}
