//! Calls in an empty directory in memory.
ghost use Rattle.std.specs.Prelude.{◌≡◌, false, IfOk};

use crate::beside::{begin_beside, steps_beside};
use crate::call::call;
use crate::case::Case;
use crate::entries::put_entries;
use crate::print::{put_count, put_ended};
use crate::shapes::shaped;
use crate::steps::put_steps;
use inc_base::{Bytes, List, Memory};
use inc_dir::{Foreign, MemDir};
use inc_fs::Chance;
use inc_proto::{Event, Ground};
use inc_session::Saved;
use std::alloc::Global;

/// How many acts have a chance of the case.
const ACTS: u32 = 64;

/// Makes the call of these words on the text in its shape, and prints what came of it.
pub fn put_in_memory(
    alloc: Global,
    to: &mut Bytes,
    words: &[&str],
    text: &[u8],
    case: &Case,
) -> Result<(), Memory> {
    let text = shaped(alloc, case.shape, text)?;
    match directory(alloc, case) {
        Ok(dir) => put_call(alloc, to, words, text, case, dir),
        Err(refused) => {
            drop(text);
            Err(refused)
        }
    }
}

fn directory(alloc: Global, case: &Case) -> Result<MemDir<Saved>, Memory>
    ensures { IfOk result (λ dir. dir.runs ≡ false) }
{
    let chances = chances(alloc, case)?;
    match between(alloc, case) {
        Ok(steps) => over(alloc, case, chances, steps),
        Err(refused) => {
            drop(chances);
            Err(refused)
        }
    }
}

fn chances(alloc: Global, case: &Case) -> Result<List<Chance>, Memory> {
    let mut chances = List::new(alloc);
    for act in 0..ACTS {
        chances.push(case.chance(act))?;
    }
    Ok(chances)
}

fn between(alloc: Global, case: &Case) -> Result<List<Foreign>, Memory> {
    if case.beside {
        steps_beside(alloc)
    } else {
        Ok(List::new(alloc))
    }
}

/// The directory with these chances and others' steps, of which the session has begun where there are some.
fn over(
    alloc: Global,
    case: &Case,
    chances: List<Chance>,
    steps: List<Foreign>,
) -> Result<MemDir<Saved>, Memory>
    ensures { IfOk result (λ dir. dir.runs ≡ false) }
{
    match ground(alloc, case) {
        Ok(ground) => Ok(MemDir::new(ground, chances, steps)),
        Err(refused) => {
            drop(chances);
            drop(steps);
            Err(refused)
        }
    }
}

fn ground(alloc: Global, case: &Case) -> Result<Ground<Saved>, Memory> {
    let mut ground = Ground::new(alloc, Saved);
    if case.beside {
        if let Err(refused) = begin_beside(alloc, &mut ground) {
            drop(ground);
            return Err(refused);
        }
    }
    Ok(ground)
}

fn put_call(
    alloc: Global,
    to: &mut Bytes,
    words: &[&str],
    text: Bytes,
    case: &Case,
    dir: MemDir<Saved>,
) -> Result<(), Memory>
    requires { dir.runs ≡ false }
{
    let mut dir = dir;
    let called = call(alloc, words, text, case, &mut dir);
    let history = dir.into_ground().into_history();
    match called {
        Ok(ended) => {
            let put = put_ended(to, &ended);
            drop(ended);
            match put {
                Ok(()) => put_left(alloc, to, history, case),
                Err(refused) => {
                    drop(history);
                    Err(refused)
                }
            }
        }
        Err(refused) => {
            drop(history);
            Err(refused)
        }
    }
}

/// The number of events; and, where there are some, the steps, where they are asked for, and what they left.
fn put_left(
    alloc: Global,
    to: &mut Bytes,
    history: List<Event>,
    case: &Case,
) -> Result<(), Memory> {
    put_count(to, b"events ", history.len() as u64)?;
    if case.steps {
        put_steps(to, history.as_slice())?;
    }
    if history.is_empty() || case.beside {
        return Ok(());
    }
    put_entries(alloc, to, history.as_slice(), case)
}
