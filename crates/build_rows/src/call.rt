//! A call over any directory.
ghost use Rattle.std.specs.Prelude.{◌≡◌, false};

use crate::case::Case;
use crate::narrow::Narrow;
use inc_base::{Bytes, List, MemSource, Memory, Meter, Sink, Source};
use inc_cli::run;
use inc_dir::Dir;
use inc_session::Saved;
use std::alloc::Global;

/// How a call ended, what the sinks took, and how far the meter rose.
#[derive(Drop)]
pub struct Ended {
    pub status: u8,
    pub out: Bytes,
    pub image: Bytes,
    pub emitted: u64,
}

/// Makes the call alone, so that what its contract says stands in no other proof.
fn status_of<S: Source, D: Dir<Saved>, O: Sink, I: Sink>(
    alloc: Global,
    words: &[&str],
    src: &mut S,
    dir: &mut D,
    out: &mut O,
    image: &mut I,
    meter: &mut Meter,
) -> u8
    requires { D.runs dir.old ≡ false }
{
    run(alloc, words, src, dir, out, image, meter)
}

/// Makes the call of these words on this text in the directory.
pub fn call<D: Dir<Saved>>(
    alloc: Global,
    words: &[&str],
    text: Bytes,
    case: &Case,
    dir: &mut D,
) -> Result<Ended, Memory>
    requires { D.runs dir.old ≡ false }
{
    match failing_at(alloc, case.source) {
        Ok(failing) => Ok(called_with(alloc, words, MemSource::new(text, failing), case, dir)),
        Err(refused) => {
            drop(text);
            Err(refused)
        }
    }
}

fn failing_at(alloc: Global, number: u32) -> Result<List<u32>, Memory> {
    let mut failing = List::new(alloc);
    failing.push(number)?;
    Ok(failing)
}

fn called_with<D: Dir<Saved>>(
    alloc: Global,
    words: &[&str],
    source: MemSource,
    case: &Case,
    dir: &mut D,
) -> Ended
    requires { D.runs dir.old ≡ false }
{
    let mut source = source;
    let mut out = Narrow::new(alloc, case.out);
    let mut image = Narrow::new(alloc, case.image);
    let mut meter = Meter::new();
    let status = status_of(
        alloc,
        words,
        &mut source,
        dir,
        &mut out,
        &mut image,
        &mut meter,
    );
    drop(source);
    Ended {
        status,
        out: out.into_bytes(),
        image: image.into_bytes(),
        emitted: meter.count(),
    }
}
