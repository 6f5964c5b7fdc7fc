ghost use Rattle.std.specs.Prelude.{◌≡◌, false, map};
ghost use Rattle.inc_cli.specs.declared.status.Status.{Status};
ghost use Rattle.inc_cli.specs.Statuses.{code_of};
ghost use Rattle.inc_cli.specs.Run.{Ends};

use crate::command::answer;
use crate::output::{refuse, write_answer};
use inc_base::{Meter, Sink, Source};
use inc_dir::Dir;
use inc_session::Saved;
use std::alloc::Global;

/// Runs the command of these words (docs/ARCHITECTURE.md, "Commands").
///
/// It reads the text from the source. For a build it lets a session of its own visit the directory; a clean build
/// touches none. It writes the diagnostics and the line on the units to `out` and the image to `image`. It
/// answers the status of the process (docs/ARCHITECTURE.md, "Statuses"), and whichever that is, no session of its own
/// runs at its exit. The order of the refusals is that of the words, the source, the limits, the session, `out` and
/// `image`; want of memory may come at any of them. It waits for nobody and returns.
pub fn run<S: Source, D: Dir<Saved>, O: Sink, I: Sink>(
    alloc: Global,
    words: &[&str],
    src: &mut S,
    dir: &mut D,
    out: &mut O,
    image: &mut I,
    meter: &mut Meter,
) -> u8
    requires { D.runs dir.old ≡ false }
    ensures free { D.runs dir.new ≡ false }

    // It ends by a status, and what holds then is that status's case of `Ends`.
    ensures ends { (status : Status) × (result ≡ code_of status) × Ends status (map (λ word. word.now) words.now)
        (record { left = S.left src.old; source_faults = S.faults src.old; dir = record { told = D.told dir.old; own = D.own dir.old }; dir_faults = D.faults dir.old; meter = meter.old })
        (record { left = S.left src.new; source_faults = S.faults src.new; dir = record { told = D.told dir.new; own = D.own dir.new }; dir_faults = D.faults dir.new; meter = meter.new })
        (record { out = O.held out.old; out_faults = O.faults out.old; image = I.held image.old; image_faults = I.faults image.old })
        (record { out = O.held out.new; out_faults = O.faults out.new; image = I.held image.new; image_faults = I.faults image.new }) }
{
    match answer(alloc, words, src, dir, meter) {
        Ok(answer) => write_answer(alloc, answer, out, image),
        Err(status) => refuse(status, out),
    }
}
