ghost use Rattle.std.specs.Prelude.{◌≡◌, false, map, IfOk, IfErr};
ghost use Rattle.inc_cli.specs.Run.{ComesTo, Refuses};

use crate::answer::Answer;
use crate::build::build;
use crate::clean::clean;
use crate::status::Status;
use inc_base::{Meter, Source};
use inc_dir::Dir;
use inc_session::Saved;
use inc_words::{Command, read_words};
use std::alloc::Global;

/// Does what the words ask for.
pub(crate) fn answer<S: Source, D: Dir<Saved>>(
    alloc: Global,
    words: &[&str],
    src: &mut S,
    dir: &mut D,
    meter: &mut Meter,
) -> Result<Answer, Status>
    requires { D.runs dir.old ≡ false }
    ensures free { D.runs dir.new ≡ false }
    ensures ok { IfOk result (λ answer. ComesTo (map (λ word. word.now) words.now) answer
        (record { left = S.left src.old; source_faults = S.faults src.old; dir = record { told = D.told dir.old; own = D.own dir.old }; dir_faults = D.faults dir.old; meter = meter.old })
        (record { left = S.left src.new; source_faults = S.faults src.new; dir = record { told = D.told dir.new; own = D.own dir.new }; dir_faults = D.faults dir.new; meter = meter.new })) }
    ensures err { IfErr result (λ status. Refuses status (map (λ word. word.now) words.now)
        (record { left = S.left src.old; source_faults = S.faults src.old; dir = record { told = D.told dir.old; own = D.own dir.old }; dir_faults = D.faults dir.old; meter = meter.old })
        (record { left = S.left src.new; source_faults = S.faults src.new; dir = record { told = D.told dir.new; own = D.own dir.new }; dir_faults = D.faults dir.new; meter = meter.new })) }
{
    match read_words(alloc, words) {
        Ok(Some(Command::Build { krate, compiler })) => {
            build(alloc, krate, compiler, src, dir, meter)
        }
        Ok(Some(Command::Clean { compiler })) => clean(alloc, compiler, src),
        Ok(None) => Err(Status::BadWords),
        Err(_) => Err(Status::OutOfMemory),
    }
}
