ghost use Rattle.std.specs.Prelude.{◌≡◌, ℕ, List, [], false, IfOk, IfErr};
ghost use Rattle.inc_words.specs.Words.{AsksFor};
ghost use Rattle.rs_queries.specs.Reading.{IsReading};
ghost use Rattle.inc_session.specs.Made.{HasMade, outcome_of};
ghost use Rattle.inc_cli.specs.Run.{ComesTo, Refuses};
ghost use Rattle.inc_cli.specs.Parts.{HasSession, FailsSession, HasOutcome, FailsOutcome};

use crate::answer::Answer;
use crate::source::{Text, text_of};
use crate::status::Status;
use crate::visit::visit;
use inc_base::{Compiler, Copied, Job, Memory, Meter, Name, Source};
use inc_dir::Dir;
use inc_laws::the_invariants_hold;
use inc_session::{Outcome, Saved, Session, outcomes_have_causes};
use inc_words::Command;
use link_laws::objects_link;
use rs_queries::Reading;
use std::alloc::Global;

/// What a session ended with.
fn answer_of(session: Session) -> Result<Answer, Status>
    ensures ok { IfOk result (HasOutcome (outcome_of session)) }
    ensures err { IfErr result (FailsOutcome (outcome_of session)) }
{
    match session.into_outcome() {
        Some(
            Outcome::Built {
                diags,
                image,
                used,
                note,
            },
        ) => Ok(Answer::Built {
            diags,
            image,
            used,
            note,
        }),
        Some(Outcome::Errors { diags, note }) => Ok(Answer::Failed { diags, note }),
        Some(Outcome::DiskFault) => Err(Status::DirectoryFault),
        Some(Outcome::Lost(_)) => Err(Status::Lost),
        Some(Outcome::Disturbed(_, _)) => Err(Status::Disturbed),
        None => Err(Status::OutOfMemory),
    }
}

/// A session of a job whose text was read so.
fn session_of(alloc: Global, job: &Job, reading: Reading) -> Result<Session, Memory>
    requires { IsReading job.now.text reading }
    ensures job { IfOk result (λ session. session.task ≡ job.now) }
    ensures made { IfOk result (λ session. HasMade session []) }
{
    match job.copy() {
        Ok(its) => Session::of(alloc, its, reading),
        Err(refused) => {
            drop(reading);
            Err(refused)
        }
    }
}

/// Lets a session of this job, whose text was read so, visit the directory, and gives what it came to.
fn publish<D: Dir<Saved>>(
    alloc: Global,
    job: Job,
    reading: Reading,
    dir: &mut D,
    meter: &mut Meter,
) -> Result<Answer, Status>
    requires free { D.runs dir.old ≡ false }
    requires read { IsReading job.text reading }
    ensures free { D.runs dir.new ≡ false }
    ensures ok { IfOk result (λ answer. HasSession job answer (record { told = D.told dir.old; own = D.own dir.old }) (record { told = D.told dir.new; own = D.own dir.new }) meter.old meter.new) }
    ensures err { IfErr result (λ status. FailsSession status job (record { told = D.told dir.old; own = D.own dir.old }) (record { told = D.told dir.new; own = D.own dir.new })
        (record { faults = D.faults dir.old; meter = meter.old }) (record { faults = D.faults dir.new; meter = meter.new })) }
{
    outcomes_have_causes();
    let Ok(session) = session_of(alloc, &job, reading) else {
        return Err(Status::OutOfMemory);
    };
    let mut session = session;
    match visit(dir, &mut session, job, meter) {
        Ok(()) => answer_of(session),
        Err(_) => Err(Status::OutOfMemory),
    }
}

/// Builds the source's text as a crate of this name, by this compiler.
pub(crate) fn build<S: Source, D: Dir<Saved>>(
    alloc: Global,
    krate: Name,
    compiler: Compiler,
    src: &mut S,
    dir: &mut D,
    meter: &mut Meter,
) -> Result<Answer, Status>
    requires { D.runs dir.old ≡ false }
    ensures free { D.runs dir.new ≡ false }
    ensures ok { (words : List (List ℕ)) → AsksFor words (Command.Build krate compiler) → IfOk result (λ answer. ComesTo words answer
        (record { left = S.left src.old; source_faults = S.faults src.old; dir = record { told = D.told dir.old; own = D.own dir.old }; dir_faults = D.faults dir.old; meter = meter.old })
        (record { left = S.left src.new; source_faults = S.faults src.new; dir = record { told = D.told dir.new; own = D.own dir.new }; dir_faults = D.faults dir.new; meter = meter.new })) }
    ensures err { (words : List (List ℕ)) → AsksFor words (Command.Build krate compiler) → IfErr result (λ status. Refuses status words
        (record { left = S.left src.old; source_faults = S.faults src.old; dir = record { told = D.told dir.old; own = D.own dir.old }; dir_faults = D.faults dir.old; meter = meter.old })
        (record { left = S.left src.new; source_faults = S.faults src.new; dir = record { told = D.told dir.new; own = D.own dir.new }; dir_faults = D.faults dir.new; meter = meter.new })) }
{
    the_invariants_hold();
    objects_link();
    match text_of(alloc, src) {
        Ok(Text { bytes, reading }) => {
            let job = Job {
                krate,
                compiler,
                text: bytes,
            };
            publish(alloc, job, reading, dir, meter)
        }
        Err(status) => {
            drop(krate);
            Err(status)
        }
    }
}
