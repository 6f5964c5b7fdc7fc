ghost use Rattle.std.specs.Prelude.{◌≡◌, ◌⊎◌, ◌≤◌, [], true, false, OnOk, OnErr};
ghost use Rattle.inc_proto.specs.Events.{Steps};
ghost use Rattle.inc_session.specs.Made.{HasMade};
ghost use Rattle.inc_cli.specs.Run.{HasVisited, HasNotBegun, IsSoFar};
ghost use Rattle.inc_cli.specs.Visits.{HasGone, HasGrown, HasEnded, Sees};

use inc_base::{Copied, Job, Memory, Meter};
use inc_dir::Dir;
use inc_session::{Saved, Session};

/// Makes the session's steps, each of which its own steps permit, until it has ended.
fn drive<D: Dir<Saved>>(dir: &mut D, session: &mut Session, meter: &mut Meter) -> Result<(), Memory>
    requires running { D.runs dir.old ≡ true }
    requires fresh { HasMade session.old [] }
    requires sees { Sees (D.own dir.old) session.old.task [] (D.told dir.old) }
    ensures runs { D.runs dir.new ≡ true }
    ensures own { D.own dir.new ≡ D.own dir.old }
    ensures task { OnOk result (session.new.task ≡ session.old.task) }
    ensures ok { OnOk result ((steps : Steps) × HasGrown (D.own dir.old) steps (D.told dir.old) (D.told dir.new) × HasEnded session.new steps (D.faults dir.old) (D.faults dir.new) meter.old meter.new) }
    ensures err { OnErr result ((steps : Steps) × HasGone (D.own dir.old) session.old.task steps (D.told dir.old) (D.told dir.new)) }
    ensures faults { D.faults dir.old ≤ D.faults dir.new }
{
    'steps: while let Some(op) = session.op() {
        let asked = op.copy()?;
        let reply = dir.act(asked)?;
        session.feed(reply, meter)?;
    }
    Ok(())
}

/// Lets a session that has made no step visit the directory: it begins, makes its steps and leaves.
///
/// After `Memory` it has left all the same, if it began.
pub(crate) fn visit<D: Dir<Saved>>(
    dir: &mut D,
    session: &mut Session,
    job: Job,
    meter: &mut Meter,
) -> Result<(), Memory>
    requires free { D.runs dir.old ≡ false }
    requires fresh { HasMade session.old [] }
    requires its_job { session.old.task ≡ job }
    ensures free { D.runs dir.new ≡ false }
    ensures task { OnOk result (session.new.task ≡ job) }
    ensures ok { OnOk result ((steps : Steps) × HasVisited job steps (record { told = D.told dir.old; own = D.own dir.old }) (record { told = D.told dir.new; own = D.own dir.new }) × HasEnded session.new steps (D.faults dir.old) (D.faults dir.new) meter.old meter.new) }
    ensures err { OnErr result (HasNotBegun (record { told = D.told dir.old; own = D.own dir.old }) (record { told = D.told dir.new; own = D.own dir.new })
        ⊎ ((steps : Steps) × HasVisited job steps (record { told = D.told dir.old; own = D.own dir.old }) (record { told = D.told dir.new; own = D.own dir.new }) × IsSoFar job steps)) }
    ensures faults { D.faults dir.old ≤ D.faults dir.new }
{
    dir.begin(job)?;
    let driven = drive(dir, session, meter);
    dir.leave();
    driven
}
