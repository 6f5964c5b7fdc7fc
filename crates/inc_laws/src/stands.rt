ghost use Rattle.std.specs.Prelude.{◌≡◌, ◌≢◌, ◌⊎◌, ℕ, IfOk, List, None, Some, reverse};
ghost use Rattle.std.specs.Option.{option_map};
ghost use Rattle.inc_fs.specs.Lists.{IsIn};
ghost use Rattle.inc_fs.specs.State.{Text};
ghost use Rattle.inc_proto.specs.Files.{IsSet};
ghost use Rattle.inc_proto.specs.Finals.{Publication, IsWhole, entry_of, published, newest};
ghost use Rattle.inc_laws.specs.Newest.{final_of, IsFinal, IsFound, IsLater, IsNewestFound};

use inc_base::{Label, Memory, Name};
use inc_fs::{Op, Reply};
use inc_names::{Entry, SessionName, newer, read_entry};
use inc_proto::{Content, Event, Ground};

/// The newest entry of the crate that was ever published in a ground. It stands there with exactly its job's files.
/// `None` exactly where nothing was published (docs/PROTOCOL.md, "What every legal history keeps"). It goes over the
/// history once and takes no memory.
pub fn newest_stands<C: Content>(ground: &Ground<C>, krate: &Name) -> Result<Option<Entry>, Memory>
    ensures newest { IfOk result (λ found. found ≡ option_map final_of (newest ground.now.history krate.now)) }
    ensures whole { (made : Publication) → newest ground.now.history krate.now ≡ Some made
        → (set : List (Text × Text)) × IsIn (published ground.now.history) made × IsSet C.files made.job set × IsWhole ground.now.state krate.now (entry_of made) set }
    ensures none { newest ground.now.history krate.now ≡ None → (made : Publication) → IsIn (published ground.now.history) made → made.job.krate ≢ krate.now }
{
    ground.legal();
    match newest_found(ground.history(), krate) {
        Some((name, hash)) => Ok(Some(Entry::Final(name, hash))),
        None => Ok(None),
    }
}

/// Of what these events renamed to finalised entries of the crate, the one with the newest name.
fn newest_found(events: &[Event], krate: &Name) -> Option<(SessionName, u128)>
    ensures { IsNewestFound krate.now (reverse events.now) result }
{
    let mut newest = None;
    for event in events {
        newest = later(found(event, krate), newest);
    }
    newest
}

/// The finalised entry to which this event renamed a directory of the crate.
fn found(event: &Event, krate: &Name) -> Option<(SessionName, u128)>
    ensures { IsFound krate.now event.now result }
{
    match event {
        Event::Did(_, Op::Rename { krate: k, to, .. }, Reply::Done) => {
            if k.bytes() == krate.bytes() {
                final_name(to)
            } else {
                None
            }
        }
        _ => None,
    }
}

/// The session whose finalised directory this is, and its hash.
#[tactic(auto, using(inc_names::specs::EntryLaws::lock_is_no_final, inc_names::specs::EntryLaws::working_is_no_final))]
pub(crate) fn final_name(l: &Label) -> Option<(SessionName, u128)>
    ensures { IsFinal l.now result }
{
    match read_entry(l) {
        Some(Entry::Final(name, hash)) => Some((name, hash)),
        Some(Entry::Lock(_)) => None,
        Some(Entry::Working(_)) => None,
        None => None,
    }
}

/// Of what was found and what was found before, the one with the newer name.
fn later(
    found: Option<(SessionName, u128)>,
    before: Option<(SessionName, u128)>,
) -> Option<(SessionName, u128)>
    ensures { IsLater found before result }
{
    let Some(one) = found else {
        return before;
    };
    match before {
        Some(other) => {
            if newer(other.0, one.0) {
                Some(other)
            } else {
                Some(one)
            }
        }
        None => Some(one),
    }
}
