//! The entries that labels spell.
ghost use Rattle.std.specs.Prelude.{◌≡◌, ◌≢◌, ◌↔◌, ◌<◌, ◌^◌, ℕ, IsTrue, IfSome, IfNone};
ghost use Rattle.inc_names.specs.declared.session.SessionName.{SessionName};
ghost use Rattle.inc_names.specs.Entries.{lock_text, working_text, final_text, IsSessionName};
ghost use Rattle.inc_proto.specs.Permits.{IsHash};

use inc_base::Label;
use inc_names::{Entry, SessionName, read_entry};

/// The session whose lock file this is.
#[tactic(auto, using(inc_names::specs::EntryLaws::lock_is_no_working, inc_names::specs::EntryLaws::lock_is_no_final, inc_names::specs::EntryLaws::working_is_no_final))]
pub(crate) fn lock_name(l: &Label) -> Option<SessionName>
    ensures some { IfSome result (λ n. IsSessionName n × (l.now ≡ lock_text n)) }
    ensures none { IfNone result ((n : SessionName) → IsSessionName n → l.now ≢ lock_text n) }
{
    match read_entry(l) {
        Some(Entry::Lock(name)) => Some(name),
        Some(Entry::Working(_)) => None,
        Some(Entry::Final(_, _)) => None,
        None => None,
    }
}

/// The session whose working directory this is.
#[tactic(auto, using(inc_names::specs::EntryLaws::lock_is_no_working, inc_names::specs::EntryLaws::lock_is_no_final, inc_names::specs::EntryLaws::working_is_no_final))]
pub(crate) fn working_name(l: &Label) -> Option<SessionName>
    ensures some { IfSome result (λ n. IsSessionName n × (l.now ≡ working_text n)) }
    ensures none { IfNone result ((n : SessionName) → IsSessionName n → l.now ≢ working_text n) }
{
    match read_entry(l) {
        Some(Entry::Working(name)) => Some(name),
        Some(Entry::Lock(_)) => None,
        Some(Entry::Final(_, _)) => None,
        None => None,
    }
}

/// The session whose finalised directory this is, and its hash.
#[tactic(auto, using(inc_names::specs::EntryLaws::lock_is_no_working, inc_names::specs::EntryLaws::lock_is_no_final, inc_names::specs::EntryLaws::working_is_no_final))]
pub(crate) fn final_name(l: &Label) -> Option<(SessionName, u128)>
    ensures some { IfSome result (λ it. IsSessionName it.0 × IsHash it.1 × (l.now ≡ final_text it.0 it.1)) }
    ensures none { IfNone result ((n : SessionName) (hash : ℕ) → IsSessionName n → IsHash hash → l.now ≢ final_text n hash) }
{
    match read_entry(l) {
        Some(Entry::Final(name, hash)) => Some((name, hash)),
        Some(Entry::Lock(_)) => None,
        Some(Entry::Working(_)) => None,
        None => None,
    }
}

/// Whether this is the lock file of that session.
#[tactic(auto, using(inc_names::specs::EntryLaws::same_lock_text))]
pub(crate) fn is_lock_of(l: &Label, n: SessionName) -> bool
    ensures { IsTrue result ↔ (l.now ≡ lock_text n) }
{
    match lock_name(l) {
        Some(name) => name == n,
        None => false,
    }
}

/// Whether this is the working directory of that session.
#[tactic(auto, using(inc_names::specs::EntryLaws::same_working_text))]
pub(crate) fn is_working_of(l: &Label, n: SessionName) -> bool
    ensures { IsTrue result ↔ (l.now ≡ working_text n) }
{
    match working_name(l) {
        Some(name) => name == n,
        None => false,
    }
}

/// Whether this is the finalised directory of that session with that hash.
#[tactic(auto, using(inc_names::specs::EntryLaws::same_final_text))]
pub(crate) fn is_final_of(l: &Label, n: SessionName, hash: u128) -> bool
    ensures { IsTrue result ↔ (l.now ≡ final_text n hash) }
{
    match final_name(l) {
        Some((name, found)) => name == n && found == hash,
        None => false,
    }
}
