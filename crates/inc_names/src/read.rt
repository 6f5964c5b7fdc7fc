ghost use Rattle.std.specs.Prelude.{◌≡◌, ◌≢◌, ℕ, List, ◌++◌, ◌<◌, ◌≤◌, length, take, drop, IfSome, IfNone, MatchOption};
ghost use Rattle.std.specs.List.{AllPass};
ghost use Rattle.inc_base.specs.Base36.{text36, is_digit36};
ghost use Rattle.inc_names.specs.declared.entry.Entry.{Entry};
ghost use Rattle.inc_names.specs.declared.session.SessionName.{SessionName};
ghost use Rattle.inc_names.specs.Entries.{stem_text, entry_text, IsEntry, IsSessionName};
ghost use Rattle.inc_names.specs.EntryLaws.{StartsNoDigit};

use crate::entry::Entry;
use crate::session::SessionName;
use inc_base::{Label, from36, from36_wide};

/// The entry that has this text, and None exactly where none has, its numbers within their types'
/// ranges. (docs/PROTOCOL.md, "Names")
pub fn read_entry(l: &Label) -> Option<Entry>
    ensures some { IfSome result (λ e. IsEntry e × (l.now ≡ entry_text e)) }
    ensures none { IfNone result ((e : Entry) → IsEntry e → l.now ≢ entry_text e) }
{
    let (name, end) = take_name(l.bytes())?;
    if end == b".lock".as_slice() {
        return Some(Entry::Lock(name));
    }
    if end == b"-working".as_slice() {
        return Some(Entry::Working(name));
    }
    let hash = from36_wide(after(end, b"-")?)?;
    Some(Entry::Final(name, hash))
}

/// The session that the text of an entry begins with, and what follows.
fn take_name(text: &[u8]) -> Option<(SessionName, &[u8])>
    ensures some { IfSome result (λ it. IsSessionName it.0 × (text.now ≡ stem_text it.0 ++ it.1.now) × StartsNoDigit it.1.now) }
    ensures none { IfNone result ((name : SessionName) (rest : List ℕ) → IsSessionName name → StartsNoDigit rest → text.now ≢ stem_text name ++ rest) }
{
    let (moment, rest) = take_number(after(text, b"s-")?, u128::from(u64::MAX))?;
    let (random, rest) = take_number(after(rest, b"-")?, u128::from(u32::MAX))?;
    let name = SessionName {
        moment: moment as u64,
        random: random as u32,
    };
    Some((name, rest))
}

/// The number, at most `most`, that a text begins with, and what follows its digits.
fn take_number(text: &[u8], most: u128) -> Option<(u128, &[u8])>
    ensures some { IfSome result (λ it. (it.0 ≤ most) × (text.now ≡ text36 it.0 ++ it.1.now) × StartsNoDigit it.1.now) }
    ensures none { IfNone result ((v : ℕ) (rest : List ℕ) → v ≤ most → StartsNoDigit rest → text.now ≢ text36 v ++ rest) }
{
    let (digits, rest) = text.split_at(digits_end(text));
    let v = from36(digits)?;
    if v > most {
        return None;
    }
    Some((v, rest))
}

/// What follows a front of a text.
fn after<'a>(text: &'a [u8], front: &[u8]) -> Option<&'a [u8]>
    ensures { MatchOption result ((rest : List ℕ) → text.now ≢ front.now ++ rest) (λ rest. text.now ≡ front.now ++ rest.now) }
{
    text.strip_prefix(front)
}

/// Where the digits end that a text begins with.
fn digits_end(text: &[u8]) -> usize
    ensures within { result ≤ length text.now }
    ensures digits { AllPass is_digit36 (take result text.now) }
    ensures end { StartsNoDigit (drop result text.now) }
{
    for (end, byte) in text.iter().enumerate() {
        if !is_digit(*byte) {
            return end;
        }
    }
    text.len()
}

fn is_digit(byte: u8) -> bool
    ensures { result ≡ is_digit36 byte }
{
    byte.is_ascii_digit() || byte.is_ascii_lowercase()
}
