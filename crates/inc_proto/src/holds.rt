//! Which of its own handles hold a name, and since when.
ghost use Rattle.std.specs.Prelude.{◌≡◌, ◌≤◌, ◌<◌, ◌^◌, ◌↔◌, ℕ, IsTrue, IsFalse, IfSome, IfOk, reverse, drop, length, Option, Some};
ghost use Rattle.std.specs.Option.{option_map};
ghost use Rattle.inc_names.specs.Entries.{lock_text};
ghost use Rattle.inc_proto.specs.Events.{Steps};
ghost use Rattle.inc_proto.specs.Views.{Opening, opening, opening_after};
ghost use Rattle.inc_proto.specs.Sought.{IsOnBy, IsGiven, held, Holds, Answers, turn_of, turned_at};

use crate::clear::has_clear_look;
use crate::entries::is_lock_of;
use crate::sought::{Sought, has};
use inc_base::{Label, Memory};
use inc_fs::{Op, Reply};
use inc_names::SessionName;

/// In which way a name is held.
#[derive(Clone, Copy, Debug, PartialEq, Eq)]
pub(crate) enum Way {
    /// Exclusively, by whatever handle.
    Alone,
    /// In whatever mode, by a handle that was opened.
    ByOpening,
}

/// What a step does to a hold.
#[derive(Clone, Copy, Debug)]
pub(crate) enum Turn {
    /// The lock is got, or held on.
    Gets,
    /// It isn't held any more.
    Loses,
    /// It is as before.
    Stays,
}

pub(crate) fn turn_of(step: &(Op, Reply), way: Way, h: u32) -> Turn
    ensures { result ≡ turn_of way h step.now }
{
    match (&step.0, &step.1) {
        (Op::TryLock { handle, exclusive }, Reply::Got) => {
            if *handle != h {
                Turn::Stays
            } else if way == Way::Alone && !*exclusive {
                Turn::Loses
            } else {
                Turn::Gets
            }
        }
        (Op::Close { handle }, Reply::Done) => {
            if *handle == h {
                Turn::Loses
            } else {
                Turn::Stays
            }
        }
        _ => Turn::Stays,
    }
}

pub(crate) fn turned_at(turn: Turn, before: Option<usize>, at: usize) -> Option<usize>
    requires { at < 2 ^ 63 }
    ensures { result ≡ turned_at turn before at }
{
    match turn {
        Turn::Gets => match before {
            Some(from) => Some(from),
            None => Some(at + 1),
        },
        Turn::Loses => None,
        Turn::Stays => before,
    }
}

/// How many steps there were when the handle began to hold its lock in this way, without a break since.
pub(crate) fn held_from(steps: &[(Op, Reply)], way: Way, h: u32) -> Option<usize>
    ensures within { IfSome result (λ from. from ≤ length steps.now) }
    ensures held { held way h (reverse steps.now) ≡ option_map (λ from. reverse (drop from steps.now)) result }
{
    let mut from = None;
    for (at, step) in steps.iter().enumerate() {
        from = turned_at(turn_of(step, way, h), from, at);
    }
    from
}

/// Whether the handle counts after one more step.
fn on_after(
    step: &(Op, Reply),
    h: u32,
    krate: &Label,
    n: SessionName,
    way: Way,
    before: bool,
) -> bool
    ensures { (o : Option Opening) → (IsTrue before ↔ IsOnBy way krate.now (lock_text n) o) → (IsTrue result ↔ IsOnBy way krate.now (lock_text n) (opening_after h step.now o)) }
{
    match (&step.0, &step.1) {
        (Op::MakeLock { krate: k, entry: e }, Reply::Handle(handle)) => {
            if *handle == h {
                way == Way::Alone && k == krate && is_lock_of(e, n)
            } else {
                before
            }
        }
        (Op::OpenLock { krate: k, entry: e }, Reply::Handle(handle)) => {
            if *handle == h {
                k == krate && is_lock_of(e, n)
            } else {
                before
            }
        }
        (Op::Close { handle }, Reply::Done) => *handle != h && before,
        _ => before,
    }
}

/// Whether the handle is open on n's lock file, and counts in this way.
pub(crate) fn is_on(steps: &[(Op, Reply)], h: u32, krate: &Label, n: SessionName, way: Way) -> bool
    ensures { IsTrue result ↔ IsOnBy way krate.now (lock_text n) (opening h (reverse steps.now)) }
{
    let mut on = false;
    for step in steps {
        on = on_after(step, h, krate, n, way, on);
    }
    on
}

/// The handle that this step gave on n's lock file.
fn given(step: &(Op, Reply), krate: &Label, n: SessionName) -> Option<u32>
    ensures { (h : ℕ) → IsGiven krate.now (lock_text n) h step.now → result ≡ Some h }
{
    match (&step.0, &step.1) {
        (
            Op::MakeLock { krate: k, entry: e } | Op::OpenLock { krate: k, entry: e },
            Reply::Handle(handle),
        ) => {
            if k == krate && is_lock_of(e, n) {
                Some(*handle)
            } else {
                None
            }
        }
        _ => None,
    }
}

/// What is asked of the steps since a name is held.
#[derive(Clone, Copy, Debug)]
pub(crate) enum Question<'a> {
    /// Whether one of them is this.
    Has(Sought<'a>),
    /// Whether one of them is this or that.
    Either(Sought<'a>, Sought<'a>),
    /// Whether one of them is a `Look` that lists this session's lock file and, as the steps after it changed
    /// what it lists, no directory of that session.
    Clear(&'a Label, SessionName),
}

fn answers(since: &[(Op, Reply)], question: Question) -> Result<bool, Memory>
    ensures { IfOk result (λ yes. IsTrue yes ↔ Answers question.entry (reverse since.now)) }
{
    match question {
        Question::Has(sought) => Ok(has(since, sought)),
        Question::Either(one, other) => Ok(has(since, one) || has(since, other)),
        Question::Clear(krate, n) => has_clear_look(since, krate, n),
    }
}

/// Whether this handle holds n in this way, and the steps since then answer so.
fn holds_by(
    steps: &[(Op, Reply)],
    krate: &Label,
    n: SessionName,
    way: Way,
    question: Question,
    h: u32,
) -> Result<bool, Memory>
    ensures { IfOk result (λ yes. IsTrue yes ↔ ((after : Steps) × Holds way krate.now n (reverse steps.now) h after × Answers question.entry after)) }
{
    if is_on(steps, h, krate, n, way) {
        match held_from(steps, way, h) {
            Some(from) => {
                let since = &steps[from..];
                answers(since, question)
            }
            None => Ok(false),
        }
    } else {
        Ok(false)
    }
}

/// Whether the handle that this step gave on n's lock file holds n so.
fn gives_hold(
    step: &(Op, Reply),
    steps: &[(Op, Reply)],
    krate: &Label,
    n: SessionName,
    way: Way,
    question: Question,
) -> Result<bool, Memory>
    ensures yes { IfOk result (λ yes. IsTrue yes → ((h : ℕ) × (after : Steps) × Holds way krate.now n (reverse steps.now) h after × Answers question.entry after)) }
    ensures no { IfOk result (λ yes. IsFalse yes → (h : ℕ) (after : Steps) → IsGiven krate.now (lock_text n) h step.now → Holds way krate.now n (reverse steps.now) h after → Answers question.entry after → ⊥) }
{
    match given(step, krate, n) {
        Some(h) => holds_by(steps, krate, n, way, question, h),
        None => Ok(false),
    }
}

/// Whether a handle holds n in this way, and the steps since then answer so.
pub(crate) fn holds_and(
    steps: &[(Op, Reply)],
    krate: &Label,
    n: SessionName,
    way: Way,
    question: Question,
) -> Result<bool, Memory>
    ensures { IfOk result (λ yes. IsTrue yes ↔ ((h : ℕ) × (after : Steps) × Holds way krate.now n (reverse steps.now) h after × Answers question.entry after)) }
{
    for step in steps {
        if gives_hold(step, steps, krate, n, way, question)? {
            return Ok(true);
        }
    }
    Ok(false)
}
