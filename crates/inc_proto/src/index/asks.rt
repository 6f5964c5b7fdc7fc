//! What is asked of the index.
ghost use Rattle.std.specs.Prelude.{◌≡◌, ◌↔◌, ◌⊎◌, ℕ, IsTrue, IfOk, IfSome, Some};
ghost use Rattle.std.specs.Map.{lookup};
ghost use Rattle.std.specs.Ordering.{nat_cmp};
ghost use Rattle.std.specs.BTreeMap.{is_at};
ghost use Rattle.inc_fs.specs.Lists.{IsIn};
ghost use Rattle.inc_fs.specs.Paths.{path_cmp};
ghost use Rattle.inc_names.specs.Entries.{lock_text};
ghost use Rattle.inc_proto.specs.Events.{Steps};
ghost use Rattle.inc_proto.specs.Sought.{IsOnBy, IsSought, Holds, Answers};
ghost use Rattle.inc_proto.specs.Asked.{HasNewer};
ghost use Rattle.inc_proto.specs.Clears.{HasClearLook};
ghost use Rattle.inc_proto.specs.declared.index.Told.TheVariants.{Surely};
ghost use Rattle.inc_proto.specs.Views.{HasAny, HasSeenBoth, IsStanding, alone};
ghost use Rattle.inc_proto.specs.Indexes.{opening_of, from_of, kept_hold, handles_of, file_cmp, HeldBy, IsSince, IsHeldSince, IsAnyHeld, IsTold, IsLater, IsBoth, IsStill, IsBack, Tells, Indexes};

use crate::holds::{Question, Way};
use crate::index::remains::lock_path;
use crate::index::{Handed, Hold, Index, Told, file_of, path_of};
use crate::sought::Sought;
use inc_base::{Label, Memory};
use inc_fs::Table;
use inc_names::{Entry, SessionName, entry_text, newer};

/// Whether a handle is open on this lock file, and counts in this way.
fn is_open_on(handed: &Handed, path: &(Label, Label), way: Way) -> bool
    ensures { IsTrue result ↔ IsOnBy way path.now.0 path.now.1 (opening_of handed.now) }
{
    match handed {
        Handed::Shut => false,
        Handed::MadeAt(krate, entry) => way == Way::Alone && krate == &path.0 && entry == &path.1,
        Handed::OpenedAt(krate, entry) => krate == &path.0 && entry == &path.1,
    }
}

/// Whether what was said last at this place was said after so many steps.
fn is_since(at: Option<usize>, from: usize) -> bool
    ensures { IsTrue result ↔ IsSince at from }
{
    match at {
        Some(at) => from <= at,
        None => false,
    }
}

fn from_of(hold: &Hold, way: Way) -> Option<usize>
    ensures { result ≡ from_of way hold.now }
{
    match way {
        Way::Alone => hold.alone,
        Way::ByOpening => hold.since,
    }
}

fn held_by(from: Option<usize>, at: Option<usize>) -> bool
    ensures { IsTrue result ↔ HeldBy from at }
{
    match from {
        Some(from) => is_since(at, from),
        None => false,
    }
}

/// Whether this handle is open on the lock file, and has held it in this way when this was said last.
fn is_held(
    holds: &Table<u32, Hold>,
    h: u32,
    path: &(Label, Label),
    way: Way,
    at: Option<usize>,
) -> bool
    ensures { IsTrue result ↔ IsHeldSince way path.now at (kept_hold (lookup (is_at (nat_cmp h)) holds.now)) }
{
    match holds.get(&h) {
        Some(hold) => is_open_on(&hold.handed, path, way) && held_by(from_of(hold, way), at),
        None => false,
    }
}

/// When one of two things was said last.
fn later(x: Option<usize>, y: Option<usize>) -> Option<usize>
    ensures { IsLater x y result }
{
    match (x, y) {
        (Some(one), Some(other)) => { if one < other { Some(other) } else { Some(one) } }
        (Some(one), None) => Some(one),
        (None, other) => other,
    }
}

/// When both were said in one step last.
fn both_at(x: Option<usize>, y: Option<usize>) -> Told
    ensures { IsBoth x y result }
{
    match (x, y) {
        (Some(one), Some(other)) => {
            if one == other {
                Told::At(Some(one))
            } else {
                Told::Surely(None)
            }
        }
        (Some(_), None) => Told::At(None),
        (None, _) => Told::At(None),
    }
}

/// When something was said last that wasn't taken back since.
fn still(said: Option<usize>, gone: Option<usize>) -> Option<usize>
    ensures { IsStill said gone result }
{
    match (said, gone) {
        (Some(said), Some(gone)) => { if gone < said { Some(said) } else { None } }
        (Some(said), None) => Some(said),
        (None, _) => None,
    }
}

/// Whether one of these handles has.
fn is_any_held(
    holds: &Table<u32, Hold>,
    handles: &[u32],
    path: &(Label, Label),
    way: Way,
    at: Option<usize>,
) -> bool
    ensures { IsTrue result ↔ IsAnyHeld way path.now at holds.now handles.now }
{
    for h in handles {
        if is_held(holds, *h, path, way, at) {
            return true;
        }
    }
    false
}

impl Index {
    /// The latest listing of a directory that lists this file.
    fn last_listing(
        &self,
        krate: &Label,
        entry: &Label,
        file: &Label,
    ) -> Result<Option<usize>, Memory>
        ensures { IfOk result (λ at. at ≡ lookup (is_at (file_cmp ((krate.now, entry.now), file.now))) self.now.listed) }
    {
        let path = file_of(krate, entry, file)?;
        Ok(self.listed.get(&path).copied())
    }

    /// The latest `Look` of a crate directory that lists this.
    fn last_look(&self, krate: &Label, entry: &Label) -> Result<Option<usize>, Memory>
        ensures { IfOk result (λ at. at ≡ lookup (is_at (path_cmp (krate.now, entry.now))) self.now.looked) }
    {
        let path = path_of(krate, entry)?;
        Ok(self.looked.get(&path).copied())
    }

    /// The latest asking for this lock file.
    fn last_asked(&self, krate: &Label, entry: &Label) -> Result<Option<usize>, Memory>
        ensures { IfOk result (λ at. at ≡ lookup (is_at (path_cmp (krate.now, entry.now))) self.now.asked) }
    {
        let path = path_of(krate, entry)?;
        Ok(self.asked.get(&path).copied())
    }

    /// The latest taking away of this lock file's name.
    fn last_unlinking(&self, krate: &Label, entry: &Label) -> Result<Option<usize>, Memory>
        ensures { IfOk result (λ at. at ≡ lookup (is_at (path_cmp (krate.now, entry.now))) self.now.unlinked) }
    {
        let path = path_of(krate, entry)?;
        Ok(self.unlinked.get(&path).copied())
    }

    /// The latest renaming of a finalised directory of n to this name.
    fn last_back(
        &self,
        krate: &Label,
        entry: &Label,
        n: SessionName,
    ) -> Result<Option<usize>, Memory>
        ensures { IfOk result (λ at. (steps : Steps) → Indexes steps self.now → Tells (HasAny (IsBack krate.now entry.now n)) steps at) }
    {
        let lock = entry_text(self.alloc, &Entry::Lock(n))?;
        let path = file_of(krate, entry, &lock)?;
        Ok(self.back.get(&path).copied())
    }

    /// When a `Look` listed both last, if that is told.
    fn last_both(&self, krate: &Label, x: &Label, y: &Label) -> Result<Told, Memory>
        ensures { IfOk result (λ told. (steps : Steps) → Indexes steps self.now → IsTold (HasSeenBoth krate.now x.now y.now) steps told) }
    {
        let one = self.last_look(krate, x)?;
        let other = self.last_look(krate, y)?;
        Ok(both_at(one, other))
    }

    /// When a `Look` listed this lock file last whose name the session hasn't taken away since.
    fn last_standing(&self, krate: &Label, entry: &Label) -> Result<Option<usize>, Memory>
        ensures { IfOk result (λ at. (steps : Steps) → Indexes steps self.now → Tells (IsStanding krate.now entry.now) steps at) }
    {
        let said = self.last_look(krate, entry)?;
        let gone = self.last_unlinking(krate, entry)?;
        Ok(still(said, gone))
    }

    /// When what is looked for was said last.
    fn last_of(&self, sought: Sought) -> Result<Told, Memory>
        ensures { IfOk result (λ told. (steps : Steps) → Indexes steps self.now → IsTold (HasAny (IsSought sought.entry)) steps told) }
    {
        match sought {
            Sought::Listing(krate, entry, file) => {
                let at = self.last_listing(krate, entry, file)?;
                Ok(Told::At(at))
            }
            Sought::Look(krate, entry) => {
                let at = self.last_look(krate, entry)?;
                Ok(Told::At(at))
            }
            Sought::Both(krate, x, y) => self.last_both(krate, x, y),
            Sought::Back(krate, entry, n) => {
                let at = self.last_back(krate, entry, n)?;
                Ok(Told::At(at))
            }
            Sought::LockMaking(krate, entry) => {
                let at = self.last_asked(krate, entry)?;
                Ok(Told::At(at))
            }
            Sought::DirMaking => Ok(Told::At(self.made)),
            Sought::Newer(_, _) => Ok(Told::Surely(None)),
        }
    }

    /// When one of two things was said last.
    fn last_of_either(&self, one: Sought, other: Sought) -> Result<Told, Memory>
        ensures { IfOk result (λ told. (steps : Steps) → Indexes steps self.now → IsTold (λ after. HasAny (IsSought one.entry) after ⊎ HasAny (IsSought other.entry) after) steps told) }
    {
        match self.last_of(one)? {
            Told::At(x) => match self.last_of(other)? {
                Told::At(y) => Ok(Told::At(later(x, y))),
                Told::Surely(_) => Ok(Told::Surely(None)),
            },
            Told::Surely(_) => Ok(Told::Surely(None)),
        }
    }

    /// The latest `Look` that lists n's lock file, where no directory of n is left of what it lists, by what is kept.
    fn last_clear(&self, krate: &Label, n: SessionName) -> Result<Option<usize>, Memory>
        ensures { IfOk result (λ at. (steps : Steps) → Indexes steps self.now → IsTold (HasClearLook krate.now n) steps (Surely at)) }
    {
        let path = lock_path(self.alloc, krate, n)?;
        match self.left.get(&path) {
            Some(left) => {
                if left.dirs.is_empty() {
                    Ok(Some(left.at))
                } else {
                    Ok(None)
                }
            }
            None => Ok(None),
        }
    }

    /// When what is asked for was said last.
    fn told(&self, question: Question) -> Result<Told, Memory>
        ensures { IfOk result (λ told. (steps : Steps) → Indexes steps self.now → IsTold (Answers question.entry) steps told) }
    {
        match question {
            Question::Has(sought) => self.last_of(sought),
            Question::Either(one, other) => self.last_of_either(one, other),
            Question::Clear(krate, n) => {
                let at = self.last_clear(krate, n)?;
                Ok(Told::Surely(at))
            }
        }
    }

    /// Whether a handle that was given on this lock file has held it in this way since this was said last.
    fn is_held_since(&self, path: &(Label, Label), way: Way, at: Option<usize>) -> bool
        ensures { IsTrue result ↔ IsAnyHeld way path.now at self.now.holds (handles_of (lookup (is_at (path_cmp path.now)) self.now.given)) }
    {
        match self.given.get(path) {
            Some(handles) => is_any_held(&self.holds, handles.as_slice(), path, way, at),
            None => false,
        }
    }

    /// Whether a handle holds n in this way, and the steps since then answer so; `None` where the index doesn't
    /// tell it.
    pub(crate) fn holds_so(
        &self,
        krate: &Label,
        n: SessionName,
        way: Way,
        question: Question,
    ) -> Result<Option<bool>, Memory>
        ensures { (steps : Steps) → Indexes steps self.now → IfOk result (λ found. IfSome found (λ yes. IsTrue yes ↔ ((h : ℕ) × (after : Steps) × Holds way krate.now n steps h after × Answers question.entry after))) }
    {
        match self.told(question)? {
            Told::At(at) => {
                let path = lock_path(self.alloc, krate, n)?;
                Ok(Some(self.is_held_since(&path, way, at)))
            }
            Told::Surely(at) => {
                let path = lock_path(self.alloc, krate, n)?;
                if self.is_held_since(&path, way, at) {
                    Ok(Some(true))
                } else {
                    Ok(None)
                }
            }
        }
    }

    /// Whether one of the steps is what is looked for; `None` where the index doesn't tell it.
    pub(crate) fn has(&self, sought: Sought) -> Result<Option<bool>, Memory>
        ensures { (steps : Steps) → Indexes steps self.now → IfOk result (λ found. IfSome found (λ yes. IsTrue yes ↔ HasAny (IsSought sought.entry) steps)) }
    {
        match self.last_of(sought)? {
            Told::At(at) => Ok(Some(at.is_some())),
            Told::Surely(_) => Ok(None),
        }
    }

    /// Whether a `Look` of the crate directory listed a finalised directory newer than n's.
    pub(crate) fn has_newer(&self, krate: &Label, n: SessionName) -> bool
        ensures { (steps : Steps) → Indexes steps self.now → (IsTrue result ↔ HasNewer krate.now n steps) }
    {
        match self.newest.get(krate) {
            Some(newest) => newer(*newest, n),
            None => false,
        }
    }

    /// Whether this handle has held its lock exclusively since this was said last.
    fn is_alone_since(&self, h: u32, at: Option<usize>) -> bool
        ensures { IsTrue result ↔ HeldBy (kept_hold (lookup (is_at (nat_cmp h)) self.now.holds)).alone at }
    {
        match self.holds.get(&h) {
            Some(hold) => held_by(hold.alone, at),
            None => false,
        }
    }

    /// Whether n's lock file stands, by the steps since this handle has held its lock exclusively.
    pub(crate) fn stands_since(&self, krate: &Label, n: SessionName, h: u32) -> Result<bool, Memory>
        ensures { (steps : Steps) → Indexes steps self.now → IfOk result (λ yes. IsTrue yes ↔ ((after : Steps) × (alone h steps ≡ Some after) × IsStanding krate.now (lock_text n) after)) }
    {
        let lock = entry_text(self.alloc, &Entry::Lock(n))?;
        let at = self.last_standing(krate, &lock)?;
        Ok(self.is_alone_since(h, at))
    }
}
