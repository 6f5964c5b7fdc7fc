//! Whether no directory of a name is left, by a listing and the own steps after it.
ghost use Rattle.std.specs.Prelude.{◌≡◌, ◌↔◌, ◌⊎◌, ℕ, IsTrue, IfOk, OnOk, reverse};
ghost use Rattle.inc_names.specs.Entries.{working_text, final_text, lock_text};
ghost use Rattle.inc_fs.specs.Lists.{IsIn};
ghost use Rattle.inc_proto.specs.Views.{without, left_by, left_after};
ghost use Rattle.inc_proto.specs.Permits.{IsHash, HasNoDir};
ghost use Rattle.inc_proto.specs.Clears.{IsClearLook, HasClearLook};

use crate::entries::{is_lock_of, is_working_of};
use crate::sought::is_final_dir_of;
use inc_base::{Copied, Label, List, Memory};
use inc_fs::{Op, Reply};
use inc_names::SessionName;

pub(crate) fn take_out(names: &mut List<Label>, entry: &Label)
    ensures { names.new ≡ without entry.now names.old }
{
    names.retain(|name| name != entry);
}

/// Changes what is listed in a crate directory as this own step did.
fn leave_by(names: &mut List<Label>, step: &(Op, Reply), krate: &Label) -> Result<(), Memory>
    ensures { OnOk result (names.new ≡ left_by krate.now step.now names.old) }
{
    match (&step.0, &step.1) {
        (Op::MakeDir { krate: k, entry }, Reply::Done) => {
            if k == krate {
                names.push(entry.copy()?)
            } else {
                Ok(())
            }
        }
        (Op::RemoveDir { krate: k, entry }, Reply::Done) => {
            if k == krate {
                take_out(names, entry);
            }
            Ok(())
        }
        (Op::Rename { krate: k, from, to }, Reply::Done) => {
            if k == krate {
                take_out(names, from);
                names.push(to.copy()?)
            } else {
                Ok(())
            }
        }
        _ => Ok(()),
    }
}

/// What is listed once these own steps have changed it.
fn left_after(
    steps: &[(Op, Reply)],
    krate: &Label,
    names: &List<Label>,
) -> Result<List<Label>, Memory>
    ensures { IfOk result (λ left. left ≡ left_after krate.now (reverse steps.now) names.now) }
{
    let mut left = names.copy()?;
    for step in steps {
        leave_by(&mut left, step, krate)?;
    }
    Ok(left)
}

/// Whether this is a directory of that session.
fn is_dir_of(l: &Label, n: SessionName) -> bool
    ensures { IsTrue result ↔ ((l.now ≡ working_text n) ⊎ ((hash : ℕ) × IsHash hash × (l.now ≡ final_text n hash))) }
{
    is_working_of(l, n) || is_final_dir_of(l, n)
}

fn has_no_dir(names: &[Label], n: SessionName) -> bool
    ensures { IsTrue result ↔ HasNoDir n names.now }
{
    for name in names {
        if is_dir_of(name, n) {
            return false;
        }
    }
    true
}

fn lists_lock(names: &[Label], n: SessionName) -> bool
    ensures { IsTrue result ↔ IsIn names.now (lock_text n) }
{
    for name in names {
        if is_lock_of(name, n) {
            return true;
        }
    }
    false
}

/// Whether this step is a `Look` that lists n's lock file and, as the steps after it have changed it, no
/// directory of n.
fn is_clear_look(
    step: &(Op, Reply),
    later: &[(Op, Reply)],
    krate: &Label,
    n: SessionName,
) -> Result<bool, Memory>
    ensures { IfOk result (λ yes. IsTrue yes ↔ IsClearLook krate.now n step.now (reverse later.now)) }
{
    match (&step.0, &step.1) {
        (Op::Look { krate: k }, Reply::Names(names)) => {
            if k != krate || !lists_lock(names.as_slice(), n) {
                return Ok(false);
            }
            let left = left_after(later, krate, names)?;
            Ok(has_no_dir(left.as_slice(), n))
        }
        _ => Ok(false),
    }
}

/// Whether one of these steps is such a `Look`.
pub(crate) fn has_clear_look(
    steps: &[(Op, Reply)],
    krate: &Label,
    n: SessionName,
) -> Result<bool, Memory>
    ensures { IfOk result (λ yes. IsTrue yes ↔ HasClearLook krate.now n (reverse steps.now)) }
{
    for (at, step) in steps.iter().enumerate() {
        let later = &steps[at + 1..];
        if is_clear_look(step, later, krate, n)? {
            return Ok(true);
        }
    }
    Ok(false)
}
