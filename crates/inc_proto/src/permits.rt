//! Whether a session may make a step.
ghost use Rattle.std.specs.Prelude.{◌≡◌, ◌↔◌, ◌⊎◌, IsTrue, IfOk};
ghost use Rattle.inc_names.specs.Entries.{final_text};
ghost use Rattle.inc_wire.specs.Forms.{job_hash_of};
ghost use Rattle.inc_proto.specs.Asked.{HasWanted};
ghost use Rattle.inc_proto.specs.Permits.{IsPermitted, MayPublish, MayRetire};
ghost use Rattle.inc_proto.specs.Views.{dir};

use crate::content::Content;
use crate::entries::is_final_of;
use crate::may::{
    may_append, may_clear, may_clear_own, may_create, may_draw, may_link, may_make_dir,
    may_make_lock, may_read, may_remove_lock, may_retire,
};
use crate::own_dir::{OwnDir, own_dir};
use crate::view::View;
use inc_base::{Label, Memory};
use inc_fs::Op;
use inc_names::SessionName;
use inc_wire::job_hash;

/// Whether n publishes its job under this name.
fn is_published_as(view: &View, n: SessionName, to: &Label) -> Result<bool, Memory>
    ensures { IfOk result (λ yes. IsTrue yes ↔ (to.now ≡ final_text n (job_hash_of view.now.job))) }
{
    let job = view.job();
    let hash = job_hash(job.text.allocator(), job)?;
    Ok(is_final_of(to, n, hash))
}

/// Whether the directory stands there, and is known to have exactly the job's files.
fn has_wanted<C: Content>(
    view: &View,
    its: &OwnDir,
    content: &C,
    krate: &Label,
    from: &Label,
) -> Result<bool, Memory>
    requires { its.now ≡ dir view.now.steps }
    ensures { IfOk result (λ yes. IsTrue yes ↔ HasWanted C.files view.now.job (dir view.now.steps) krate.now from.now) }
{
    let job = view.job();
    match content.wanted(job)? {
        Some(set) => {
            let yes = its.is_exactly(job.text.allocator(), krate, from, set.as_slice());
            drop(set);
            yes
        }
        None => Ok(false),
    }
}

/// Whether n publishes its job's files, from there and under this name.
fn publishes<C: Content>(
    view: &View,
    its: &OwnDir,
    content: &C,
    n: SessionName,
    krate: &Label,
    from: &Label,
    to: &Label,
) -> Result<bool, Memory>
    requires { its.now ≡ dir view.now.steps }
    ensures { IfOk result (λ yes. IsTrue yes ↔ ((to.now ≡ final_text n (job_hash_of view.now.job)) × HasWanted C.files view.now.job (dir view.now.steps) krate.now from.now)) }
{
    if is_published_as(view, n, to)? {
        has_wanted(view, its, content, krate, from)
    } else {
        Ok(false)
    }
}

fn may_publish<C: Content>(
    view: &View,
    its: &OwnDir,
    content: &C,
    krate: &Label,
    from: &Label,
    to: &Label,
) -> Result<bool, Memory>
    requires { its.now ≡ dir view.now.steps }
    ensures { IfOk result (λ yes. IsTrue yes ↔ MayPublish C.files view.now.job view.now.steps krate.now from.now to.now) }
{
    match view.name() {
        Some(n) => {
            if may_clear_own(its, view.own_lock(), krate, from) {
                publishes(view, its, content, n, krate, from, to)
            } else {
                Ok(false)
            }
        }
        None => Ok(false),
    }
}

fn may_rename<C: Content>(
    view: &View,
    its: &OwnDir,
    content: &C,
    krate: &Label,
    from: &Label,
    to: &Label,
) -> Result<bool, Memory>
    requires { its.now ≡ dir view.now.steps }
    ensures { IfOk result (λ yes. IsTrue yes ↔ (MayPublish C.files view.now.job view.now.steps krate.now from.now to.now ⊎ MayRetire view.now.steps krate.now from.now to.now)) }
{
    if may_publish(view, its, content, krate, from, to)? {
        return Ok(true);
    }
    may_retire(
        view.steps(),
        view.index(),
        its,
        view.job().text.allocator(),
        krate,
        from,
        to,
    )
}

fn is_permitted<C: Content>(view: &View, its: &OwnDir, content: &C, op: &Op) -> Result<bool, Memory>
    requires { its.now ≡ dir view.now.steps }
    ensures { IfOk result (λ yes. IsTrue yes ↔ IsPermitted C.files view.now.job view.now.steps op.now) }
{
    let steps = view.steps();
    let index = view.index();
    let job = view.job();
    let drawn = view.name();
    let lock = view.own_lock();
    let alloc = job.text.allocator();
    match op {
        Op::Draw => Ok(may_draw(its)),
        Op::MakeLock { krate, entry } => { may_make_lock(steps, index, drawn, job, krate, entry) }
        Op::OpenLock { .. } => Ok(true),
        Op::TryLock { .. } => Ok(true),
        Op::Look { .. } => Ok(true),
        Op::ListDir { .. } => Ok(true),
        Op::MakeDir { krate, entry } => {
            may_make_dir(steps, index, drawn, lock, alloc, job, krate, entry)
        }
        Op::Link {
            krate,
            from,
            to,
            file,
        } => may_link(steps, index, its, lock, krate, from, to, file),
        Op::Read { krate, entry, .. } => Ok(may_read(its, krate, entry)),
        Op::Create { krate, entry, file } => Ok(may_create(its, lock, krate, entry, file)),
        Op::Append {
            krate,
            entry,
            file,
            piece,
        } => Ok(may_append(its, lock, krate, entry, file, piece)),
        Op::Unlink { krate, entry, .. } => may_clear(steps, index, its, lock, krate, entry),
        Op::UnlinkLock { krate, entry } => {
            may_remove_lock(steps, index, drawn, its, lock, job, krate, entry)
        }
        Op::RemoveDir { krate, entry } => may_clear(steps, index, its, lock, krate, entry),
        Op::Rename { krate, from, to } => may_rename(view, its, content, krate, from, to),
        Op::Close { .. } => Ok(true),
    }
}

impl View {
    /// Whether the session may make this step: exactly where one of the nine permissions holds
    /// (docs/PROTOCOL.md, "What a session may do"). `Memory` where there is no memory for the answer.
    ///
    /// Drawing, reading, creating, appending and clearing its own directory cost a look-up, and making a lock file or
    /// a directory some. Linking, clearing another's directory, renaming one back and removing another's lock file
    /// cost some, and one for each handle that the session was given on that name; where the index doesn't tell
    /// that renaming back or removing is permitted, they look through the session's own steps (docs/PERFORMANCE.md,
    /// "What a session may do"). Publishing, where the directory stands and the new name is right, compares its files
    /// with the wanted ones once. (Where there was no memory to keep the directory and the index of the steps, these
    /// are looked through too.)
    pub fn permits<C: Content>(&self, content: &C, op: &Op) -> Result<bool, Memory>
        ensures { IfOk result (λ yes. IsTrue yes ↔ IsPermitted C.files self.now.job self.now.steps op.now) }
    {
        match self.dir() {
            Some(its) => is_permitted(self, its, content, op),
            None => {
                let its = own_dir(self.job().text.allocator(), self.steps())?;
                is_permitted(self, &its, content, op)
            }
        }
    }
}
