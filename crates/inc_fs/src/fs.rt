ghost use Rattle.std.specs.Prelude.{◌≡◌, ◌≢◌, IfOk, OnOk, OnErr};
ghost use Rattle.inc_fs.specs.State.{start};
ghost use Rattle.inc_fs.specs.Step.{StepWith, IsFirstNew, Answers, cut_short};
ghost use Rattle.inc_fs.specs.Kinds.{IsKindOf};

mod draws;
mod ending;
mod files;
mod folders;
mod locks;
mod names;

use crate::drawn::DrawnPairs;
use crate::entries::Entries;
use crate::op::{Chance, Op, Reply};
use crate::state::{File, Handle};
use inc_base::{Copied, Label, Memory};
use std::alloc::Global;
use std::collections::BTreeMap;
use std::marker::Model;

/// The directory in memory, which contracts see as a `State`.
///
/// Files keep their numbers, so the bytes of one that lost its last name stay until the directory is
/// dropped. Of the handle numbers given out, which are those from 0 on, the count is kept.
#[derive(Drop)]
pub struct Fs {
    files: Vec<File>,
    entries: Entries,
    handles: BTreeMap<u32, Handle>,
    given: u32,
    drawn: DrawnPairs,
}

impl Model for Fs {
    ghost use Rattle.inc_fs.specs.Lists.{below};
    ghost use Rattle.inc_fs.specs.State.{State};

    ghost Value = { State };

    ghost view = { λ f. record { files = f.files.items; entries = f.entries; handles = f.handles.entries; given = below f.given; drawn = f.drawn } };
}

impl Fs {
    /// The empty directory.
    #[tactic(auto, unfolding(crate::specs::Lists::below))]
    pub fn new(alloc: Global) -> Fs
        ensures { result ≡ start }
    {
        Fs {
            files: Vec::new(alloc),
            entries: Entries::new(alloc),
            handles: BTreeMap::new(alloc),
            given: 0,
            drawn: DrawnPairs::new(alloc),
        }
    }

    /// Makes one step of session `who` by the table (docs/PROTOCOL.md, "The table of steps"): the new
    /// state and the reply are those that the table has with this chance.
    ///
    /// Answers `Memory` where there is no memory, also for a number of a handle or a file past the last
    /// u32; then the directory is as before.
    pub fn apply(&mut self, who: u32, op: &Op, chance: Chance) -> Result<Reply, Memory>
        ensures ok { IfOk result (λ reply. StepWith self.old who op.now chance reply self.new) }
        ensures kind { IfOk result (λ reply. IsKindOf op.now reply) }
        ensures err { OnErr result (self.new ≡ self.old) }
    {
        match chance.fails {
            Some(cut) => self.fail(op, cut),
            None => self.answer(who, op, chance),
        }
    }

    fn fail(&mut self, op: &Op, cut: u32) -> Result<Reply, Memory>
        ensures fault { IfOk result (λ reply. reply ≡ Reply.Fault) }
        ensures cut { OnOk result (self.new ≡ cut_short self.old op.now cut) }
        ensures err { OnErr result (self.new ≡ self.old) }
    {
        if let Op::Append {
            krate,
            entry,
            file,
            piece,
        } = op
        {
            let piece = piece.as_slice();
            let count = piece.len().min(cut as usize);
            self.append(krate, entry, file, &piece[..count])?;
        }
        Ok(Reply::Fault)
    }

    fn answer(&mut self, who: u32, op: &Op, chance: Chance) -> Result<Reply, Memory>
        ensures answers { IfOk result (λ reply. Answers self.old who op.now reply self.new) }
        ensures first { IfOk result (λ reply. IsFirstNew self.old.drawn chance reply) }
        ensures no_fault { IfOk result (λ reply. reply ≢ Reply.Fault) }
        ensures err { OnErr result (self.new ≡ self.old) }
    {
        match op {
            Op::Draw => self.draw(chance),
            Op::MakeLock { krate, entry } => self.make_lock(who, krate, entry),
            Op::OpenLock { krate, entry } => self.open_lock(who, krate, entry),
            Op::TryLock { handle, exclusive } => self.try_lock(who, *handle, *exclusive),
            Op::Look { krate } => self.look(krate),
            Op::ListDir { krate, entry } => self.list_dir(krate, entry),
            Op::MakeDir { krate, entry } => self.make_dir(krate, entry),
            Op::Link {
                krate,
                from,
                to,
                file,
            } => self.link(krate, from, to, file),
            Op::Read { krate, entry, file } => self.read(krate, entry, file),
            Op::Create { krate, entry, file } => self.create(krate, entry, file),
            Op::Append {
                krate,
                entry,
                file,
                piece,
            } => { self.append(krate, entry, file, piece.as_slice()) }
            Op::Unlink { krate, entry, file } => self.unlink(krate, entry, file),
            Op::UnlinkLock { krate, entry } => self.unlink_lock(krate, entry),
            Op::RemoveDir { krate, entry } => self.remove_dir(krate, entry),
            Op::Rename { krate, from, to } => self.rename(krate, from, to),
            Op::Close { handle } => self.close(who, *handle),
        }
    }
}

fn path(krate: &Label, entry: &Label) -> Result<(Label, Label), Memory>
    ensures { IfOk result (λ path. path ≡ (krate.now, entry.now)) }
{
    Ok((krate.copy()?, entry.copy()?))
}

fn number_of(count: usize) -> Result<u32, Memory>
    ensures { IfOk result (λ number. number ≡ count) }
{
    match u32::try_from(count) {
        Ok(number) => Ok(number),
        Err(_) => Err(Memory),
    }
}
