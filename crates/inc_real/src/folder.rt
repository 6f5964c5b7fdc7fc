ghost use Rattle.std.specs.Prelude.{IfOk};
ghost use Rattle.inc_fs.specs.Kinds.{IsKindOf};
ghost use Rattle.inc_fs.specs.declared.op.Op.TheVariants.{Draw, MakeLock, OpenLock, Look, ListDir, MakeDir, Link, Read, Create, Append, Unlink, UnlinkLock, RemoveDir, Rename};

use crate::draws::Draws;
use crate::handles::Handles;
use crate::names::Names;
use crate::places::{Places, Seen, below};
use crate::replies::reply_to;
use crate::stop::{Failure, Stop};
use crate::things::{Plain, open_seen, thing_at};
use inc_base::{Bytes, Label, Memory};
use inc_fs::{Op, Reply};
use rand_core::{Rng, SeedableRng};
use rand_pcg::Pcg32;
use std::fs::{File, Files, OpenOptions};
use std::io::{ErrorKind, Read, Write};
use std::time::Clock;
use std::{fs, io};

/// The most bytes of a file that is read or copied.
const LONGEST: u64 = 67_108_864;

/// A folder of the system, whose folders are the crate directories.
#[derive(Drop)]
pub struct Folder<R: Drop> {
    places: Places<R>,
    random: Pcg32,
    draws: Draws,
    handles: Handles,
}

impl<R: Files<File = File> + AllocGlobal + Clock + Drop> Folder<R> {
    pub fn new(rt: R, root: &str, seed: u64) -> Result<Folder<R>, Memory> {
        let alloc = rt.alloc();
        Ok(Folder {
            places: Places::new(rt, root)?,
            random: Pcg32::seed_from_u64(seed),
            draws: Draws::new(alloc),
            handles: Handles::new(alloc),
        })
    }

    /// Closes all handles.
    pub fn close_all(&mut self) {
        self.handles.close_all();
    }

    /// Makes a step. The reply is one of its row; where the row has none for what happened, it is the failure.
    pub fn step(&mut self, op: &Op) -> Result<Result<Reply, Failure>, Memory>
        ensures { IfOk result (λ answer. IfOk answer (λ reply. IsKindOf op.now reply)) }
    {
        match self.attempt(op) {
            Ok(reply) => Ok(Ok(reply)),
            Err(stop) => reply_to(self.places.alloc(), op, stop),
        }
    }

    fn attempt(&mut self, op: &Op) -> Result<Reply, Stop>
        ensures { IfOk result (λ reply. IsKindOf op.now reply) }
    {
        match op {
            Op::Draw => self.draw(),
            Op::MakeLock { krate, entry } => self.make_lock(krate, entry),
            Op::OpenLock { krate, entry } => self.open_lock(krate, entry),
            Op::TryLock { handle, exclusive } => self.handles.try_lock(*handle, *exclusive),
            Op::Look { krate } => self.look(krate),
            Op::ListDir { krate, entry } => self.list_dir(krate, entry),
            Op::MakeDir { krate, entry } => self.make_dir(krate, entry),
            Op::Link {
                krate,
                from,
                to,
                file,
            } => self.link(krate, from, to, file),
            Op::Read { krate, entry, file } => self.read(krate, entry, file),
            Op::Create { krate, entry, file } => self.create(krate, entry, file),
            Op::Append {
                krate,
                entry,
                file,
                piece,
            } => self.append(krate, entry, file, piece),
            Op::Unlink { krate, entry, file } => self.unlink(krate, entry, file),
            Op::UnlinkLock { krate, entry } => self.unlink_lock(krate, entry),
            Op::RemoveDir { krate, entry } => self.remove_dir(krate, entry),
            Op::Rename { krate, from, to } => self.rename(krate, from, to),
            Op::Close { handle } => Ok(self.handles.close(*handle)),
        }
    }

    fn draw(&mut self) -> Result<Reply, Stop>
        ensures { IfOk result (λ reply. IsKindOf Draw reply) }
    {
        let now = self.places.rt.since_1970()?.as_micros();
        let Ok(moment) = u64::try_from(now) else {
            return Err(Stop::Failed(Failure::System(None)));
        };
        let first = self.random.next_u32();
        let (moment, random) = self.draws.draw(moment, first)?;
        Ok(Reply::Drawn(moment, random))
    }

    fn make_lock(&mut self, krate: &Label, entry: &Label) -> Result<Reply, Stop>
        ensures { IfOk result (λ reply. IsKindOf (MakeLock krate.now entry.now) reply) }
    {
        self.handles.next()?;
        let path = below(self.places.made_crate(krate)?, entry)?;
        let file = File::create_new(&self.places.rt, path.as_str())?;
        Ok(Reply::Handle(self.handles.keep(file)?))
    }

    /// A lock is taken on a file that is open for reading alone, too.
    fn open_lock(&mut self, krate: &Label, entry: &Label) -> Result<Reply, Stop>
        ensures { IfOk result (λ reply. IsKindOf (OpenLock krate.now entry.now) reply) }
    {
        self.handles.next()?;
        let Seen { path, file } = self.places.lock_file(krate, entry)?;
        let file = self.open(OpenOptions::new().read(true), path.as_str(), file)?;
        Ok(Reply::Handle(self.handles.keep(file)?))
    }

    /// Names that are no labels are no entries.
    fn look(&self, krate: &Label) -> Result<Reply, Stop>
        ensures { IfOk result (λ reply. IsKindOf (Look krate.now) reply) }
    {
        let folder = self.places.crate_folder(krate)?;
        let names = self.names(folder.as_str())?;
        Ok(Reply::Names(names.into_labels()?))
    }

    /// Names that are no labels stand in the folder, and can't be listed.
    fn list_dir(&self, krate: &Label, entry: &Label) -> Result<Reply, Stop>
        ensures { IfOk result (λ reply. IsKindOf (ListDir krate.now entry.now) reply) }
    {
        let folder = self.places.directory(krate, entry)?;
        let names = self.names(folder.as_str())?;
        if names.has_others() {
            return Err(Stop::Failed(Failure::Name));
        }
        Ok(Reply::Names(names.into_labels()?))
    }

    fn names(&self, folder: &str) -> Result<Names, Stop> {
        Names::of(&self.places.rt, self.places.alloc(), folder)
    }

    fn make_dir(&self, krate: &Label, entry: &Label) -> Result<Reply, Stop>
        ensures { IfOk result (λ reply. IsKindOf (MakeDir krate.now entry.now) reply) }
    {
        let path = below(self.places.made_crate(krate)?, entry)?;
        fs::create_dir(&self.places.rt, path.as_str())?;
        Ok(Reply::Done)
    }

    fn link(&self, krate: &Label, from: &Label, to: &Label, file: &Label) -> Result<Reply, Stop>
        ensures { IfOk result (λ reply. IsKindOf (Link krate.now from.now to.now file.now) reply) }
    {
        let source = self.places.file(krate, from, file)?;
        let target = below(self.places.directory(krate, to)?, file)?;
        match fs::hard_link(&self.places.rt, source.path.as_str(), target.as_str()) {
            Ok(()) => Ok(Reply::Done),
            Err(e) if is_final(&e) => Err(e.into()),
            Err(_) => {
                self.copy(&source, target.as_str())?;
                Ok(Reply::Done)
            }
        }
    }

    /// Copies a file to a name that nothing has. A copy that stops in the middle is taken away.
    fn copy(&self, source: &Seen, target: &str) -> Result<(), Stop> {
        if source.file.length > LONGEST {
            return Err(Stop::Failed(Failure::Length));
        }
        let from = self.open(
            OpenOptions::new().read(true),
            source.path.as_str(),
            source.file,
        )?;
        let mut to = File::create_new(&self.places.rt, target)?;
        let failure = match io::copy(&mut from.take(LONGEST + 1), &mut to) {
            Ok(count) if count <= LONGEST => return Ok(()),
            Ok(_) => Failure::Length,
            Err(e) => Failure::System(e.raw_os_error()),
        };
        let _ = fs::remove_file(&self.places.rt, target);
        Err(Stop::Failed(failure))
    }

    fn read(&self, krate: &Label, entry: &Label, file: &Label) -> Result<Reply, Stop>
        ensures { IfOk result (λ reply. IsKindOf (Read krate.now entry.now file.now) reply) }
    {
        let Seen { path, file } = self.places.file(krate, entry, file)?;
        if file.length > LONGEST {
            return Err(Stop::Failed(Failure::Length));
        }
        let opened = self.open(OpenOptions::new().read(true), path.as_str(), file)?;
        let mut bytes = Vec::new(self.places.alloc());
        if let Err(e) = opened.take(LONGEST + 1).read_to_end(&mut bytes) {
            return Err(Stop::aside(e));
        }
        if bytes.len() as u64 > LONGEST {
            return Err(Stop::Failed(Failure::Length));
        }
        Ok(Reply::Bytes(Bytes::from_vec(bytes)?))
    }

    fn create(&self, krate: &Label, entry: &Label, file: &Label) -> Result<Reply, Stop>
        ensures { IfOk result (λ reply. IsKindOf (Create krate.now entry.now file.now) reply) }
    {
        let path = below(self.places.directory(krate, entry)?, file)?;
        drop(File::create_new(&self.places.rt, path.as_str())?);
        Ok(Reply::Done)
    }

    /// It is opened for reading too, so that opening never waits, whatever came to the name in between.
    fn append(
        &self,
        krate: &Label,
        entry: &Label,
        file: &Label,
        piece: &Bytes,
    ) -> Result<Reply, Stop>
        ensures { IfOk result (λ reply. IsKindOf (Append krate.now entry.now file.now piece.now) reply) }
    {
        let Seen { path, file } = self.places.file(krate, entry, file)?;
        let mut opened = self.open(
            OpenOptions::new().read(true).append(true),
            path.as_str(),
            file,
        )?;
        match opened.write_all(piece.as_slice()) {
            Ok(()) => Ok(Reply::Done),
            // Some of it may have been written.
            Err(e) => Err(Stop::Failed(Failure::System(e.raw_os_error()))),
        }
    }

    fn open(&self, how: &OpenOptions, path: &str, seen: Plain) -> Result<File, Stop> {
        open_seen(&self.places.rt, how, path, seen)
    }

    fn unlink(&self, krate: &Label, entry: &Label, file: &Label) -> Result<Reply, Stop>
        ensures { IfOk result (λ reply. IsKindOf (Unlink krate.now entry.now file.now) reply) }
    {
        let seen = self.places.file(krate, entry, file)?;
        fs::remove_file(&self.places.rt, seen.path.as_str())?;
        Ok(Reply::Done)
    }

    fn unlink_lock(&self, krate: &Label, entry: &Label) -> Result<Reply, Stop>
        ensures { IfOk result (λ reply. IsKindOf (UnlinkLock krate.now entry.now) reply) }
    {
        let seen = self.places.lock_file(krate, entry)?;
        fs::remove_file(&self.places.rt, seen.path.as_str())?;
        Ok(Reply::Done)
    }

    fn remove_dir(&self, krate: &Label, entry: &Label) -> Result<Reply, Stop>
        ensures { IfOk result (λ reply. IsKindOf (RemoveDir krate.now entry.now) reply) }
    {
        let path = self.places.directory(krate, entry)?;
        fs::remove_dir(&self.places.rt, path.as_str())?;
        Ok(Reply::Done)
    }

    fn rename(&self, krate: &Label, from: &Label, to: &Label) -> Result<Reply, Stop>
        ensures { IfOk result (λ reply. IsKindOf (Rename krate.now from.now to.now) reply) }
    {
        // The new name is looked at first: where another one renames the same directory meanwhile, it is missing.
        let target = self.places.entry(krate, to)?;
        let is_taken = thing_at(&self.places.rt, target.as_str())?.is_some();
        let source = self.places.directory(krate, from)?;
        if is_taken {
            return Err(Stop::Taken);
        }
        fs::rename(&self.places.rt, source.as_str(), target.as_str())?;
        Ok(Reply::Done)
    }
}

/// Whether no copy is tried in the place of a hard link that the system refused for this.
fn is_final(e: &io::Error) -> bool {
    matches!(
        e.kind(),
        ErrorKind::NotFound | ErrorKind::AlreadyExists | ErrorKind::OutOfMemory
    )
}
