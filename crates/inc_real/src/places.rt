use crate::stop::{Failure, Stop};
use crate::things::{Plain, Thing, thing_at};
use inc_base::{Label, Memory};
use std::alloc::Global;
use std::fs::{File, Files};
use std::{fs, str};

/// Where a folder of the system has the crate directories, entries and files, and what stands there.
///
/// What a call gives was looked at by its own kind just before. Where nothing that the call asks for has the
/// name it is `Stop::Absent`, and where something has it that no build makes there, a failure.
#[derive(Drop)]
pub struct Places<R: Drop> {
    pub rt: R,
    root: String,
}

/// A plain file that was seen under its name.
#[derive(Drop)]
pub struct Seen {
    pub path: String,
    pub file: Plain,
}

impl<R: Files<File = File> + AllocGlobal + Drop> Places<R> {
    pub fn new(rt: R, root: &str) -> Result<Places<R>, Memory> {
        Ok(Places {
            root: String::from_str(rt.alloc(), root)?,
            rt,
        })
    }

    pub fn alloc(&self) -> Global {
        self.rt.alloc()
    }

    /// The path of a crate directory that is there.
    pub fn crate_folder(&self, krate: &Label) -> Result<String, Stop> {
        let path = self.crate_path(krate)?;
        match thing_at(&self.rt, path.as_str())? {
            Some(Thing::Folder) => Ok(path),
            None => Err(Stop::Absent),
            Some(Thing::Plain(_) | Thing::Other) => Err(Stop::Failed(Failure::Kind)),
        }
    }

    /// The path of a crate directory, which is made where nothing has its name.
    pub fn made_crate(&self, krate: &Label) -> Result<String, Stop> {
        match self.crate_folder(krate) {
            Err(Stop::Absent) => {}
            found => return found,
        }
        let path = self.crate_path(krate)?;
        if let Err(e) = fs::create_dir_all(&self.rt, path.as_str()) {
            return Err(Stop::aside(e));
        }
        // It is looked at, since others may have put something there in between.
        match thing_at(&self.rt, path.as_str())? {
            Some(Thing::Folder) => Ok(path),
            _ => Err(Stop::Failed(Failure::Changed)),
        }
    }

    /// The path of an entry, whatever has its name, of a crate directory that is there.
    pub fn entry(&self, krate: &Label, entry: &Label) -> Result<String, Stop> {
        below(self.crate_folder(krate)?, entry)
    }

    /// The path of a session's directory that is there.
    pub fn directory(&self, krate: &Label, entry: &Label) -> Result<String, Stop> {
        let path = self.entry(krate, entry)?;
        match thing_at(&self.rt, path.as_str())? {
            Some(Thing::Folder) => Ok(path),
            // A lock file has the name.
            Some(Thing::Plain(_)) | None => Err(Stop::Absent),
            Some(Thing::Other) => Err(Stop::Failed(Failure::Kind)),
        }
    }

    /// A lock file that is there.
    pub fn lock_file(&self, krate: &Label, entry: &Label) -> Result<Seen, Stop> {
        let path = self.entry(krate, entry)?;
        match thing_at(&self.rt, path.as_str())? {
            Some(Thing::Plain(file)) => Ok(Seen { path, file }),
            // A session's directory has the name.
            Some(Thing::Folder) | None => Err(Stop::Absent),
            Some(Thing::Other) => Err(Stop::Failed(Failure::Kind)),
        }
    }

    /// A file of a session's directory that is there.
    pub fn file(&self, krate: &Label, entry: &Label, file: &Label) -> Result<Seen, Stop> {
        let path = below(self.directory(krate, entry)?, file)?;
        match thing_at(&self.rt, path.as_str())? {
            Some(Thing::Plain(file)) => Ok(Seen { path, file }),
            None => Err(Stop::Absent),
            Some(Thing::Folder | Thing::Other) => Err(Stop::Failed(Failure::Kind)),
        }
    }

    fn crate_path(&self, krate: &Label) -> Result<String, Stop> {
        let root = self.root.clone()?;
        if root.is_empty() {
            return with_label(root, krate);
        }
        below(root, krate)
    }
}

/// The path of what has this name in the folder at this path.
pub fn below(mut folder: String, label: &Label) -> Result<String, Stop> {
    folder.push('/')?;
    with_label(folder, label)
}

fn with_label(mut path: String, label: &Label) -> Result<String, Stop> {
    let Ok(text) = str::from_utf8(label.bytes()) else {
        return Err(Stop::Failed(Failure::Name));
    };
    path.push_str(text)?;
    Ok(path)
}
