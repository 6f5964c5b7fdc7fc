use crate::stop::{Failure, Stop};
use std::fs;
use std::fs::{File, Files, Metadata, OpenOptions};
use std::io::ErrorKind;
use std::os::unix::fs::MetadataExt;

/// A plain file, as the system tells it apart from each other one, and its length.
#[derive(Clone, Copy)]
pub struct Plain {
    device: u64,
    number: u64,
    pub length: u64,
}

/// What has a name, by its own kind: a symbolic link is itself, and not what it leads to.
#[derive(Clone, Copy)]
pub enum Thing {
    Plain(Plain),
    Folder,
    /// A symbolic link, a pipe, a socket or a device.
    Other,
}

/// What has the name at the end of this path: `None` where nothing has. The folders on the way may be links.
pub fn thing_at<R: Files>(rt: &R, path: &str) -> Result<Option<Thing>, Stop> {
    match fs::symlink_metadata(rt, path) {
        Ok(metadata) => Ok(Some(thing_of(&metadata))),
        Err(e) if e.kind() == ErrorKind::NotFound => Ok(None),
        Err(e) => Err(e.into()),
    }
}

fn thing_of(metadata: &Metadata) -> Thing {
    if metadata.is_dir() {
        return Thing::Folder;
    }
    if !metadata.is_file() {
        return Thing::Other;
    }
    Thing::Plain(Plain {
        device: metadata.dev(),
        number: metadata.ino(),
        length: metadata.len(),
    })
}

/// Opens the file that was seen under this name. Where another one was opened, it is closed untouched.
pub fn open_seen<R: Files<File = File>>(
    rt: &R,
    how: &OpenOptions,
    path: &str,
    seen: Plain,
) -> Result<File, Stop> {
    let file = how.open(rt, path)?;
    match file.metadata() {
        Ok(metadata) if is_seen(thing_of(&metadata), seen) => Ok(file),
        Ok(_) => Err(Stop::Failed(Failure::Changed)),
        Err(e) => Err(Stop::aside(e)),
    }
}

fn is_seen(opened: Thing, seen: Plain) -> bool {
    match opened {
        Thing::Plain(now) => now.device == seen.device && now.number == seen.number,
        Thing::Folder | Thing::Other => false,
    }
}
