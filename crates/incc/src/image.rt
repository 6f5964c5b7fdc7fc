ghost use Rattle.incc.specs.Endings.{EndsAs};

use crate::messages::say;
use inc_cli::Status;
use std::alloc::AllocGlobal;
use std::fs::{File, Files, Metadata, OpenOptions, Permissions};
use std::io::{Eprint, ErrorKind};
use std::os::unix::fs::MetadataExt;
use std::{fs, io};

/// How many names for the new file are tried.
const NAMES: u32 = 1000;

/// The file that an image is written to.
///
/// A regular file, or one that isn't there yet, is written beside its place and renamed there at the end, so
/// that the place has the old image or the whole new one at each moment. Any other, as a device or a pipe, is
/// written as it is.
#[derive(Drop)]
pub struct ImageFile {
    pub file: File,
    moves: Option<Move>,
}

/// A renaming that is still to come.
#[derive(Drop)]
struct Move {
    from: String,
    to: String,
}

/// What the place of an image is before the build.
enum Place {
    /// A regular file, under its own name, with its permissions.
    Old(String, Permissions),
    /// Nothing.
    Free,
    /// What is written as it is.
    Other,
}

impl ImageFile {
    /// Makes ready the place of an image. The number is the process's, for the name of the new file.
    ///
    /// It is an error where the place can't be opened, and where it is the source's own file by any name.
    pub fn open<R: Files<File = File> + AllocGlobal>(
        rt: &R,
        path: &str,
        source: &File,
        process: u32,
    ) -> io::Result<ImageFile> {
        match place_of(rt, path, source)? {
            Place::Old(to, permissions) => {
                let made = beside(rt, to, process)?;
                match made.file.set_permissions(permissions) {
                    Ok(()) => Ok(made),
                    Err(e) => {
                        made.give_up(rt);
                        Err(e)
                    }
                }
            }
            Place::Free => beside(rt, String::from_str(rt.alloc(), path)?, process),
            Place::Other => Ok(ImageFile {
                file: OpenOptions::new().write(true).open(rt, path)?,
                moves: None,
            }),
        }
    }

    /// Ends a build that ended with this status: with 0 the image comes to its place, with any other what
    /// stood there stays. Answers the status of the process.
    pub fn settle<R: Files<File = File> + AllocGlobal + Eprint>(
        self,
        rt: &R,
        path: &str,
        code: u8,
    ) -> u8
        ensures { EndsAs code result }
    {
        if code != Status::Done.code() {
            self.give_up(rt);
            return code;
        }
        match self.finish(rt) {
            Ok(()) => code,
            Err(e) => {
                say(rt, path, &e);
                Status::SinkFault.code()
            }
        }
    }

    /// Sees to it that the new file is written, closes it and renames it. std passes over what the system answers
    /// at a closing, so it is asked before.
    fn finish<R: Files<File = File>>(self, rt: &R) -> io::Result<()> {
        let ImageFile { file, moves } = self;
        let Some(Move { from, to }) = moves else {
            drop(file);
            return Ok(());
        };
        let written = file.sync_all();
        drop(file);
        let done = match written {
            Ok(()) => fs::rename(rt, from.as_str(), to.as_str()),
            Err(e) => Err(e),
        };
        if done.is_err() {
            let _ = fs::remove_file(rt, from.as_str());
        }
        done
    }

    /// Takes the new file away.
    fn give_up<R: Files<File = File>>(self, rt: &R) {
        if let Some(moves) = &self.moves {
            let _ = fs::remove_file(rt, moves.from.as_str());
        }
    }
}

fn place_of<R: Files<File = File> + AllocGlobal>(
    rt: &R,
    path: &str,
    source: &File,
) -> io::Result<Place> {
    let found = match fs::metadata(rt, path) {
        Ok(found) => found,
        Err(e) if e.kind() == ErrorKind::NotFound => return Ok(Place::Free),
        Err(e) => return Err(e),
    };
    if is_same(&found, &source.metadata()?) {
        return Err(io::Error::other("It is the source's own file"));
    }
    if !found.is_file() {
        return Ok(Place::Other);
    }
    Ok(Place::Old(own_name(rt, path)?, found.permissions()))
}

/// Whether the system says that these are of one file.
fn is_same(one: &Metadata, other: &Metadata) -> bool {
    one.dev() == other.dev() && one.ino() == other.ino()
}

/// The name of the file that this path leads to: where the path is a link, the name at its end.
fn own_name<R: Files<File = File> + AllocGlobal>(rt: &R, path: &str) -> io::Result<String> {
    if fs::symlink_metadata(rt, path)?.is_symlink() {
        return Ok(fs::canonicalize(rt, path)?.into_string());
    }
    Ok(String::from_str(rt.alloc(), path)?)
}

/// A new file in the folder of this place, which is to be renamed to it.
fn beside<R: Files<File = File> + AllocGlobal>(
    rt: &R,
    to: String,
    process: u32,
) -> io::Result<ImageFile> {
    for number in 0..NAMES {
        let from = temporary(rt, to.as_str(), process, number)?;
        match OpenOptions::new()
            .write(true)
            .create_new(true)
            .open(rt, from.as_str())
        {
            Ok(file) => {
                return Ok(ImageFile {
                    file,
                    moves: Some(Move { from, to }),
                });
            }
            Err(e) if e.kind() == ErrorKind::AlreadyExists => {}
            Err(e) => return Err(e),
        }
    }
    Err(io::Error::from(ErrorKind::AlreadyExists))
}

/// A name in the folder of this place that says whose it is and what for. It doesn't have the image's own
/// name, so that it isn't too long where that is long.
fn temporary<R: AllocGlobal>(rt: &R, to: &str, process: u32, number: u32) -> io::Result<String> {
    let made = match to.rsplit_once('/') {
        Some((folder, _)) => format!(in rt.alloc(); "{folder}/incc-image-{process}-{number}.tmp")?,
        None => format!(in rt.alloc(); "incc-image-{process}-{number}.tmp")?,
    };
    Ok(made)
}
