use crate::stop::{Failure, Stop};
use inc_base::{Label, List, MOST, Memory};
use std::alloc::Global;
use std::fs::Files;
use std::io::{ErrorKind, Read};

/// How many bytes of names one call asks the system for. Any name fits.
const CHUNK: usize = 8192;

/// The names of a folder, as they are found.
#[derive(Drop)]
pub struct Names {
    labels: Vec<Label>,
    has_others: bool,
}

impl Names {
    /// The names of the folder at this path, which doesn't end with a slash: then a symbolic link isn't followed.
    ///
    /// The system gives the names alone, many at a time; no path is made of any.
    pub fn of<R: Files>(rt: &R, alloc: Global, folder: &str) -> Result<Names, Stop> {
        let mut dir = rt.open_dir(folder)?;
        let mut names = Names {
            labels: Vec::new(alloc),
            has_others: false,
        };
        let mut chunk = [0u8; CHUNK];
        for _ in 0..u64::MAX {
            match dir.read(&mut chunk) {
                Ok(0) => return Ok(names),
                Ok(count) => names.note(alloc, &chunk[..count])?,
                Err(e) if e.kind() == ErrorKind::Interrupted => {}
                Err(e) => return Err(Stop::aside(e)),
            }
        }
        Err(Stop::Failed(Failure::System(None)))
    }

    /// Adds names, each of which is ended by a zero byte.
    fn note(&mut self, alloc: Global, texts: &[u8]) -> Result<(), Memory> {
        for text in texts.split(|byte| *byte == 0) {
            match Label::of(alloc, text)? {
                Some(label) => self.labels.push(label)?,
                None => self.has_others |= !is_own(text),
            }
        }
        Ok(())
    }

    /// Whether there is a name that isn't a label.
    pub fn has_others(&self) -> bool {
        self.has_others
    }

    /// Those that are labels, in the order of their bytes.
    pub fn into_labels(self) -> Result<List<Label>, Memory> {
        let Names {
            mut labels,
            has_others: _,
        } = self;
        if labels.len() > MOST {
            return Err(Memory);
        }
        labels.sort()?;
        Ok(List::from_vec(labels))
    }
}

/// Whether this is what each folder has: itself and the one above it, and nothing after the last name.
fn is_own(text: &[u8]) -> bool {
    text.is_empty() || text == b".".as_slice() || text == b"..".as_slice()
}
