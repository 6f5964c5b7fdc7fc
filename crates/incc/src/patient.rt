use crate::messages::say;
use std::alloc::AllocGlobal;
use std::io;
use std::io::{Eprint, ErrorKind, Read, Write};

/// A reader or a writer whose calls are made again where a signal interrupted them. Any other failure is told
/// to the person, under the name.
#[derive(Drop)]
pub struct Patient<'a, R, F> {
    rt: &'a R,
    name: &'a str,
    inner: F,
}

impl<'a, R, F> Patient<'a, R, F> {
    pub fn new(rt: &'a R, name: &'a str, inner: F) -> Patient<'a, R, F> {
        Patient { rt, name, inner }
    }
}

impl<R: Eprint + AllocGlobal, F: Read> Read for Patient<'_, R, F> {
    fn read(&mut self, buf: &mut [u8]) -> io::Result<usize> {
        for _ in 0..u64::MAX {
            match self.inner.read(buf) {
                Ok(count) => return Ok(count),
                Err(e) if e.kind() == ErrorKind::Interrupted => {}
                Err(e) => {
                    say(self.rt, self.name, &e);
                    return Err(e);
                }
            }
        }
        Err(io::Error::from(ErrorKind::Interrupted))
    }
}

impl<R: Eprint + AllocGlobal, F: Write> Write for Patient<'_, R, F> {
    fn write(&mut self, buf: &[u8]) -> io::Result<usize> {
        for _ in 0..u64::MAX {
            match self.inner.write(buf) {
                Ok(count) => return Ok(count),
                Err(e) if e.kind() == ErrorKind::Interrupted => {}
                Err(e) => {
                    say(self.rt, self.name, &e);
                    return Err(e);
                }
            }
        }
        Err(io::Error::from(ErrorKind::Interrupted))
    }

    fn flush(&mut self) -> io::Result<()> {
        self.inner.flush()
    }
}
