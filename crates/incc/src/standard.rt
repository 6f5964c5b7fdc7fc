ghost use Rattle.std.specs.Prelude.{◌↔◌, IsTrue, IfOk};
ghost use Rattle.incc.specs.Standard.{IsLow, IsOne, IsOutput};

use std::fs::{File, Files};
use std::io;
use std::os::fd::AsRawFd;

/// What is opened in the place of a standard stream that the process was started without: the null device,
/// or where that isn't there the system's root, which everyone may open.
const STAND_INS: [&str; 2] = ["/dev/null", "/"];

/// The standard streams, of which none is missing for as long as this lives.
///
/// A process can be started with some of the descriptors 0, 1 and 2 closed. The first files that it opens get
/// these numbers, and what it prints goes into them.
#[derive(Drop)]
pub struct Standard {
    first: Option<File>,
    second: Option<File>,
    third: Option<File>,
}

impl Standard {
    /// Opens something in the place of each standard stream that is closed. It comes before any other file is
    /// opened. An error is the system's: a stream may then be missing.
    pub fn taken<R: Files<File = File>>(rt: &R) -> io::Result<Standard>
        ensures { IfOk result (λ standard. IsLow standard.first × IsLow standard.second × IsLow standard.third) }
    {
        // Each open gets the least number that is free.
        Ok(Standard {
            first: low(rt)?,
            second: low(rt)?,
            third: low(rt)?,
        })
    }

    /// Whether the standard output was closed when the process was started.
    pub fn lacks_output(&self) -> bool
        ensures { IsTrue result ↔ IsOutput self.now.first self.now.second self.now.third }
    {
        is_output(&self.first) || is_output(&self.second) || is_output(&self.third)
    }
}

/// A stand-in that took the number of a standard stream: `None` where none of the three is free.
fn low<R: Files<File = File>>(rt: &R) -> io::Result<Option<File>>
    ensures { IfOk result IsLow }
{
    let file = stand_in(rt)?;
    if file.as_raw_fd() > 2 {
        return Ok(None);
    }
    Ok(Some(file))
}

fn stand_in<R: Files<File = File>>(rt: &R) -> io::Result<File> {
    let [null, root] = STAND_INS;
    match File::open(rt, null) {
        Ok(file) => Ok(file),
        Err(_) => File::open(rt, root),
    }
}

fn is_output(file: &Option<File>) -> bool
    ensures { IsTrue result ↔ IsOne file.now }
{
    match file {
        Some(file) => file.as_raw_fd() == 1,
        None => false,
    }
}
