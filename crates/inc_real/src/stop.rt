use inc_base::Memory;
use std::alloc::{AllocError, AllocFailed};
use std::fs::TryLockError;
use std::io;
use std::io::ErrorKind;

/// Why a step was answered `Fault` (docs/PROTOCOL.md, "What the system answers").
#[derive(Clone, Copy, Debug, PartialEq, Eq)]
pub enum Failure {
    /// The system failed. It has the system's number of the error, where there is one.
    System(Option<i32>),
    /// In a place of a folder or of a plain file stands something else, as a symbolic link or a pipe.
    Kind,
    /// A session's folder has a name that isn't a label.
    Name,
    /// A file is longer than is read.
    Length,
    /// What was opened or made isn't what was seen under its name.
    Changed,
    /// A handle lost its lock while it was to hold it in another mode.
    Lock,
}

/// Why a step wasn't made, as what was done for it says.
#[derive(Clone, Copy)]
pub enum Stop {
    /// There is no memory, or no handle's number is left.
    Memory,
    /// Nothing of what the step asks for has the name.
    Absent,
    /// Something has the name that the step would give.
    Taken,
    /// The system answered with an error of this kind and number about the names of the step.
    System(ErrorKind, Option<i32>),
    /// It failed, whatever the step is.
    Failed(Failure),
}

impl Stop {
    /// Where the system failed at something that isn't the step itself.
    pub fn aside(error: io::Error) -> Stop {
        match Stop::from(error) {
            Stop::System(_, number) => Stop::Failed(Failure::System(number)),
            other => other,
        }
    }
}

impl From<Memory> for Stop {
    fn from(_refused: Memory) -> Stop {
        Stop::Memory
    }
}

impl From<AllocError> for Stop {
    fn from(_refused: AllocError) -> Stop {
        Stop::Memory
    }
}

impl<T: Drop> From<AllocFailed<T>> for Stop {
    fn from(_refused: AllocFailed<T>) -> Stop {
        Stop::Memory
    }
}

impl From<io::Error> for Stop {
    fn from(error: io::Error) -> Stop {
        match error.kind() {
            ErrorKind::OutOfMemory => Stop::Memory,
            kind => Stop::System(kind, error.raw_os_error()),
        }
    }
}

impl From<TryLockError> for Stop {
    fn from(error: TryLockError) -> Stop {
        Stop::from(io::Error::from(error))
    }
}
