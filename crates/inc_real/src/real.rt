ghost use Rattle.std.specs.Prelude.{◌≡◌, None, [], false, IfOk};

use crate::folder::Folder;
use crate::stop::Failure;
use inc_base::{Job, Memory};
use inc_dir::Dir;
use inc_fs::{Op, Reply};
use inc_proto::Content;
use std::fs::{File, Files};
use std::marker::Model;
use std::time::Clock;

/// The directory on a folder of the system: its files, folders, hard links and file locks
/// (docs/PROTOCOL.md, "The directory on the system's files").
///
/// Contracts see whether a session runs, and the count of faults. It tells nothing. A step is answered
/// `Fault`, and counted, where its row doesn't have what the system answers, and where something that no
/// build makes has a name that the step needs. The count stands still at the end of `u64`.
///
/// This is a trusted edge. Not claimed, since no contract sees the system: what a step does to the
/// files, and that an answer is true of them; that files last when the machine fails; that nothing comes
/// between a look and the call after it; that pairs differ between processes; that a change of a held
/// lock's mode that the system fails leaves the old one.
#[derive(Drop)]
pub struct RealDir<R: Drop> {
    folder: Folder<R>,
    runs: bool,
    faults: u64,
    failure: Option<Failure>,
}

impl<R: Drop> Model for RealDir<R> {
    ghost use Rattle.inc_real.specs.Serving.{Serving};

    ghost Value = { Serving };

    ghost view = { λ d. record { runs = d.runs; faults = d.faults } };
}

impl<R: Files<File = File> + AllocGlobal + Clock + Drop> RealDir<R> {
    /// The directory of the folder at this path, which need not be there yet; the empty path is the folder
    /// that the process works in. No session runs in it.
    ///
    /// The seed chooses the random parts that are tried first, so that of processes with different seeds each
    /// tries others. It touches nothing. `Memory` where there is none for the path.
    pub fn new(rt: R, root: &str, seed: u64) -> Result<RealDir<R>, Memory>
        ensures { IfOk result (λ dir. dir ≡ record { runs = false; faults = 0 }) }
    {
        Ok(RealDir {
            folder: Folder::new(rt, root, seed)?,
            runs: false,
            faults: 0,
            failure: None,
        })
    }

    /// Why the last step that was answered `Fault` was: `None` where there was no such step.
    pub fn failure(&self) -> Option<Failure> {
        self.failure
    }
}

impl<R: Files<File = File> + AllocGlobal + Clock + Drop, C: Content> Dir<C> for RealDir<R> {
    ghost told = { λ _. None };

    ghost runs = { λ d. d.runs };

    ghost own = { λ _. [] };

    ghost faults = { λ d. d.faults };

    fn begin(&mut self, job: Job) -> Result<(), Memory> {
        drop(job);
        self.runs = true;
        Ok(())
    }

    fn act(&mut self, op: Op) -> Result<Reply, Memory> {
        let made = self.folder.step(&op);
        drop(op);
        let reply = match made? {
            Ok(reply) => reply,
            Err(failure) => {
                self.failure = Some(failure);
                Reply::Fault
            }
        };
        if reply.is_fault() {
            self.faults = self.faults.saturating_add(1);
        }
        Ok(reply)
    }

    fn leave(&mut self) {
        self.folder.close_all();
        self.runs = false;
    }
}
