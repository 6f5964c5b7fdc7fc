//! Sessions that the rows are steps of.
ghost use Rattle.std.specs.Prelude.{◌≡◌, true};

use inc_base::{Bytes, Compiler, Job, Memory, Name, VERSION};
use inc_dir::Dir;
use inc_fs::{Op, Reply};
use inc_real::RealDir;
use inc_session::Saved;

/// A session that runs in a folder of the system.
#[derive(Drop)]
pub struct Session {
    dir: RealDir<HostRuntime>,
    ghost running: { dir.runs ≡ true },
}

impl Session {
    /// A session in this folder.
    pub fn enter(rt: HostRuntime, root: &str) -> Result<Session, Memory> {
        let Some(krate) = Name::of(rt.alloc(), b"k")? else {
            return Err(Memory);
        };
        let job = Job {
            krate,
            compiler: Compiler {
                version: VERSION,
                level: 1,
            },
            text: Bytes::new(rt.alloc()),
        };
        let mut dir = RealDir::new(rt, root, 7)?;
        <RealDir<HostRuntime> as Dir<Saved>>::begin(&mut dir, job)?;
        Ok(Session { dir })
    }

    /// Makes a step.
    pub fn step(&mut self, op: Op) -> Result<Reply, Memory> {
        <RealDir<HostRuntime> as Dir<Saved>>::act(&mut self.dir, op)
    }
}
