//! Sessions that append to a file, link many files, or take away what many others left.
ghost use Rattle.std.specs.Prelude.{None};

use crate::steps::{
    Deed, append, at, create, files_listed, link, look, rename_back, session, sessions_listed,
};
use inc_base::{Bytes, Compiler, Job, Label, List, Memory, Name, VERSION};
use inc_fs::{Op, Reply};
use inc_names::{Entry, SessionName};
use inc_proto::{Content, View};
use std::alloc::Global;

/// What a session does so many times.
#[derive(Clone, Copy)]
pub enum Kind {
    /// Appends of a byte to one file, which it made.
    Appends,
    /// Links of files that were listed together, each with a name of its own.
    Links,
    /// It renames a finalised directory back, removes it and takes its lock file away, of names that it holds together.
    Collects,
}

/// What publishes nothing.
#[derive(Drop)]
struct Nothing;

impl Content for Nothing {
    ghost files = { λ job. None };

    ghost clear = { λ jobs. Unit {0} };

    ghost fewer = { λ some all among clear. clear };

    fn wanted(&self, _job: &Job) -> Result<Option<List<(Label, Bytes)>>, Memory> {
        Ok(None)
    }
}

/// A session, and how many of its steps were permitted.
#[derive(Drop)]
struct Session {
    view: View,
    permitted: u32,
}

impl Session {
    /// It made a step.
    fn note(&mut self, op: Op, reply: Reply) -> Result<(), Memory> {
        let noted = self.view.note(op, &reply);
        drop(reply);
        noted
    }

    /// It asks for a step, and makes it.
    fn ask(&mut self, op: Op) -> Result<(), Memory> {
        match self.view.permits(&Nothing, &op) {
            Ok(may) => {
                self.permitted = self.permitted.saturating_add(u32::from(may));
                self.note(op, Reply::Done)
            }
            Err(refused) => {
                drop(op);
                Err(refused)
            }
        }
    }

    /// It made a step that was answered with a list.
    fn note_list(
        &mut self,
        op: Result<Op, Memory>,
        listed: Result<Reply, Memory>,
    ) -> Result<(), Memory> {
        match op {
            Ok(op) => match listed {
                Ok(listed) => self.note(op, listed),
                Err(refused) => {
                    drop(op);
                    Err(refused)
                }
            },
            Err(refused) => {
                drop(listed);
                Err(refused)
            }
        }
    }

    /// It opens a lock file and gets the lock.
    fn hold(
        &mut self,
        alloc: Global,
        name: SessionName,
        handle: u32,
        exclusive: bool,
    ) -> Result<(), Memory> {
        self.note(
            at(alloc, Deed::OpenLock, Entry::Lock(name))?,
            Reply::Handle(handle),
        )?;
        self.note(Op::TryLock { handle, exclusive }, Reply::Got)
    }

    /// As session 0 it makes its directory.
    fn begin(&mut self, alloc: Global) -> Result<(), Memory> {
        let (handle, exclusive) = (0, true);
        self.note(Op::Draw, Reply::Drawn(0, 0))?;
        self.note(
            at(alloc, Deed::MakeLock, Entry::Lock(session(0)))?,
            Reply::Handle(handle),
        )?;
        self.note(Op::TryLock { handle, exclusive }, Reply::Got)?;
        self.note_list(look(alloc), sessions_listed(alloc, 1))?;
        self.ask(at(alloc, Deed::MakeDir, Entry::Working(session(0)))?)
    }

    fn append(&mut self, alloc: Global, count: u32) -> Result<(), Memory> {
        self.begin(alloc)?;
        self.ask(create(alloc)?)?;
        for _ in 0..count {
            self.ask(append(alloc)?)?;
        }
        Ok(())
    }

    fn link(&mut self, alloc: Global, count: u32) -> Result<(), Memory> {
        self.begin(alloc)?;
        self.hold(alloc, session(1), 1, false)?;
        let listing = at(alloc, Deed::ListDir, Entry::Final(session(1), 7));
        self.note_list(listing, files_listed(alloc, count))?;
        for number in 0..count {
            self.ask(link(alloc, number)?)?;
        }
        Ok(())
    }

    /// It takes away what a session left.
    fn take_away(&mut self, alloc: Global, name: SessionName) -> Result<(), Memory> {
        self.ask(rename_back(alloc, name)?)?;
        self.ask(at(alloc, Deed::RemoveDir, Entry::Working(name))?)?;
        self.ask(at(alloc, Deed::UnlinkLock, Entry::Lock(name))?)
    }

    fn collect(&mut self, alloc: Global, count: u32) -> Result<(), Memory> {
        for number in 0..count {
            self.hold(alloc, session(number), number, true)?;
        }
        self.note_list(look(alloc), sessions_listed(alloc, count.saturating_add(1)))?;
        for number in 0..count {
            self.take_away(alloc, session(number))?;
        }
        Ok(())
    }

    fn run(&mut self, alloc: Global, kind: Kind, count: u32) -> Result<(), Memory> {
        match kind {
            Kind::Appends => self.append(alloc, count),
            Kind::Links => self.link(alloc, count),
            Kind::Collects => self.collect(alloc, count),
        }
    }
}

fn job(alloc: Global) -> Result<Job, Memory> {
    Ok(Job {
        krate: Name::of(alloc, b"k")?.ok_or(Memory)?,
        compiler: Compiler {
            version: VERSION,
            level: 0,
        },
        text: Bytes::new(alloc),
    })
}

/// How many steps of such a session are permitted, each asked and noted; 0 where there is no memory.
pub fn permitted(alloc: Global, kind: Kind, count: u32) -> u32 {
    match job(alloc) {
        Ok(job) => {
            let mut session = Session {
                view: View::new(0, job),
                permitted: 0,
            };
            let run = session.run(alloc, kind, count);
            let permitted = session.permitted;
            drop(session);
            if run.is_ok() { permitted } else { 0 }
        }
        Err(_) => 0,
    }
}
