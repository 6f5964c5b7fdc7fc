ghost use Rattle.std.specs.Prelude.{◌≡◌, ◌*◌, ◌<◌, ◌≤◌, IfOk, Some};
ghost use Rattle.inc_plan.specs.Plan.{asks, fed};
ghost use Rattle.inc_session.specs.Made.{left_of_fed, left_of_naming};
ghost use Rattle.inc_session.specs.Naming.{lists, naming_rest, naming_plan, IsAgain};

use crate::task::Task;
use inc_base::{Label, Memory};
use inc_fs::{Op, Reply};
use inc_names::SessionName;

/// How naming ends.
#[derive(Debug, Drop)]
pub enum NamingEnd {
    /// It has a name, the handle of its lock, and its directory.
    Named(SessionName, u32),
    /// All its names were lost.
    Lost,
    DiskFault,
    Disturbed(Op, Reply),
}

/// The step of naming that is asked for.
#[derive(Clone, Copy, Debug)]
pub enum NamingAt {
    Draw,
    MakeLock(SessionName),
    TryLock(SessionName, u32),
    Look(SessionName, u32),
    Close(u32),
    MakeDir(SessionName, u32),
}

/// Naming on its way, with the number of names that may still be drawn after this one.
#[derive(Clone, Copy, Debug)]
pub struct Naming {
    pub left: u32,
    pub at: NamingAt,
}

/// Naming after a reply.
#[derive(Debug, Drop)]
pub enum NamingFed {
    On(Naming),
    End(NamingEnd),
}

/// Draws the next name, or gives up.
pub(crate) fn again(left: u32) -> NamingFed
    ensures rest { IsAgain result left }
    ensures fewer { left_of_fed result ≤ left * 6 }
{
    if left == 0 {
        NamingFed::End(NamingEnd::Lost)
    } else {
        NamingFed::On(Naming {
            left: left - 1,
            at: NamingAt::Draw,
        })
    }
}

/// Whether a listing has this label.
fn lists(names: &[Label], label: &Label) -> bool
    ensures { result ≡ lists names.now label.now }
{
    names.iter().any(|name| name == label)
}

impl Naming {
    /// The step that it asks for.
    pub(crate) fn op(&self, task: &Task) -> Result<Op, Memory>
        ensures { IfOk result (λ op. asks (naming_rest task.now.krate self.now) ≡ Some op) }
    {
        match self.at {
            NamingAt::Draw => Ok(Op::Draw),
            NamingAt::MakeLock(name) => task.make_lock(name),
            NamingAt::TryLock(_, handle) => Ok(Op::TryLock {
                handle,
                exclusive: true,
            }),
            NamingAt::Look(_, _) => task.look(),
            NamingAt::Close(handle) => Ok(Op::Close { handle }),
            NamingAt::MakeDir(name, _) => task.make_dir(name),
        }
    }

    fn to(self, at: NamingAt) -> NamingFed
        ensures { result ≡ NamingFed.On (record self { at = at }) }
    {
        NamingFed::On(Naming {
            left: self.left,
            at,
        })
    }

    /// Goes on by the reply.
    pub(crate) fn feed(self, task: &Task, reply: Reply) -> Result<NamingFed, Memory>
        ensures rest { IfOk result (λ to. naming_plan task.now.krate to ≡ fed (naming_rest task.now.krate self) reply) }
        ensures fewer { IfOk result (λ to. left_of_fed to < left_of_naming self) }
    {
        match self.at {
            NamingAt::Draw => match reply {
                Reply::Drawn(moment, random) => Ok(self.to(NamingAt::MakeLock(SessionName {
                    moment,
                    random,
                }))),
                _ => Ok(NamingFed::End(NamingEnd::DiskFault)),
            },
            NamingAt::MakeLock(name) => match reply {
                Reply::Handle(handle) => Ok(self.to(NamingAt::TryLock(name, handle))),
                Reply::Exists => Ok(again(self.left)),
                _ => Ok(NamingFed::End(NamingEnd::DiskFault)),
            },
            NamingAt::TryLock(name, handle) => match reply {
                Reply::Got => Ok(self.to(NamingAt::Look(name, handle))),
                Reply::Fault => Ok(NamingFed::End(NamingEnd::DiskFault)),
                _ => Ok(self.to(NamingAt::Close(handle))),
            },
            NamingAt::Look(name, handle) => match reply {
                Reply::Names(names) => {
                    if lists(names.as_slice(), &task.lock(name)?) {
                        Ok(self.to(NamingAt::MakeDir(name, handle)))
                    } else {
                        Ok(self.to(NamingAt::Close(handle)))
                    }
                }
                _ => Ok(NamingFed::End(NamingEnd::DiskFault)),
            },
            NamingAt::Close(_) => match reply {
                Reply::Fault => Ok(NamingFed::End(NamingEnd::DiskFault)),
                _ => Ok(again(self.left)),
            },
            NamingAt::MakeDir(name, handle) => match reply {
                Reply::Done => Ok(NamingFed::End(NamingEnd::Named(name, handle))),
                Reply::Exists => Ok(NamingFed::End(NamingEnd::Disturbed(
                    task.make_dir(name)?,
                    Reply::Exists,
                ))),
                _ => Ok(NamingFed::End(NamingEnd::DiskFault)),
            },
        }
    }
}
