ghost use Rattle.std.specs.Prelude.{◌≡◌, ◌<◌, ◌+◌, ◌-◌, ◌^◌, ◌∷◌, ◌++◌, [], IfOk, IsOk, IsTrue, ◌↔◌, OnOk, OnErr, None, Some, reverse, true};
ghost use Rattle.inc_fs.specs.State.{start, end_of};
ghost use Rattle.inc_fs.specs.Step.{StepWith};
ghost use Rattle.inc_fs.specs.declared.op.Op.TheVariants.{Draw};
ghost use Rattle.inc_fs.specs.declared.op.Reply.TheVariants.{Fault};
ghost use Rattle.inc_proto.specs.declared.event.Event.TheVariants.{Begin, Did, Left};
ghost use Rattle.inc_proto.specs.Events.{begins, is_running};
ghost use Rattle.inc_proto.specs.Leads.{LeadsTo, stopped};
ghost use Rattle.inc_proto.specs.Legal.{IsLegal, AreAllowed, MayDo, MayLeave, sight_of, view_of, running_in};

use crate::content::Content;
use crate::enrolled::Enrolled;
use crate::event::{Event, History};
use crate::view::View;
use inc_base::{Copied, Job, Memory, Roomy};
use inc_fs::{Chance, Fs, Op, Reply};
use std::alloc::Global;
use std::marker::Model;

/// A directory in memory in which many sessions work, with the history that led to it, which is legal at
/// every moment (docs/PROTOCOL.md, "Legal histories"). Contracts see the history, the newest event first,
/// and the state.
#[derive(Drop)]
pub struct Ground<C: Content> {
    content: C,
    fs: Fs,
    history: Roomy<Event>,
    sessions: Vec<Enrolled>,
    running: u32,
}

impl<C: Content> Model for Ground<C> {
    ghost use Rattle.std.specs.Prelude.{reverse};
    ghost use Rattle.inc_proto.specs.Legal.{World};
    ghost use Rattle.inc_proto.specs.Grounds.{IsKept};

    ghost Value = { World };

    ghost view = { λ g. record { history = reverse g.history.0; state = g.fs } };

    ghost invariant = { λ g. IsKept C.files (reverse g.history.0) g.history.1 g.fs g.sessions.items g.running };
}

impl<C: Content> Ground<C> {
    /// The empty directory, with this content.
    pub fn new(alloc: Global, content: C) -> Ground<C>
        ensures { result ≡ record { history = []; state = start } }
    {
        Ground {
            content,
            fs: Fs::new(alloc),
            history: Roomy::new(alloc),
            sessions: Vec::new(alloc),
            running: 0,
        }
    }

    /// Its events so far, in the order in which they happened.
    pub fn history(&self) -> &[Event]
        ensures value { reverse result.now ≡ self.now.history }
        ensures legal { IsLegal C.files self.now.history }
    {
        self.history.as_slice()
    }

    /// The history alone.
    pub fn into_history(self) -> History
        ensures value { reverse result ≡ self.history }
        ensures legal { IsLegal C.files self.history }
    {
        let Ground {
            content: _,
            fs: _,
            history,
            sessions: _,
            running: _,
        } = self;
        history.into_list()
    }

    /// Tells what holds at every moment, and does nothing: the history leads to the state, each event keeps
    /// the rules at its place, and fewer than 2^32 sessions began.
    pub fn legal(&self)
        ensures leads { LeadsTo self.now.history self.now.state }
        ensures allowed { AreAllowed C.files self.now.history }
        ensures few { begins self.now.history < 2 ^ 32 }
    {
        let _running = self.running;
    }

    /// How many sessions run.
    pub fn running(&self) -> u32
        ensures { result ≡ running_in self.now.history }
    {
        self.running
    }

    /// Whether a session of this number runs.
    pub fn runs(&self, who: u32) -> bool
        ensures { result ≡ is_running who self.now.history }
    {
        match self.sessions.get(who as usize) {
            Some(one) => one.runs,
            None => false,
        }
    }

    /// What the session of this number sees, or saw when it left.
    pub fn view(&self, who: u32) -> &View
        requires { who < begins self.now.history }
        ensures number { result.now.number ≡ who }
        ensures sight { sight_of who self.now.history ≡ Some (record { job = result.now.job; steps = result.now.steps }) }
    {
        &self.sessions[who as usize].view
    }

    /// A session begins with this job, and gets the next number. `Memory` leaves the ground as it was, and
    /// also comes where there are too many sessions. Room is kept for the session's leaving.
    pub fn begin(&mut self, job: Job) -> Result<u32, Memory>
        ensures number { IfOk result (λ number. number ≡ begins self.old.history) }
        ensures ok { IfOk result (λ number. self.new ≡ record { history = Begin number job ∷ self.old.history; state = self.old.state }) }
        ensures err { OnErr result (self.new ≡ self.old) }
    {
        let number = self.sessions.len();
        if number >= u32::MAX as usize {
            drop(job);
            return Err(Memory);
        }
        let number = number as u32;
        match enrol(&mut self.sessions, &mut self.history, number, &job) {
            Err(refused) => {
                drop(job);
                Err(refused)
            }
            Ok(()) => {
                self.history.push_kept(Event::Begin(number, job));
                self.running += 1;
                Ok(number)
            }
        }
    }

    /// Whether the session of this number runs and may make this step, which costs what `View::permits`
    /// does. `Memory` where there is no memory for the answer.
    pub fn permits(&self, who: u32, op: &Op) -> Result<bool, Memory>
        ensures { IfOk result (λ yes. IsTrue yes ↔ MayDo C.files self.now.history who op.now) }
    {
        match self.sessions.get(who as usize) {
            Some(one) => {
                if one.runs {
                    one.view.permits(&self.content, op)
                } else {
                    Ok(false)
                }
            }
            None => Ok(false),
        }
    }

    /// A session makes a step that it may make, and the answer is the table's with this chance. `Memory`
    /// leaves the ground as it was.
    pub fn act(&mut self, who: u32, op: Op, chance: Chance) -> Result<Reply, Memory>
        requires { MayDo C.files self.old.history who op }
        ensures history { IfOk result (λ reply. self.new.history ≡ Did who op reply ∷ self.old.history) }
        ensures step { IfOk result (λ reply. StepWith self.old.state who op chance reply self.new.state) }
        ensures err { OnErr result (self.new ≡ self.old) }
    {
        let one = &mut self.sessions[who as usize];
        match prepare(&mut self.history, &mut one.view, &op) {
            Err(refused) => {
                drop(op);
                Err(refused)
            }
            Ok(copy) => match step(&mut self.fs, who, &op, chance) {
                Err(refused) => {
                    drop(op);
                    drop(copy);
                    self.history.give_up(1);
                    one.view.give_up_place();
                    Err(refused)
                }
                Ok((reply, seen, told)) => {
                    one.view.fill_place(copy, seen);
                    self.history.push_kept(Event::Did(who, op, told));
                    Ok(reply)
                }
            },
        }
    }

    /// A session leaves, between two steps or within an append that it may make, which has then added up to
    /// `cut` of its first bytes. Its handles are gone, and what they held is free. `Memory` leaves the
    /// ground as it was, and never comes between two steps.
    pub fn leave(&mut self, who: u32, during: Option<Op>, cut: u32) -> Result<(), Memory>
        requires { MayLeave C.files self.old.history who during }
        ensures ok { OnOk result (self.new ≡ record { history = Left who during cut ∷ self.old.history; state = end_of (stopped self.old.state during cut) who }) }
        ensures between { during ≡ None → IsOk result }
        ensures err { OnErr result (self.new ≡ self.old) }
    {
        match stop(&mut self.fs, who, &during, cut) {
            Err(refused) => {
                drop(during);
                Err(refused)
            }
            Ok(()) => {
                self.fs.end(who);
                self.history.push_kept(Event::Left(who, during, cut));
                let one = &mut self.sessions[who as usize];
                one.runs = false;
                self.running -= 1;
                Ok(())
            }
        }
    }
}

/// Enrols a session, and makes room for its beginning and its leaving. After `Memory` nothing was done.
fn enrol(
    sessions: &mut Vec<Enrolled>,
    history: &mut Roomy<Event>,
    number: u32,
    job: &Job,
) -> Result<(), Memory>
    ensures room { OnOk result (history.new ≡ (history.old.0, history.old.1 + 2)) }
    ensures session { OnOk result (sessions.new.items ≡ sessions.old.items ++ record { view = record { number = number; job = job.now; steps = [] }; runs = true } ∷ []) }
    ensures err { OnErr result ((history.new ≡ history.old) × (sessions.new.items ≡ sessions.old.items)) }
{
    let view = View::new(number, job.copy()?);
    history.make_room(2)?;
    if sessions.push(Enrolled { view, runs: true }).is_err() {
        history.give_up(2);
        return Err(Memory);
    }
    Ok(())
}

/// Makes room for a step in the history and in what its session sees, and copies the step. After `Memory`
/// nothing was done.
fn prepare(history: &mut Roomy<Event>, view: &mut View, op: &Op) -> Result<Op, Memory>
    ensures room { OnOk result (history.new ≡ (history.old.0, history.old.1 + 1)) }
    ensures place { OnOk result (view.new ≡ record view.old { steps = (Draw, Fault) ∷ view.old.steps }) }
    ensures copy { IfOk result (λ copy. copy ≡ op.now) }
    ensures err { OnErr result ((history.new ≡ history.old) × (view.new ≡ view.old)) }
{
    history.make_room(1)?;
    if let Err(refused) = view.hold_place() {
        history.give_up(1);
        return Err(refused);
    }
    match op.copy() {
        Ok(copy) => Ok(copy),
        Err(refused) => {
            history.give_up(1);
            view.give_up_place();
            Err(refused)
        }
    }
}

/// Makes a step, and gives its reply three times. After `Memory` nothing was done.
fn step(fs: &mut Fs, who: u32, op: &Op, chance: Chance) -> Result<(Reply, Reply, Reply), Memory>
    ensures step { IfOk result (λ all. StepWith fs.old who op.now chance all.0 fs.new) }
    ensures second { IfOk result (λ all. all.1 ≡ all.0) }
    ensures third { IfOk result (λ all. all.2 ≡ all.0) }
    ensures err { OnErr result (fs.new ≡ fs.old) }
{
    let reply = fs.apply(who, op, chance)?;
    let second = reply.clone()?;
    let third = reply.clone()?;
    Ok((reply, second, third))
}

/// Does what is left of the append within which a session stops. After `Memory` nothing was done.
fn stop(fs: &mut Fs, who: u32, during: &Option<Op>, cut: u32) -> Result<(), Memory>
    ensures ok { OnOk result (fs.new ≡ stopped fs.old during.now cut) }
    ensures between { during.now ≡ None → IsOk result }
    ensures err { OnErr result (fs.new ≡ fs.old) }
{
    if let Some(op) = during {
        let chance = Chance {
            moment: 0,
            random: 0,
            fails: Some(cut),
        };
        let reply = fs.apply(who, op, chance)?;
        drop(reply);
    }
    Ok(())
}
