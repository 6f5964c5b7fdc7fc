ghost use Rattle.std.specs.Prelude.{◌≡◌, ◌≤◌, ◌↔◌, ◌∷◌, [], true, false, drop, reverse, Contains, Some, IfOk, OnOk, OnErr, IsTrue, is_ok, None};
ghost use Rattle.inc_base.specs.Outside.{Rose};
ghost use Rattle.inc_fs.specs.Kinds.{IsKindOf};
ghost use Rattle.inc_fs.specs.declared.op.Reply.TheVariants.{Fault};
ghost use Rattle.inc_proto.specs.declared.event.Event.TheVariants.{Begin, Left};
ghost use Rattle.inc_proto.specs.Growth.{TellsOn, AddsOne};
ghost use Rattle.inc_proto.specs.Legal.{IsLegal, MayDo};
ghost use Rattle.inc_dir.specs.Promises.{IsOwed, IsRename, TellsStep};
ghost use Rattle.inc_dir.specs.Memories.{chance_of, session_of, with_begun, with_left, IsMade, HasLooked, HasGoneOn, HasActed, HasAnswered};

use crate::dir::Dir;
use crate::faults::faults_after;
use crate::foreign::Foreign;
use inc_base::{Copied, Job, List, Memory, Roomy};
use inc_fs::{Chance, Op, Reply};
use inc_proto::{Content, Ground};
use std::marker::Model;

/// A directory in memory over a ground, whose history it tells: its own sessions work there beside others,
/// whose steps are given.
///
/// Act number k of its own sessions, counted from 0 over its life, takes chance number k of its list, and
/// past the list's end moment 0, random part 0 and no failure. Before it, the steps of others for this act
/// are made in their order, each where it isn't of an own session and may be made, and else is skipped;
/// each act looks once through the list of these. Its count rises at each `Fault`.
#[derive(Drop)]
pub struct MemDir<C: Content> {
    ground: Ground<C>,
    chances: List<Chance>,
    between: List<Foreign>,
    looked: usize,
    acts: usize,
    own: Roomy<u32>,
    number: u32,
    runs: bool,
    faults: u64,
}

impl<C: Content> Model for MemDir<C> {
    ghost use Rattle.std.specs.Prelude.{reverse};
    ghost use Rattle.inc_dir.specs.Memories.{Remembering};
    ghost use Rattle.inc_dir.specs.Kept.{IsKept};

    ghost Value = { Remembering };

    ghost view = { λ d. record { world = d.ground; chances = d.chances; between = d.between; looked = d.looked; acts = d.acts; own = reverse d.own.0; runs = d.runs; faults = d.faults } };

    ghost invariant = { λ d. IsKept d.ground (reverse d.own.0) d.number d.runs };
}

impl<C: Content> MemDir<C> {
    /// A directory over this ground, in which no session of its own runs yet, with what the outside decides
    /// of its acts, and with others' steps.
    pub fn new(ground: Ground<C>, chances: List<Chance>, between: List<Foreign>) -> MemDir<C>
        ensures { result ≡ record { world = ground; chances = chances; between = between; looked = 0; acts = 0; own = []; runs = false; faults = 0 } }
    {
        let alloc = chances.allocator();
        MemDir {
            ground,
            chances,
            between,
            looked: 0,
            acts: 0,
            own: Roomy::new(alloc),
            number: 0,
            runs: false,
            faults: 0,
        }
    }

    /// The ground as it is now.
    pub fn ground(&self) -> &Ground<C>
        ensures { result.now ≡ self.now.world }
    {
        &self.ground
    }

    /// The ground, given back.
    pub fn into_ground(self) -> Ground<C>
        ensures { result ≡ self.world }
    {
        let MemDir {
            ground,
            chances: _,
            between: _,
            looked: _,
            acts: _,
            own: _,
            number: _,
            runs: _,
            faults: _,
        } = self;
        ground
    }

    fn chance(&self) -> Chance
        ensures { result ≡ chance_of self.now }
    {
        match self.chances.as_slice().get(self.acts) {
            Some(chance) => *chance,
            None => Chance {
                moment: 0,
                random: 0,
                fails: None,
            },
        }
    }
}

/// Whether another's step may be made: it isn't of one of the own sessions, and the ground permits it.
fn may_be_made<C: Content>(ground: &Ground<C>, own: &[u32], step: &Foreign) -> Result<bool, Memory>
    ensures { IfOk result (λ yes. IsTrue yes ↔ (¬ Contains own.now step.now.who) × MayDo C.files ground.now.history step.now.who step.now.op) }
{
    if own.contains(&step.who) {
        return Ok(false);
    }
    ground.permits(step.who, &step.op)
}

/// Makes another's step, or skips it. After `Memory` nothing was done.
fn make<C: Content>(ground: &mut Ground<C>, own: &[u32], step: &Foreign) -> Result<(), Memory>
    ensures ok { OnOk result (IsMade C.files (reverse own.now) step.now ground.old ground.new) }
    ensures err { OnErr result (ground.new ≡ ground.old) }
{
    if may_be_made(ground, own, step)? {
        let op = step.op.copy()?;
        let reply = ground.act(step.who, op, step.chance)?;
        drop(reply);
    }
    Ok(())
}

/// Makes or skips the steps for this act that are still to be looked at. After `Memory` only the first of
/// them were.
fn make_due<C: Content>(
    ground: &mut Ground<C>,
    own: &[u32],
    between: &[Foreign],
    looked: &mut usize,
    acts: usize,
) -> Result<(), Memory>
    ensures goes { HasLooked C.files (reverse own.now) acts between.now looked.old ground.old looked.new ground.new }
    ensures all { OnOk result (drop looked.new between.now ≡ []) }
{
    'steps: while let Some(step) = between.get(*looked) {
        if step.before as usize == acts {
            make(ground, own, step)?;
        }
        *looked += 1;
    }
    Ok(())
}

impl<C: Content> MemDir<C> {
    /// Whether this is a renaming that its latest session may not make.
    fn refuses(&self, op: &Op) -> Result<bool, Memory>
        ensures yes { IfOk result (λ refuses. refuses ≡ true → IsRename op.now × (¬ MayDo C.files self.now.world.history (session_of self.now) op.now)) }
        ensures no { IfOk result (λ refuses. refuses ≡ false → IsRename op.now → MayDo C.files self.now.world.history (session_of self.now) op.now) }
    {
        match op {
            Op::Rename { .. } => Ok(!self.ground.permits(self.number, op)?),
            _ => Ok(false),
        }
    }

    /// Makes its latest session's step, or refuses it. After `Memory` nothing was done.
    fn answer(&mut self, op: Op) -> Result<Reply, Memory>
        requires { (IsRename op → ⊥) → MayDo C.files self.old.world.history (session_of self.old) op }
        ensures ok { IfOk result (λ reply. HasActed C.files self.old op reply self.new) }
        ensures err { OnErr result (self.new ≡ self.old) }
    {
        let reply = match self.refuses(&op) {
            Err(refused) => {
                drop(op);
                return Err(refused);
            }
            Ok(true) => {
                drop(op);
                Reply::Fault
            }
            Ok(false) => {
                let chance = self.chance();
                self.ground.act(self.number, op, chance)?
            }
        };
        self.looked = 0;
        self.acts = self.acts.saturating_add(1);
        self.faults = faults_after(self.faults, &reply);
        Ok(reply)
    }
}

impl<C: Content> Dir<C> for MemDir<C> {
    ghost told = { λ d. Some d.world.history };

    ghost own = { λ d. d.own };

    ghost runs = { λ d. d.runs };

    ghost faults = { λ d. d.faults };

    fn begin(&mut self, job: Job) -> Result<(), Memory>
        requires { self.old.runs ≡ false }
        ensures runs { self.new.runs ≡ is_ok result }
        ensures one { OnOk result (AddsOne (Some self.old.world.history) self.old.own self.new.own) }
        ensures none { OnErr result (self.new.own ≡ self.old.own) }
        ensures ok { OnOk result (TellsOn (IsLegal C.files) self.new.own (Some self.old.world.history) (Some self.new.world.history) (Begin (session_of self.new) job ∷ [])) }
        ensures err { OnErr result (TellsOn (IsLegal C.files) self.old.own (Some self.old.world.history) (Some self.new.world.history) []) }
        ensures faults { self.old.faults ≤ self.new.faults }

        // It is as before but for the session that began; after `Memory` it is as before.
        ensures begun { OnOk result (self.new ≡ with_begun self.old job) }
        ensures kept { OnErr result (self.new ≡ self.old) }
    {
        if let Err(refused) = self.own.make_room(1) {
            drop(job);
            return Err(refused);
        }
        match self.ground.begin(job) {
            Err(refused) => {
                self.own.give_up(1);
                Err(refused)
            }
            Ok(number) => {
                self.own.push_kept(number);
                self.number = number;
                self.runs = true;
                self.ground.legal();
                Ok(())
            }
        }
    }

    fn act(&mut self, op: Op) -> Result<Reply, Memory>
        requires running { self.old.runs ≡ true }
        requires permitted { IsOwed C.files C.clear (Some self.old.world.history) self.old.own op }
        ensures runs { self.new.runs ≡ true }
        ensures own { self.new.own ≡ self.old.own }
        ensures kind { IfOk result (λ reply. IsKindOf op reply) }
        ensures ok { IfOk result (λ reply. TellsStep C.files self.old.own (Some self.old.world.history) (Some self.new.world.history) op reply) }
        ensures err { OnErr result (TellsOn (IsLegal C.files) self.old.own (Some self.old.world.history) (Some self.new.world.history) []) }
        ensures faults { self.old.faults ≤ self.new.faults }
        ensures cause { IfOk result (λ reply. reply ≡ Fault → Rose self.old.faults self.new.faults) }

        // Others' steps were made first, and then its own, with this act's chance; after `Memory` only some of others'.
        ensures answered { IfOk result (λ reply. HasAnswered C.files self.old op reply self.new) }
        ensures kept { OnErr result (HasGoneOn C.files self.old self.new) }
    {
        self.ground.legal();
        let made = make_due(
            &mut self.ground,
            self.own.as_slice(),
            self.between.as_slice(),
            &mut self.looked,
            self.acts,
        );
        self.ground.legal();
        if let Err(refused) = made {
            drop(op);
            return Err(refused);
        }
        let answer = self.answer(op);
        self.ground.legal();
        answer
    }

    fn leave(&mut self)
        requires { self.old.runs ≡ true }
        ensures runs { self.new.runs ≡ false }
        ensures own { self.new.own ≡ self.old.own }
        ensures told { TellsOn (IsLegal C.files) self.old.own (Some self.old.world.history) (Some self.new.world.history) (Left (session_of self.old) None 0 ∷ []) }
        ensures faults { self.old.faults ≤ self.new.faults }

        // It is as before but that the session left.
        ensures left { self.new ≡ with_left self.old }
    {
        let left = self.ground.leave(self.number, None, 0);
        drop(left);
        self.runs = false;
        self.ground.legal();
    }
}
