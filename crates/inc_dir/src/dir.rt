ghost use Rattle.std.specs.Prelude.{◌≡◌, ◌∷◌, [], ℕ, Bool, true, false, List, Option, None, IfOk, OnOk, OnErr, is_ok, ◌≤◌};
ghost use Rattle.inc_base.specs.Outside.{Rose};
ghost use Rattle.inc_fs.specs.Kinds.{IsKindOf};
ghost use Rattle.inc_fs.specs.declared.op.Reply.TheVariants.{Fault};
ghost use Rattle.inc_proto.specs.declared.event.Event.{Event};
ghost use Rattle.inc_proto.specs.declared.event.Event.TheVariants.{Begin, Left};
ghost use Rattle.inc_proto.specs.Events.{latest};
ghost use Rattle.inc_proto.specs.Growth.{TellsOn, AddsOne};
ghost use Rattle.inc_proto.specs.Legal.{IsLegal};
ghost use Rattle.inc_dir.specs.Promises.{IsOwed, TellsStep};

use inc_base::{Job, Memory};
use inc_fs::{Op, Reply};
use inc_proto::Content;

/// A directory that a session works in, beside others, whose sessions publish this content
/// (docs/PROTOCOL.md, "What a directory promises").
///
/// It may tell its history, the newest event first. Where it does, it goes on telling it, and each call
/// adds others' events and then its own; a legal history stays legal. After `Memory` at most others' events
/// were added. Its count of faults never falls, and stands still at the end of `u64`.
pub trait Dir<C: Content> {
    ghost told: { Self → Option (List Event) };

    /// The numbers of its own sessions in the told history, the latest first. Where nothing is told it never
    /// changes.
    ghost own: { Self → List ℕ };

    /// Whether the latest of these sessions runs.
    ghost runs: { Self → Bool };

    ghost faults: { Self → ℕ };

    /// Enters a session, which gets the next number.
    fn begin(&mut self, job: Job) -> Result<(), Memory>
        requires { runs self.old ≡ false }
        ensures runs { runs self.new ≡ is_ok result }
        ensures one { OnOk result (AddsOne (told self.old) (own self.old) (own self.new)) }
        ensures none { OnErr result (own self.new ≡ own self.old) }
        ensures ok { OnOk result (TellsOn (IsLegal C.files) (own self.new) (told self.old) (told self.new) (Begin (latest (own self.new)) job ∷ [])) }
        ensures err { OnErr result (TellsOn (IsLegal C.files) (own self.old) (told self.old) (told self.new) []) }
        ensures faults { faults self.old ≤ faults self.new };

    /// Makes one step, which the session's own steps permit where the told history is legal. The reply is
    /// one of the step's row, whatever the directory is; `Fault` comes only where the count rose. A renaming
    /// that isn't permitted is answered `Fault`, and isn't made.
    fn act(&mut self, op: Op) -> Result<Reply, Memory>
        requires running { runs self.old ≡ true }
        requires permitted { IsOwed C.files C.clear (told self.old) (own self.old) op }
        ensures runs { runs self.new ≡ true }
        ensures own { own self.new ≡ own self.old }
        ensures kind { IfOk result (λ reply. IsKindOf op reply) }
        ensures ok { IfOk result (λ reply. TellsStep C.files (own self.old) (told self.old) (told self.new) op reply) }
        ensures err { OnErr result (TellsOn (IsLegal C.files) (own self.old) (told self.old) (told self.new) []) }
        ensures faults { faults self.old ≤ faults self.new }
        ensures cause { IfOk result (λ reply. reply ≡ Fault → Rose (faults self.old) (faults self.new)) };

    /// Ends the session and its locks. It takes no memory.
    fn leave(&mut self)
        requires { runs self.old ≡ true }
        ensures runs { runs self.new ≡ false }
        ensures own { own self.new ≡ own self.old }
        ensures told { TellsOn (IsLegal C.files) (own self.old) (told self.old) (told self.new) (Left (latest (own self.old)) None 0 ∷ []) }
        ensures faults { faults self.old ≤ faults self.new };
}
