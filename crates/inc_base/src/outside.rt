ghost use Rattle.std.specs.Prelude.{◌≡◌, ◌<◌, ◌≤◌, ◌++◌, ℕ, List, length, take, Option, Ok, OnOk, OnErr, IfOk};
ghost use Rattle.std.specs.Io.{ReadsAtMost, WritesAtMost};
ghost use Rattle.std.specs.Io.KnownBytes.{Appends, ReadConsumes, WriteAppends};
ghost use Rattle.inc_base.specs.Outside.{HasCause, AppendsFront, KeepsTelling};

use thiserror::Error;

/// A source or a sink failed. Nothing was moved.
#[derive(Clone, Copy, Debug, PartialEq, Eq, Error)]
#[error("the outside failed")]
pub struct Failed;

/// Where bytes come from.
///
/// A source that tells has the bytes that are `left`; one over std tells nothing. Its count of faults
/// never falls, and stands still at the end of `u64`.
pub trait Source {
    ghost left: { Self → Option (List ℕ) };

    ghost faults: { Self → ℕ };

    /// Moves some bytes into the slice and answers how many. None move into an empty slice, and into
    /// another one none only at the end. `Failed` moves nothing, and comes only where the count rose.
    fn read(&mut self, into: &mut [u8]) -> Result<usize, Failed>
        ensures bound { ReadsAtMost result into.new }
        ensures bytes { ReadConsumes (left self.old) (left self.new) result into.new }
        ensures tells { KeepsTelling (left self.old) (left self.new) }
        ensures empty { length into.old ≡ 0 → result ≡ Ok 0 }
        ensures cause { HasCause (faults self.old) (faults self.new) result };
}

/// Where bytes go.
///
/// A sink that tells has the bytes that it has `held` since it was made; one over std tells nothing. Its
/// count of faults never falls, and stands still at the end of `u64`.
pub trait Sink {
    ghost held: { Self → Option (List ℕ) };

    ghost faults: { Self → ℕ };

    /// Takes some of the first bytes of the piece and answers how many: of an empty piece none, of
    /// another one at least one. `Failed` takes nothing, and comes only where the count rose.
    fn write(&mut self, from: &[u8]) -> Result<usize, Failed>
        ensures bound { WritesAtMost result from.now }
        ensures bytes { WriteAppends (held self.old) (held self.new) result from.now }
        ensures tells { KeepsTelling (held self.old) (held self.new) }
        ensures takes { 0 < length from.now → IfOk result (λ n. 0 < n) }
        ensures empty { length from.now ≡ 0 → result ≡ Ok 0 }
        ensures cause { HasCause (faults self.old) (faults self.new) result };
}

/// Writes all of the bytes, in as many calls as the sink wants. After `Failed`, which comes only where
/// the sink's count rose, it has taken a front of them.
pub fn write_all<O: Sink>(out: &mut O, bytes: &[u8]) -> Result<(), Failed>
    ensures ok { OnOk result (Appends (O.held out.old) (O.held out.new) bytes.now) }
    ensures err { OnErr result (AppendsFront (O.held out.old) (O.held out.new) bytes.now) }
    ensures tells { KeepsTelling (O.held out.old) (O.held out.new) }
    ensures cause { HasCause (O.faults out.old) (O.faults out.new) result }
{
    let mut at = 0;
    while at < bytes.len() {
        at += out.write(&bytes[at..])?;
    }
    Ok(())
}
