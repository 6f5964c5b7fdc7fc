ghost use Rattle.std.specs.Prelude.{◌≡◌, ◌+◌, ◌<◌, ◌≤◌, ◌^◌, length, take, Err, IfOk};
ghost use Rattle.std.specs.Io.KnownBytes.{Consumes, IsAtEnd};
ghost use Rattle.inc_base.specs.Outside.{IsReadOut, KeepsTelling, Rose};
ghost use Rattle.inc_base.specs.declared.read.ReadFault.TheVariants.{Source as SourceFailed, Memory as NoMemory};

use crate::bytes::Bytes;
use crate::memory::Memory;
use crate::outside::{Failed, Source};
use std::alloc::Global;
use thiserror::Error;

/// How many bytes one call asks a source for.
const CHUNK: usize = 8192;

/// Why a source wasn't read.
#[derive(Clone, Copy, Debug, PartialEq, Eq, Error)]
pub enum ReadFault {
    /// The source failed.
    #[error("the source failed")]
    Source,
    /// There is no memory for its bytes.
    #[error("out of memory")]
    Memory,
}

impl From<Failed> for ReadFault {
    ghost from_gives = { λ _ fault. fault ≡ SourceFailed };

    fn from(_failed: Failed) -> ReadFault {
        ReadFault::Source
    }
}

impl From<Memory> for ReadFault {
    ghost from_gives = { λ _ fault. fault ≡ NoMemory };

    fn from(_refused: Memory) -> ReadFault {
        ReadFault::Memory
    }
}

/// Reads a source to its end, or until it gave one byte more than `limit`.
///
/// So of an answer that is longer than `limit` it is known only that the source has too many bytes, and after
/// another one a source that tells is told to be empty. After a fault the bytes that were read are gone. `ReadFault::Source` comes only where the source's count rose.
pub fn read_to<S: Source>(alloc: Global, src: &mut S, limit: usize) -> Result<Bytes, ReadFault>
    requires { limit < 2 ^ 32 }
    ensures ok { IfOk result (λ bytes. Consumes (S.left src.old) (S.left src.new) bytes) }
    ensures end { IfOk result (λ bytes. length bytes ≤ limit → IsAtEnd (S.left src.new)) }
    ensures emptied { IfOk result (λ bytes. length bytes ≤ limit → IsReadOut (S.left src.old) (S.left src.new)) }
    ensures few { IfOk result (λ bytes. length bytes ≤ limit + 1) }
    ensures tells { KeepsTelling (S.left src.old) (S.left src.new) }
    ensures faults { S.faults src.old ≤ S.faults src.new }
    ensures cause { result ≡ Err ReadFault.Source → Rose (S.faults src.old) (S.faults src.new) }
{
    let mut bytes = Bytes::new(alloc);
    let mut chunk = [0u8; CHUNK];
    'pieces: while bytes.len() <= limit {
        let room = (limit + 1 - bytes.len()).min(CHUNK);
        let count = src.read(&mut chunk[..room])?;
        if count == 0 {
            return Ok(bytes);
        }
        bytes.append(&chunk[..count])?;
    }
    Ok(bytes)
}
