//! The text of a source.
ghost use Rattle.std.specs.Prelude.{IfOk, IfErr};
ghost use Rattle.inc_cli.specs.Parts.{FailsText, IsText};

use crate::status::Status;
use inc_base::{Bytes, ReadFault, Source, read_to};
use rs_queries::{Reading, read_within};
use std::alloc::Global;

/// The most bytes of a text (docs/LANGUAGE.md, "Limits").
const TEXT_LIMIT: usize = 1_048_576;

/// A text that passes no limit, and its reading.
#[derive(Drop)]
pub(crate) struct Text {
    pub bytes: Bytes,
    pub reading: Reading,
}

/// Reads the source to its end, or to one byte past the limit on texts, and then what was read.
pub(crate) fn text_of<S: Source>(alloc: Global, src: &mut S) -> Result<Text, Status>
    ensures ok { IfOk result (λ text. IsText text.bytes text.reading (S.left src.old) (S.left src.new)) }
    ensures err { IfErr result (λ status. FailsText status (S.left src.old) (S.faults src.old) (S.faults src.new)) }
{
    let bytes = match read_to(alloc, src, TEXT_LIMIT) {
        Ok(bytes) => bytes,
        Err(ReadFault::Source) => return Err(Status::SourceFault),
        Err(ReadFault::Memory) => return Err(Status::OutOfMemory),
    };
    match read_within(alloc, bytes.as_slice()) {
        Ok(Ok(reading)) => Ok(Text { bytes, reading }),
        Ok(Err(limit)) => Err(Status::OverLimit(limit)),
        Err(_) => Err(Status::OutOfMemory),
    }
}
