ghost use Rattle.std.specs.Prelude.{ℕ, List, IfOk, IfErr};
ghost use Rattle.inc_words.specs.Words.{AsksFor};
ghost use Rattle.inc_cli.specs.Run.{ComesTo, Refuses, Telling};

use crate::answer::Answer;
use crate::source::{Text, text_of};
use crate::status::Status;
use inc_base::{Bytes, Compiler, Source};
use inc_words::Command;
use link_laws::objects_link;
use rs_queries::clean_read;
use std::alloc::Global;

/// The clean build of the source's text by this compiler. It is given no directory and no meter, so both stay.
pub(crate) fn clean<S: Source>(
    alloc: Global,
    compiler: Compiler,
    src: &mut S,
) -> Result<Answer, Status>
    ensures ok { (words : List (List ℕ)) (dir : Telling) (faults meter : ℕ) → AsksFor words (Command.Clean compiler) → IfOk result (λ answer. ComesTo words answer
        (record { left = S.left src.old; source_faults = S.faults src.old; dir = dir; dir_faults = faults; meter = meter })
        (record { left = S.left src.new; source_faults = S.faults src.new; dir = dir; dir_faults = faults; meter = meter })) }
    ensures err { (words : List (List ℕ)) (dir : Telling) (faults meter : ℕ) → AsksFor words (Command.Clean compiler) → IfErr result (λ status. Refuses status words
        (record { left = S.left src.old; source_faults = S.faults src.old; dir = dir; dir_faults = faults; meter = meter })
        (record { left = S.left src.new; source_faults = S.faults src.new; dir = dir; dir_faults = faults; meter = meter })) }
{
    objects_link();
    match text_of(alloc, src) {
        Ok(Text { bytes, reading }) => {
            drop(bytes);
            match clean_read(alloc, &reading, compiler) {
                Ok(build) => {
                    drop(reading);
                    Ok(Answer::Cleaned(build))
                }
                Err(_) => {
                    drop(reading);
                    Err(Status::OutOfMemory)
                }
            }
        }
        Err(status) => Err(status),
    }
}
