ghost use Rattle.std.specs.Prelude.{◌≡◌, ◌⊎◌, ◌++◌, ℕ, List, IfOk, OnOk, OnErr};
ghost use Rattle.std.specs.Io.KnownBytes.{Appends};
ghost use Rattle.inc_base.specs.Outside.{AppendsFront, Rose};
ghost use Rattle.inc_cli.specs.Statuses.{code_of, built_lines, clean_lines, emitted_line, image_of, line_of, lines_of, note_line, status_with, units_line, units_told};
ghost use Rattle.inc_cli.specs.Run.{ComesTo, Ends, FailsImage, FailsToWrite, Inputs, TakesImage, WritesAll};
ghost use Rattle.inc_cli.specs.declared.status.Status.{Status};

use crate::answer::Answer;
use crate::status::Status;
use inc_base::{Bytes, Failed, Memory, Sink, write_all};
use inc_session::Used;
use itoa::Buffer;
use rs_queries::CleanBuild;
use std::alloc::Global;

/// The line that says how many units were emitted, of how many.
fn emitted_line(alloc: Global, emitted: u32, units: u32) -> Result<Bytes, Memory>
    ensures { IfOk result (λ line. line ≡ emitted_line emitted units) }
{
    let mut number = Buffer::new();
    let mut line = Bytes::of(alloc, b"emitted ")?;
    line.append(number.format(emitted).as_bytes())?;
    line.append(b" of ")?;
    line.append(number.format(units).as_bytes())?;
    line.append(b"\n")?;
    Ok(line)
}

/// The line that says how many units a clean build has.
fn units_line(alloc: Global, units: u32) -> Result<Bytes, Memory>
    ensures { IfOk result (λ line. line ≡ units_line units) }
{
    let mut number = Buffer::new();
    let mut line = Bytes::of(alloc, b"units ")?;
    line.append(number.format(units).as_bytes())?;
    line.append(b"\n")?;
    Ok(line)
}

/// The line that says that a step of the session's ending was answered by a fault, or none.
fn note_line(note: bool) -> &'static [u8]
    ensures { result.now ≡ note_line note }
{
    if note {
        b"note: collection stopped\n"
    } else {
        b""
    }
}

fn joined(alloc: Global, first: &[u8], more: &[u8]) -> Result<Bytes, Memory>
    ensures { IfOk result (λ all. all ≡ first.now ++ more.now) }
{
    let mut all = Bytes::of(alloc, first)?;
    all.append(more)?;
    Ok(all)
}

/// What a build that published writes to `out`: the lines of its diagnostics, the one on the units, and the note.
fn built_lines(alloc: Global, diags: &[u8], used: Used, note: bool) -> Result<Bytes, Memory>
    ensures { IfOk result (λ lines. lines ≡ built_lines diags.now used note) }
{
    let mut lines = Bytes::of(alloc, diags)?;
    let mut more = emitted_line(alloc, used.emitted, used.units)?;
    more.append(note_line(note))?;
    lines.append(more.as_slice())?;
    Ok(lines)
}

/// The line on a clean build's units, where it has an image.
fn units_told(alloc: Global, image: &Option<Bytes>, units: u32) -> Result<Bytes, Memory>
    ensures { IfOk result (λ line. line ≡ units_told image.now units) }
{
    match image {
        Some(_) => units_line(alloc, units),
        None => Ok(Bytes::new(alloc)),
    }
}

fn clean_lines(alloc: Global, build: &CleanBuild) -> Result<Bytes, Memory>
    ensures { IfOk result (λ lines. lines ≡ clean_lines build.now) }
{
    let more = units_told(alloc, &build.image, build.units)?;
    joined(alloc, build.diags.as_slice(), more.as_slice())
}

/// What an answer writes to `out`.
fn lines_of(alloc: Global, answer: &Answer) -> Result<Bytes, Memory>
    ensures { IfOk result (λ lines. lines ≡ lines_of answer.now) }
{
    match answer {
        Answer::Built {
            diags,
            image: _,
            used,
            note,
        } => built_lines(alloc, diags.as_slice(), *used, *note),
        Answer::Failed { diags, note } => joined(alloc, diags.as_slice(), note_line(*note)),
        Answer::Cleaned(build) => clean_lines(alloc, build),
    }
}

/// And to `image`.
fn image_of(answer: Answer) -> Option<Bytes>
    ensures { result ≡ image_of answer }
{
    match answer {
        Answer::Built {
            diags,
            image,
            used: _,
            note: _,
        } => {
            drop(diags);
            Some(image)
        }
        Answer::Failed { diags, note: _ } => {
            drop(diags);
            None
        }
        Answer::Cleaned(build) => image_in(build),
    }
}

fn image_in(build: CleanBuild) -> Option<Bytes>
    ensures { result ≡ build.image }
{
    let CleanBuild {
        diags,
        image,
        units: _,
    } = build;
    drop(diags);
    image
}

/// The status of an answer once it is written, by its image.
fn status_with(image: &Option<Bytes>) -> Status
    ensures { result ≡ status_with image.now }
{
    match image {
        Some(_) => Status::Done,
        None => Status::Errors,
    }
}

/// Writes the lines and then the image, where there is one. After `Failed` the image is begun only where `out` took
/// all lines.
fn deliver<O: Sink, I: Sink>(
    lines: &[u8],
    bytes: &Option<Bytes>,
    out: &mut O,
    image: &mut I,
) -> Result<(), Failed>
    ensures ok { OnOk result (WritesAll lines.now bytes.now (record { out = O.held out.old; out_faults = O.faults out.old; image = I.held image.old; image_faults = I.faults image.old }) (record { out = O.held out.new; out_faults = O.faults out.new; image = I.held image.new; image_faults = I.faults image.new })) }
    ensures err { OnErr result (FailsToWrite lines.now bytes.now (record { out = O.held out.old; out_faults = O.faults out.old; image = I.held image.old; image_faults = I.faults image.old }) (record { out = O.held out.new; out_faults = O.faults out.new; image = I.held image.new; image_faults = I.faults image.new })) }
{
    write_all(out, lines)?;
    write_image(bytes, image)
}

fn write_image<I: Sink>(bytes: &Option<Bytes>, image: &mut I) -> Result<(), Failed>
    ensures ok { OnOk result (TakesImage bytes.now (I.held image.old) (I.held image.new) (I.faults image.old) (I.faults image.new)) }
    ensures err { OnErr result (FailsImage bytes.now (I.held image.old) (I.held image.new) (I.faults image.old) (I.faults image.new)) }
{
    match bytes {
        Some(bytes) => write_all(image, bytes.as_slice()),
        None => Ok(()),
    }
}

/// Writes an answer, and answers the number of the status by which that ends.
pub(crate) fn write_answer<O: Sink, I: Sink>(
    alloc: Global,
    answer: Answer,
    out: &mut O,
    image: &mut I,
) -> u8
    ensures { (words : List (List ℕ)) (old new : Inputs) → ComesTo words answer old new → (status : Status) × (result ≡ code_of status) × Ends status words old new
        (record { out = O.held out.old; out_faults = O.faults out.old; image = I.held image.old; image_faults = I.faults image.old })
        (record { out = O.held out.new; out_faults = O.faults out.new; image = I.held image.new; image_faults = I.faults image.new }) }
{
    let lines = match lines_of(alloc, &answer) {
        Ok(lines) => lines,
        Err(_) => {
            drop(answer);
            return refuse(Status::OutOfMemory, out);
        }
    };
    let bytes = image_of(answer);
    match deliver(lines.as_slice(), &bytes, out, image) {
        Ok(()) => status_with(&bytes).code(),
        Err(Failed) => Status::SinkFault.code(),
    }
}

/// Writes the line of a refusal, and answers its number. That the line can't be written changes no status.
pub(crate) fn refuse<O: Sink>(status: Status, out: &mut O) -> u8
    ensures code { result ≡ code_of status }
    ensures line { Appends (O.held out.old) (O.held out.new) (line_of status) ⊎ Rose (O.faults out.old) (O.faults out.new) × AppendsFront (O.held out.old) (O.held out.new) (line_of status) }
{
    let _ = write_all(out, status.line());
    status.code()
}
