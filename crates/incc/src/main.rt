//! The program `incc`.
//!
//! It opens what its words name, hands all of it to `inc_cli::run`, and ends with the status that this
//! answers. `inc_cli` reads the words and decides each status, and `inc_real` is the directory on the system's
//! files. Open `main` first, and then `ImageFile` in `image`.
#![tactic(auto)]

mod image;
mod messages;
mod patient;
mod standard;

ghost use Rattle.std.specs.Prelude.{◌≡◌, false};
ghost use Rattle.incc.specs.Endings.{EndsAs};

use image::ImageFile;
use inc_base::{Bytes, Memory, Meter, Sink, StdSink, StdSource, write_all};
use inc_cli::{Status, run};
use inc_real::{Failure, RealDir};
use inc_words::{OpenPlaces, places};
use messages::{say, show_usage};
use patient::Patient;
use standard::Standard;
use std::fs::{File, Files};
use std::io::{Eprint, ErrorKind, Printer};
use std::process::ExitCode;
use std::random::RandomSource;
use std::rt::Env;
use std::time::Clock;
use std::{env, io, process, str};

/// What the standard output is called in what is said to a person.
const OUTPUT: &str = "standard output";

/// What the system answers of a descriptor that isn't open.
const NOT_OPEN: i32 = 9;

fn main(rt: HostRuntime) -> ExitCode {
    // It comes first, and is held to the end.
    let standard = Standard::taken(&rt);
    let code = with_output(&rt, process::id(rt.process()), &standard);
    if code == Status::BadWords.code() {
        show_usage(&rt);
    }
    drop(standard);
    ExitCode::from(code)
}

/// Makes the call of the process's words, and answers its status.
fn with_output(rt: &HostRuntime, process: u32, standard: &io::Result<Standard>) -> u8 {
    let mut out = StdSink::new(output(rt, standard));
    match call(rt, process, standard.is_ok(), &mut out) {
        Ok(code) => code,
        Err(Memory) => refuse(Status::OutOfMemory, &mut out),
    }
}

/// The standard output: `None` where the process was started without one.
fn output<'a>(
    rt: &'a HostRuntime,
    standard: &io::Result<Standard>,
) -> Option<Patient<'a, HostRuntime, Printer<'a, HostRuntime>>> {
    match standard {
        Ok(standard) if standard.lacks_output() => {
            say(rt, OUTPUT, &io::Error::from_raw_os_error(NOT_OPEN));
            return None;
        }
        Ok(_) => {}
        Err(e) => say(rt, "standard streams", e),
    }
    Some(Patient::new(rt, OUTPUT, io::writer(rt)))
}

/// Ends before the call that would refuse. That its line can't be written changes no status.
fn refuse<O: Sink>(status: Status, out: &mut O) -> u8 {
    let _ = write_all(out, status.line());
    status.code()
}

/// Opens what the words name and makes the call. Where a standard stream may be missing, nothing is opened,
/// and the source counts as one that can't be.
fn call<R, O: Sink>(rt: &R, process: u32, is_ready: bool, out: &mut O) -> Result<u8, Memory>
where
    R: Files<File = File> + AllocGlobal + Clock + Env + RandomSource + Eprint + Clone + Drop,
{
    let words = given_words(rt)?;
    let mut texts = Vec::new(rt.alloc());
    for word in &words {
        texts.push(word.as_str())?;
    }
    let open = match places(rt.alloc(), &texts)? {
        Some(open) if is_ready => open,
        // The call refuses the words, and touches nothing.
        _ => OpenPlaces {
            root: None,
            src: None,
            image: None,
        },
    };
    let root = text(&open.root).unwrap_or("");
    let mut dir = RealDir::new(rt.clone()?, root, seed(rt))?;
    let source = opened(rt, text(&open.src));
    let image = made(rt, text(&open.image), &source, process)?;
    let src_name = text(&open.src).unwrap_or("");
    let image_name = text(&open.image).unwrap_or("");
    let code = run_over(
        rt, &texts, src_name, &source, image_name, &image, &mut dir, out,
    );
    if code == Status::DirectoryFault.code() {
        say(rt, root, &failure_of(dir.failure()));
    }
    Ok(settled(rt, image_name, image, code))
}

/// Makes the call over what was opened, and answers its status.
fn run_over<'a, R, O: Sink>(
    rt: &'a R,
    words: &[&str],
    src_name: &'a str,
    source: &'a Option<File>,
    image_name: &'a str,
    image: &'a Option<ImageFile>,
    dir: &mut RealDir<R>,
    out: &mut O,
) -> u8
where
    R: Files<File = File> + AllocGlobal + Clock + Eprint + Clone + Drop,
    requires { dir.old.runs ≡ false }
{
    let mut src = StdSource::new(reader(rt, src_name, source));
    let mut sink = StdSink::new(writer(rt, image_name, image));
    let mut meter = Meter::new();
    run(rt.alloc(), words, &mut src, dir, out, &mut sink, &mut meter)
}

/// The words after the program's name. Where one is no text, there are none.
fn given_words<R: Env + AllocGlobal>(rt: &R) -> Result<Vec<String>, Memory> {
    let mut words = Vec::new(rt.alloc());
    match env::args(rt) {
        Ok(args) => {
            for word in args.skip(1) {
                words.push(word)?;
            }
            Ok(words)
        }
        Err(e) if e.kind() == ErrorKind::OutOfMemory => Err(Memory),
        Err(_) => Ok(words),
    }
}

fn text(place: &Option<Bytes>) -> Option<&str> {
    match place {
        Some(bytes) => str::from_utf8(bytes.as_slice()).ok(),
        None => None,
    }
}

/// What is said of a failure of the directory.
fn failure_of(failure: Option<Failure>) -> io::Error {
    match failure {
        Some(Failure::System(Some(number))) => io::Error::from_raw_os_error(number),
        Some(Failure::Kind) => io::Error::other("Something else has a folder's or a file's name"),
        Some(Failure::Name) => io::Error::other("A session's folder has a name that isn't a label"),
        Some(Failure::Length) => io::Error::other("A file is longer than 67,108,864 bytes"),
        Some(Failure::Changed) => io::Error::other("Something was put in its place meanwhile"),
        Some(Failure::Lock) => io::Error::other("A lock was lost"),
        Some(Failure::System(None)) | None => io::Error::other("It failed"),
    }
}

/// The file of a place, to be read: `None` where there is none or it can't be opened.
fn opened<R: Files<File = File> + AllocGlobal + Eprint>(
    rt: &R,
    place: Option<&str>,
) -> Option<File> {
    let path = place?;
    match File::open(rt, path) {
        Ok(file) => Some(file),
        Err(e) => {
            say(rt, path, &e);
            None
        }
    }
}

/// The file of an image: `None` where there is no place for it or no source, and where it can't be opened.
fn made<R: Files<File = File> + AllocGlobal + Eprint>(
    rt: &R,
    place: Option<&str>,
    source: &Option<File>,
    process: u32,
) -> Result<Option<ImageFile>, Memory> {
    let (Some(path), Some(source)) = (place, source) else {
        return Ok(None);
    };
    match ImageFile::open(rt, path, source, process) {
        Ok(file) => Ok(Some(file)),
        Err(e) if e.kind() == ErrorKind::OutOfMemory => Err(Memory),
        Err(e) => {
            say(rt, path, &e);
            Ok(None)
        }
    }
}

fn reader<'a, R>(
    rt: &'a R,
    name: &'a str,
    source: &'a Option<File>,
) -> Option<Patient<'a, R, &'a File>> {
    match source {
        Some(file) => Some(Patient::new(rt, name, file)),
        None => None,
    }
}

fn writer<'a, R>(
    rt: &'a R,
    name: &'a str,
    image: &'a Option<ImageFile>,
) -> Option<Patient<'a, R, &'a File>> {
    match image {
        Some(image) => Some(Patient::new(rt, name, &image.file)),
        None => None,
    }
}

/// Ends the image's file as the status of the call wants, and answers the status of the process.
fn settled<R: Files<File = File> + AllocGlobal + Eprint>(
    rt: &R,
    name: &str,
    image: Option<ImageFile>,
    code: u8,
) -> u8
    ensures { EndsAs code result }
{
    match image {
        Some(image) => image.settle(rt, name, code),
        None => code,
    }
}

/// A number of the system's choice and of the clock, so that sessions of other processes draw other random
/// parts. Where the system gives neither, a session that draws the name of another one finds it taken.
fn seed<R: RandomSource + Clock>(rt: &R) -> u64 {
    let mut bytes = [0; 8];
    let chosen = match rt.fill_bytes(&mut bytes) {
        Ok(()) => u64::from_le_bytes(bytes),
        Err(_) => 0,
    };
    chosen ^ nanoseconds(rt)
}

/// How many nanoseconds of the clock's second are over, and how many seconds since 1970, one beside the other.
fn nanoseconds(rt: &impl Clock) -> u64 {
    match rt.since_1970() {
        Ok(time) => (time.as_secs() << 30) ^ u64::from(time.subsec_nanos()),
        Err(_) => 0,
    }
}
