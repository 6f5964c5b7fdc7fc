use inc_base::{Bytes, Label, List, MemSink, MemSource, Memory, Meter};
use inc_cli::run;
use inc_names::{Entry, read_entry};
use inc_real::RealDir;
use std::alloc::Global;
use std::random::RandomSource;
use std::test::Fail;
use std::{env, fs};

/// The words of a build of the crate `k`.
const WORDS: [&str; 9] = [
    "build", "--crate", "k", "--root", "d", "--src", "s", "--image", "i",
];

/// A number of the system's choice.
fn seed(rt: &impl RandomSource) -> u64 {
    let mut bytes = [0; 8];
    match rt.fill_bytes(&mut bytes) {
        Ok(()) => u64::from_le_bytes(bytes),
        Err(_) => 0,
    }
}

/// A folder's name that nothing has, in the system's folder for such.
fn new_root(rt: &HostRuntime) -> Result<String, Fail> {
    let mut root = env::temp_dir(rt)?;
    let number = seed(rt);
    root.push(format!(in rt.alloc(); "incc-{number}")?.as_str())?;
    Ok(root.into_string())
}

/// A source of the text that prints 7.
fn seven(alloc: Global) -> Result<MemSource, Memory> {
    let text = Bytes::of(alloc, b"fn main() { println!(\"{}\", 7); }\n")?;
    Ok(MemSource::new(text, List::new(alloc)))
}

/// The status of a build of it in this folder.
fn build(rt: HostRuntime, root: &str) -> Result<u8, Memory> {
    let alloc = rt.alloc();
    let mut src = seven(alloc)?;
    let mut dir = RealDir::new(rt, root, seed(&rt))?;
    let mut out = MemSink::new(alloc, List::new(alloc));
    let mut image = MemSink::new(alloc, List::new(alloc));
    let mut meter = Meter::new();
    Ok(run(
        alloc, &WORDS, &mut src, &mut dir, &mut out, &mut image, &mut meter,
    ))
}

/// Whether this is the name of a finished session. It has to be that of an entry.
fn is_finished(alloc: Global, name: &[u8]) -> Result<bool, Fail> {
    let label = Label::of(alloc, name)?.ok_or("no label")?;
    let entry = read_entry(&label).ok_or("not well formed")?;
    Ok(matches!(entry, Entry::Final(..)))
}

/// How many names the folder has, and how many of them are those of finished sessions.
fn listed(rt: &HostRuntime, path: &str) -> Result<(u32, u32), Fail> {
    let mut all = 0u32;
    let mut finished = 0u32;
    for entry in fs::read_dir(rt, path)? {
        all = all.saturating_add(1);
        if is_finished(rt.alloc(), entry?.file_name().as_bytes())? {
            finished = finished.saturating_add(1);
        }
    }
    Ok((all, finished))
}

#[test]
fn two_builds_leave_two_finished_sessions(rt: HostRuntime) -> Result<(), Fail> {
    let root = new_root(&rt)?;
    let folder = format!(in rt.alloc(); "{root}/k")?;
    assert_eq!(rt; build(rt, root.as_str())?, 0);
    assert_eq!(rt; listed(&rt, folder.as_str())?, (2, 1));
    assert_eq!(rt; build(rt, root.as_str())?, 0);
    assert_eq!(rt; listed(&rt, folder.as_str())?, (4, 2));
    fs::remove_dir_all(&rt, root.as_str())?;
    Ok(())
}
