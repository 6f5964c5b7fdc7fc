ghost use Rattle.std.specs.Prelude.{◌≡◌, ◌<◌, ℕ, map, IfNone, IfOk, IfSome, List};
ghost use Rattle.inc_base.specs.Texts.{IsName};
ghost use Rattle.inc_words.specs.Words.{AreRefused, Asks, AsksFor, IsClean, IsSpelled, NamesPlaces};

use crate::options::{after_option, after_word, level_of};
use inc_base::{Bytes, Compiler, Memory, Name, VERSION};
use std::alloc::Global;

/// What accepted words ask for (docs/ARCHITECTURE.md, "Commands").
#[derive(Debug, Drop)]
pub enum Command {
    /// A build of a crate, whose result is published in a directory.
    Build { krate: Name, compiler: Compiler },
    /// A build that touches no directory.
    Clean { compiler: Compiler },
}

/// The places that the words name, for whoever opens them: the directory's root, the source's file and the
/// image's file, where the command has them.
#[derive(Debug, Drop)]
pub struct OpenPlaces {
    pub root: Option<Bytes>,
    pub src: Option<Bytes>,
    pub image: Option<Bytes>,
}

/// The words of a build, whatever stands for the crate's name.
#[derive(Clone, Copy)]
struct BuildWords<'a> {
    krate: &'a str,
    root: &'a str,
    src: &'a str,
    image: &'a str,
    level: u8,
}

/// The words of a clean build.
#[derive(Clone, Copy)]
struct CleanWords<'a> {
    src: &'a str,
    image: &'a str,
    level: u8,
}

fn build_words<'a>(words: &[&'a str]) -> Option<BuildWords<'a>>
    ensures some { IfSome result (λ b. IsSpelled (map (λ w. w.now) words.now) b.krate.now b.root.now b.src.now b.image.now b.level) }
    ensures none { IfNone result ((krate root src image : List ℕ) (level : ℕ) → ¬ IsSpelled (map (λ w. w.now) words.now) krate root src image level) }
    ensures level { IfSome result (λ b. b.level < 2) }
{
    let rest = after_word(words, "build")?;
    let (krate, rest) = after_option(rest, "--crate")?;
    let (root, rest) = after_option(rest, "--root")?;
    let (src, rest) = after_option(rest, "--src")?;
    let (image, rest) = after_option(rest, "--image")?;
    let level = level_of(rest)?;
    Some(BuildWords {
        krate,
        root,
        src,
        image,
        level,
    })
}

fn clean_words<'a>(words: &[&'a str]) -> Option<CleanWords<'a>>
    ensures some { IfSome result (λ c. IsClean (map (λ w. w.now) words.now) c.src.now c.image.now c.level) }
    ensures none { IfNone result ((src image : List ℕ) (level : ℕ) → ¬ IsClean (map (λ w. w.now) words.now) src image level) }
    ensures level { IfSome result (λ c. c.level < 2) }
{
    let rest = after_word(words, "clean")?;
    let (src, rest) = after_option(rest, "--src")?;
    let (image, rest) = after_option(rest, "--image")?;
    let level = level_of(rest)?;
    Some(CleanWords { src, image, level })
}

/// What accepted words say: the command, and the places that they name.
#[derive(Drop)]
struct Asked {
    command: Command,
    places: OpenPlaces,
}

/// This compiler at a level.
fn this_compiler(level: u8) -> Compiler
    requires { level < 2 }
    ensures version { result.version ≡ 1 }
    ensures level { result.level ≡ level }
{
    Compiler {
        version: VERSION,
        level,
    }
}

fn asked_clean(alloc: Global, clean: &CleanWords) -> Result<Asked, Memory>
    requires { clean.now.level < 2 }
    ensures { IfOk result (λ asked. (words : List (List ℕ)) → IsClean words clean.now.src.now clean.now.image.now clean.now.level → Asks words asked.command asked.places) }
{
    let src = Bytes::of(alloc, clean.src.as_bytes())?;
    let image = Bytes::of(alloc, clean.image.as_bytes())?;
    Ok(Asked {
        command: Command::Clean {
            compiler: this_compiler(clean.level),
        },
        places: OpenPlaces {
            root: None,
            src: Some(src),
            image: Some(image),
        },
    })
}

fn asked_build(alloc: Global, build: &BuildWords) -> Result<Option<Asked>, Memory>
    requires { build.now.level < 2 }
    ensures some { IfOk result (λ found. IfSome found (λ asked. (words : List (List ℕ)) → IsSpelled words build.now.krate.now build.now.root.now build.now.src.now build.now.image.now build.now.level
        → Asks words asked.command asked.places)) }
    ensures none { IfOk result (λ found. IfNone found (¬ IsName build.now.krate.now)) }
{
    let Some(krate) = Name::of(alloc, build.krate.as_bytes())? else {
        return Ok(None);
    };
    let root = Bytes::of(alloc, build.root.as_bytes())?;
    let src = Bytes::of(alloc, build.src.as_bytes())?;
    let image = Bytes::of(alloc, build.image.as_bytes())?;
    Ok(Some(Asked {
        command: Command::Build {
            krate,
            compiler: this_compiler(build.level),
        },
        places: OpenPlaces {
            root: Some(root),
            src: Some(src),
            image: Some(image),
        },
    }))
}

fn asked_by(alloc: Global, words: &[&str]) -> Result<Option<Asked>, Memory>
    ensures some { IfOk result (λ found. IfSome found (λ asked. Asks (map (λ w. w.now) words.now) asked.command asked.places)) }
    ensures none { IfOk result (λ found. IfNone found (AreRefused (map (λ w. w.now) words.now))) }
{
    match clean_words(words) {
        Some(clean) => Ok(Some(asked_clean(alloc, &clean)?)),
        None => match build_words(words) {
            Some(build) => Ok(asked_build(alloc, &build)?),
            None => Ok(None),
        },
    }
}

/// The command that the words ask for: `None` exactly where they aren't accepted. `Memory` where there is none for what they say
/// (docs/ARCHITECTURE.md, "Commands").
pub fn read_words(alloc: Global, words: &[&str]) -> Result<Option<Command>, Memory>
    ensures some { IfOk result (λ found. IfSome found (AsksFor (map (λ w. w.now) words.now))) }
    ensures none { IfOk result (λ found. IfNone found (AreRefused (map (λ w. w.now) words.now))) }
{
    match asked_by(alloc, words)? {
        None => Ok(None),
        Some(Asked { command, places }) => {
            drop(places);
            Ok(Some(command))
        }
    }
}

/// The places that the words name: `None` exactly where the words aren't accepted. `Memory` where there is none for what they say
/// (docs/ARCHITECTURE.md, "Commands").
pub fn places(alloc: Global, words: &[&str]) -> Result<Option<OpenPlaces>, Memory>
    ensures some { IfOk result (λ found. IfSome found (NamesPlaces (map (λ w. w.now) words.now))) }
    ensures none { IfOk result (λ found. IfNone found (AreRefused (map (λ w. w.now) words.now))) }
{
    match asked_by(alloc, words)? {
        None => Ok(None),
        Some(Asked { command, places }) => {
            drop(command);
            Ok(Some(places))
        }
    }
}
