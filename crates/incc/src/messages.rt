use std::alloc::{AllocError, AllocGlobal};
use std::io;
use std::io::Eprint;

/// Each accepted form of words, for a person whose words weren't.
const USAGE: &str =
    "usage: incc build --crate NAME --root DIR --src FILE --image FILE [--level 0 or 1]\n       incc clean --src FILE --image FILE [--level 0 or 1]";

/// Tells a person what failed: what it was done to, and the system's words. That it can't be told changes
/// nothing.
pub fn say<R: Eprint + AllocGlobal>(rt: &R, name: &str, error: &io::Error) {
    match words(rt, error) {
        Ok(words) => {
            let _ = eprintln!(rt; "incc: {name}: {}", plain(words.as_str()));
        }
        Err(_) => {
            let _ = eprintln!(rt; "incc: {name}: {error}");
        }
    }
}

/// Shows a person the forms of words.
pub fn show_usage<R: Eprint>(rt: &R) {
    let _ = eprintln!(rt; "{USAGE}");
}

fn words<R: AllocGlobal>(rt: &R, error: &io::Error) -> Result<String, AllocError> {
    format!(in rt.alloc(); "{error}")
}

/// The words without the number that std adds to them.
fn plain(words: &str) -> &str {
    match words.split_once(" (os error ") {
        Some((plain, _)) => plain,
        None => words,
    }
}
