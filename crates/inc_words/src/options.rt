//! Options, taken off the front of words.
ghost use Rattle.std.specs.Prelude.{◌≡◌, ◌↔◌, ◌∷◌, ◌<◌, ℕ, List, map, IfNone, IfSome, IsTrue};
ghost use Rattle.inc_words.specs.Words.{IsLevel, IsValue};

/// The level where it isn't given.
const LEVEL: u8 = 1;

fn is_word(word: &str, text: &str) -> bool
    ensures { IsTrue result ↔ (word.now ≡ text.now) }
{
    word == text
}

fn is_value(word: &str) -> bool
    ensures { IsTrue result ↔ IsValue word.now }
{
    match word.as_bytes() {
        [] => false,
        [first, ..] => *first != b'-',
    }
}

/// The words after this first one: `None` where another or none is first.
pub(crate) fn after_word<'w, 'a>(words: &'w [&'a str], first: &str) -> Option<&'w [&'a str]>
    ensures some { IfSome result (λ rest. map (λ w. w.now) words.now ≡ first.now ∷ map (λ w. w.now) rest.now) }
    ensures none { IfNone result ((rest : List (List ℕ)) → ¬ (map (λ w. w.now) words.now ≡ first.now ∷ rest)) }
{
    let [word, rest @ ..] = words else {
        return None;
    };
    if !is_word(word, first) {
        return None;
    }
    Some(rest)
}

/// The value of an option that stands first, and the words after it: `None` where it doesn't, or what follows is no value.
pub(crate) fn after_option<'w, 'a>(
    words: &'w [&'a str],
    option: &str,
) -> Option<(&'a str, &'w [&'a str])>
    ensures some { IfSome result (λ found. (map (λ w. w.now) words.now ≡ option.now ∷ found.0.now ∷ map (λ w. w.now) found.1.now) × IsValue found.0.now) }
    ensures none { IfNone result ((value : List ℕ) (rest : List (List ℕ)) → map (λ w. w.now) words.now ≡ option.now ∷ value ∷ rest → ¬ IsValue value) }
{
    let words = after_word(words, option)?;
    let [value, rest @ ..] = words else {
        return None;
    };
    if !is_value(value) {
        return None;
    }
    Some((value, rest))
}

/// The level that these words, which are the last ones, say: `None` where they say none.
pub(crate) fn level_of(words: &[&str]) -> Option<u8>
    ensures some { IfSome result (IsLevel (map (λ w. w.now) words.now)) }
    ensures none { IfNone result ((level : ℕ) → ¬ IsLevel (map (λ w. w.now) words.now) level) }
    ensures small { IfSome result (λ level. level < 2) }
{
    if words.is_empty() {
        return Some(LEVEL);
    }
    let (value, rest) = after_option(words, "--level")?;
    if !rest.is_empty() {
        return None;
    }
    match value {
        "0" => Some(0),
        "1" => Some(1),
        _ => None,
    }
}
