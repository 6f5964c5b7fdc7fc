//! What is made of a text of at most 1,048,576 bytes.

ghost use Rattle.std.specs.Prelude.{◌≤◌, ℕ, List, length};
ghost use Rattle.plan_laws.specs.Roots.{IsTextFitting};
ghost use Rattle.range_laws.specs.Bounded.{most};

use crate::diagnostics::{constants_fit, diagnostics_fit};
use crate::forms::{forms_fit, objects_fit};
use rs_reach::search_is_exact;
use rs_text::{lexed_tokens_are_lexed, texts_are_read};

/// What is made of a text of at most 1,048,576 bytes is in the ranges of its types, as builds by queries need it of a text.
pub fn texts_fit()
    ensures { (text : List ℕ) (level : ℕ) → length text ≤ most → IsTextFitting text level }
{
    texts_are_read();
    lexed_tokens_are_lexed();
    search_is_exact();
    constants_fit();
    diagnostics_fit();
    forms_fit();
    objects_fit();
}
