//! What the tree of a text of at most 1,048,576 bytes is.

ghost use Rattle.std.specs.Prelude.{◌≡◌, ◌≤◌, ℕ, List, length, Ok, Err};
ghost use Rattle.rs_tree.specs.declared.tree.Crate.{Crate};
ghost use Rattle.rs_text.specs.Text.{text_of};
ghost use Rattle.rs_text.specs.declared.fault.TextFault.{TextFault};
ghost use Rattle.rs_forms.specs.Fits.{FitsFault};
ghost use Rattle.rs_plans.specs.Plans.{index_fault};
ghost use Rattle.plan_laws.specs.Texts.{HasCrate};
ghost use Rattle.plan_laws.specs.Whole.{HasItems};
ghost use Rattle.range_laws.specs.Bounded.{BoundedCrate, most};

use rs_text::{lexed_tokens_are_lexed, texts_are_read};

/// The tree of a text of at most 1,048,576 bytes is bounded: its places are near, its names short, its numbers in the signed 64-bit
/// range, and no part of it is larger than the text.
pub fn trees_are_bounded()
    ensures { (text : List ℕ) (krate : Crate) → length text ≤ most → text_of text ≡ Ok krate → BoundedCrate krate }
{
    texts_are_read();
}

/// What a text of at most 1,048,576 bytes is read as is in the ranges of its types: the index of its tree, the tokens and the
/// parameters of each item, and its fault. An item's tokens can be a text's.
pub fn trees_fit()
    ensures whole { (text : List ℕ) (krate : Crate) → length text ≤ most → text_of text ≡ Ok krate → HasCrate text krate }
    ensures items { (text : List ℕ) (krate : Crate) → length text ≤ most → text_of text ≡ Ok krate → HasItems krate }
    ensures fault { (text : List ℕ) (fault : TextFault) → length text ≤ most → text_of text ≡ Err fault → FitsFault (index_fault fault) }
{
    texts_are_read();
    lexed_tokens_are_lexed();
}
