//! What is told and made of the values of a build's roots.

ghost use Rattle.std.specs.Prelude.{◌≡◌, ◌↔◌, ℕ, false, List, Some, Ok, Err};
ghost use Rattle.inc_query.specs.Plans.{denote};
ghost use Rattle.rs_tree.specs.declared.answers.Const.{Const};
ghost use Rattle.rs_tree.specs.declared.place.Place.{Place};
ghost use Rattle.rs_tree.specs.declared.tree.Crate.{Crate};
ghost use Rattle.rs_text.specs.Text.{text_of};
ghost use Rattle.rs_text.specs.declared.fault.TextFault.{TextFault};
ghost use Rattle.rs_forms.specs.Fits.{FitsFault};
ghost use Rattle.rs_const.specs.Constants.{AreValues};
ghost use Rattle.rs_queries.specs.Known.{constants_of, value_at};
ghost use Rattle.rs_queries.specs.Built.{IsClean, IsCompiled, IsFaultCompiled, IsTreeCompiled, clean_of};
ghost use Rattle.rs_queries.specs.declared.compiled.Compiled.{Compiled};
ghost use Rattle.rs_plans.specs.Plans.{index_fault, level_of, plan_of};
ghost use Rattle.plan_laws.specs.Assembled.{IsAssembled};
ghost use Rattle.plan_laws.specs.Roots.{FitsClean, GiveRoots, IsFaultAssembled, IsTextAssembled, IsTextFitting, IsTextRooted, has_wrong};
ghost use Rattle.plan_laws.specs.Texts.{HasCrate};
ghost use Rattle.plan_laws.specs.Whole.{HasItems, IsUsable};

use rs_grammar::{items_parse_again, trees_are_tidy};
use rs_object::objects_differ;
use rs_reach::search_is_exact;
use rs_text::texts_are_read;
use rs_units::members_are_reached;

/// What is told and made of the values of a text's roots is what a compiler makes of the text, and nothing else is: of a tree the lines of
/// what is wrong with its items, moved to their places, of functions that are never used, and the objects and their image; of a fault its line. So it is
/// the clean build of the text. That the checks give what is wrong with items, and the objects' queries those of the clean build, is a premise.
pub fn assembled_builds_are_clean()
    ensures tree { (setting text : List ℕ) (krate : Crate) (values : List Const) (c : Compiled) → HasCrate text krate → HasItems krate → GiveRoots (denote (plan_of setting) text) krate (level_of setting) values
        → IsAssembled (denote (plan_of setting) text) krate c ↔ IsTreeCompiled krate (level_of setting) c }
    ensures fault { (setting text : List ℕ) (fault : TextFault) (c : Compiled) → text_of text ≡ Err fault → FitsFault (index_fault fault) → IsFaultAssembled (denote (plan_of setting) text) c ↔ IsFaultCompiled fault c }
    ensures text { (setting text : List ℕ) (c : Compiled) → IsTextRooted text (denote (plan_of setting) text) (level_of setting) → IsTextAssembled text (denote (plan_of setting) text) c ↔ IsCompiled text (level_of setting) c }
    ensures clean { (setting text : List ℕ) (c : Compiled) → IsTextRooted text (denote (plan_of setting) text) (level_of setting) → IsTextAssembled text (denote (plan_of setting) text) c → IsClean text (level_of setting) (clean_of c) }
{
    texts_are_read();
    trees_are_tidy();
    items_parse_again();
    objects_differ();
}

/// The roots of a build give what the clean build says, where what it says is in the ranges of its types: each check what is wrong with its item, and where
/// no line is an error's, each object's query the object of its unit. So what is told and made of them is the clean build.
pub fn roots_are_valued()
    ensures { (setting text : List ℕ) (krate : Crate) (values : List Const) → HasCrate text krate → HasItems krate → AreValues (constants_of krate) values → FitsClean krate (level_of setting) values
        → GiveRoots (denote (plan_of setting) text) krate (level_of setting) values }
{
    texts_are_read();
    trees_are_tidy();
    items_parse_again();
    search_is_exact();
    members_are_reached();
}

/// Where no line of a text is an error's, each constant has a number or a truth value.
pub fn constants_have_values()
    ensures { (text : List ℕ) (krate : Crate) (values : List Const) (at : Place) (c : Const) → text_of text ≡ Ok krate → AreValues (constants_of krate) values → has_wrong krate values ≡ false
        → value_at (constants_of krate) values at ≡ Some c → IsUsable c }
{
    texts_are_read();
    trees_are_tidy();
}

/// What is told and made of the values of a text's roots is what a compiler makes of the text, and so its clean build, and nothing else is: all
/// that is asked is that the text's parts and what the clean build says of it are in the ranges of their types.
pub fn builds_by_queries_are_clean()
    ensures whole { (setting text : List ℕ) (c : Compiled) → IsTextFitting text (level_of setting) → IsTextAssembled text (denote (plan_of setting) text) c ↔ IsCompiled text (level_of setting) c }
    ensures clean { (setting text : List ℕ) (c : Compiled) → IsTextFitting text (level_of setting) → IsTextAssembled text (denote (plan_of setting) text) c → IsClean text (level_of setting) (clean_of c) }
{
    roots_are_valued();
    assembled_builds_are_clean();
}
