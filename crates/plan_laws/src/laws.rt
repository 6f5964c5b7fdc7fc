//! What the queries of a text give.

ghost use Rattle.std.specs.Prelude.{◌≡◌, ℕ, List, [], map, Option, Some, Ok, Err};
ghost use Rattle.std.specs.List.{AllByRecursion};
ghost use Rattle.inc_query.specs.Plans.{denote};
ghost use Rattle.rs_tree.specs.declared.answers.Const.{Const};
ghost use Rattle.rs_tree.specs.declared.answers.Found.{Found};
ghost use Rattle.rs_tree.specs.declared.index.IndexItem.{IndexItem};
ghost use Rattle.rs_tree.specs.declared.index.Sig.{Sig};
ghost use Rattle.rs_tree.specs.declared.ir.Ir.{Ir};
ghost use Rattle.rs_tree.specs.declared.place.Place.{Place};
ghost use Rattle.rs_tree.specs.declared.tree.Crate.{Crate};
ghost use Rattle.rs_tree.specs.declared.tree.Item.{Item};
ghost use Rattle.rs_tree.specs.declared.tree.Path as path;
ghost use Rattle.rs_tree.specs.declared.tree.Placed.{Placed};
ghost use Rattle.rs_tree.specs.Plain.{PlainItem};
ghost use Rattle.rs_text.specs.Text.{text_of};
ghost use Rattle.rs_text.specs.declared.fault.TextFault.{TextFault};
ghost use Rattle.rs_forms.specs.Forms.{fault_form, index_form, item_form, sig_form};
ghost use Rattle.rs_answers.specs.Forms.{places_form};
ghost use Rattle.rs_check.specs.Items.{item_wrongs};
ghost use Rattle.rs_lower.specs.Lowered.{lowered};
ghost use Rattle.rs_reach.specs.Dead.{dead_of};
ghost use Rattle.rs_units.specs.Members.{members_of};
ghost use Rattle.rs_queries.specs.Built.{consts_of, form_of, members_in, tree_index};
ghost use Rattle.rs_queries.specs.Diagnosed.{calls_of};
ghost use Rattle.rs_queries.specs.Known.{all_answered, answered, constants_of, items_of, place_of, sig_of, sigs_of};
ghost use Rattle.rs_plans.specs.Plans.{index_fault, plan_of};
ghost use Rattle.rs_plans.specs.Readings.{index_in, item_in, places_in};
ghost use Rattle.rs_plans.specs.Steps.{query, whole};
ghost use Rattle.plan_laws.specs.Agree.{Agrees, ValuesAgree};
ghost use Rattle.plan_laws.specs.Texts.{HasCrate, HasItem};
ghost use Rattle.plan_laws.specs.Whole.{HasItems};

use rs_grammar::{items_parse_again, trees_are_tidy};
use rs_text::texts_are_read;
use rs_units::members_are_reached;

/// The query of the index gives the index of a text's tree, which is read back as it, and where the text has a fault, that.
pub fn indexes_are_valued()
    ensures tree { (setting text : List ℕ) (krate : Crate) → text_of text ≡ Ok krate → denote (plan_of setting) text (whole 1) ≡ index_form (tree_index krate) }
    ensures fault { (setting text : List ℕ) (fault : TextFault) → text_of text ≡ Err fault → denote (plan_of setting) text (whole 1) ≡ fault_form (index_fault fault) }
    ensures read { (setting text : List ℕ) (krate : Crate) → HasCrate text krate → index_in (denote (plan_of setting) text (whole 1)) ≡ Some (tree_index krate) }
{
    texts_are_read();
    trees_are_tidy();
}

/// The query of an item gives its form, which is read back as it.
pub fn items_are_valued()
    ensures form { (setting text : List ℕ) (krate : Crate) (p : Placed) → HasCrate text krate → HasItem krate p → denote (plan_of setting) text (query 2 (place_of p)) ≡ item_form p.item }
    ensures read { (setting text : List ℕ) (krate : Crate) (p : Placed) → HasCrate text krate → HasItem krate p → item_in (denote (plan_of setting) text (query 2 (place_of p))) ≡ Some p.item }
{
    texts_are_read();
    trees_are_tidy();
    items_parse_again();
}

/// The query of a signature gives that of the item, whose kind is the one that the index has.
pub fn signatures_are_valued()
    ensures { (setting text : List ℕ) (krate : Crate) (p : Placed) → HasCrate text krate → HasItem krate p → denote (plan_of setting) text (query 3 (place_of p)) ≡ sig_form (sig_of (items_of krate) p).1 }
{
    texts_are_read();
    trees_are_tidy();
    items_parse_again();
}

/// The query of an item's calls gives the functions that it calls, as the clean build's definitions have them.
pub fn calls_are_valued()
    ensures { (setting text : List ℕ) (krate : Crate) (p : Placed) → HasCrate text krate → HasItem krate p → denote (plan_of setting) text (query 6 (place_of p)) ≡ places_form (calls_of (items_of krate) (answered (items_of krate) p)).1 }
{
    texts_are_read();
    trees_are_tidy();
    items_parse_again();
}

/// The query of functions that are never used gives those that the clean build warns of, though it asks for the calls of those functions alone that
/// it finds.
pub fn dead_functions_are_valued()
    ensures { (setting text : List ℕ) (krate : Crate) → HasCrate text krate → HasItems krate → denote (plan_of setting) text (whole 7) ≡ places_form (dead_of (items_of krate) (map (calls_of (items_of krate)) (all_answered krate))) }
{
    texts_are_read();
    trees_are_tidy();
    items_parse_again();
}

/// The query of a unit's members gives those of which the clean build makes its object, and is read back as they.
pub fn members_are_valued()
    ensures form { (setting text : List ℕ) (krate : Crate) (unit : List ℕ) → HasCrate text krate → HasItems krate → denote (plan_of setting) text (record { kind = 8; «module» = unit; name = [] }) ≡ places_form (members_of unit (items_of krate) (map (calls_of (items_of krate)) (all_answered krate))) }
    ensures read { (setting text : List ℕ) (krate : Crate) (unit : List ℕ) → HasCrate text krate → HasItems krate → places_in (denote (plan_of setting) text (record { kind = 8; «module» = unit; name = [] })) ≡ Some (members_of unit (items_of krate) (map (calls_of (items_of krate)) (all_answered krate))) }
    ensures clean { (krate : Crate) (level : ℕ) (values : List Const) (unit : List ℕ) → members_of unit (items_of krate) (map (calls_of (items_of krate)) (all_answered krate))
        ≡ map (λ (m : Place × Ir). m.0) (members_in (items_of krate) (map (calls_of (items_of krate)) (all_answered krate)) (map (form_of level (sigs_of krate) (consts_of (constants_of krate) values)) (all_answered krate)) unit) }
{
    texts_are_read();
    trees_are_tidy();
    items_parse_again();
    members_are_reached();
}

/// What is wrong with an item depends on the signatures of the items that its paths lead to, and on no others: two lists of
/// signatures that agree at each of these say the same of it.
pub fn wrongs_need_named_items()
    ensures { (items : List IndexItem) (sigs other : List (Place × Sig)) (home : List ℕ) (found : List Found) (value : Option Const) (item : PlainItem path.Path)
        → AllByRecursion (Agrees sigs other) found → item_wrongs items sigs home found value item ≡ item_wrongs items other home found value item }
{}

/// The form of a function depends on the signatures and the values of the items that its paths lead to, and on no others: lists
/// of signatures and of constants' values that agree at each of these give the same form, at each level.
pub fn forms_need_named_items()
    ensures { (level : ℕ) (found : List Found) (sigs other : List (Place × Sig)) (consts more : List (Place × Const)) (item : Item)
        → AllByRecursion (Agrees sigs other) found → AllByRecursion (ValuesAgree consts more) found → lowered level found sigs consts item ≡ lowered level found other more item }
{}
