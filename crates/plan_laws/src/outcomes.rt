//! What the queries of diagnostics, of constants, of forms and of objects give.

ghost use Rattle.std.specs.Prelude.{◌≡◌, ℕ, true, false, List, [], map, None, Some};
ghost use Rattle.rs_tree.specs.declared.index.Sig.{Sig};
ghost use Rattle.rs_tree.specs.declared.ir.Ir.{Ir};
ghost use Rattle.rs_tree.specs.declared.place.Place.{Place};
ghost use Rattle.std.specs.List.{AllByRecursion, list_any};
ghost use Rattle.rs_const.specs.Constants.{AreValues, Entry};
ghost use Rattle.rs_object.specs.Forms.{object_form};
ghost use Rattle.rs_emit.specs.Objects.{object_of};
ghost use Rattle.rs_queries.specs.Built.{consts_of, form_of};
ghost use Rattle.rs_forms.specs.Fits.{FitsIr};
ghost use Rattle.rs_forms.specs.Forms.{ir_form};
ghost use Rattle.rs_plans.specs.Readings.{const_in, ir_in, places_in};
ghost use Rattle.inc_query.specs.Plans.{denote};
ghost use Rattle.rs_tree.specs.declared.answers.Const.{Const};
ghost use Rattle.rs_tree.specs.declared.tree.Crate.{Crate};
ghost use Rattle.rs_tree.specs.declared.tree.Placed.{Placed};
ghost use Rattle.rs_tree.specs.Plain.{definition, plain_item};
ghost use Rattle.rs_answers.specs.Fits.{FitsConst};
ghost use Rattle.rs_answers.specs.Forms.{const_form, diags_form};
ghost use Rattle.rs_check.specs.Items.{item_wrongs, lines};
ghost use Rattle.rs_queries.specs.Known.{Answered, answered, constants_of, items_of, place_of, sigs_of, value_at};
ghost use Rattle.rs_plans.specs.Plans.{is_constant, is_wrong, level_of, named_items, plan_of};
ghost use Rattle.rs_plans.specs.Steps.{query};
ghost use Rattle.rs_lookup.specs.Places.{place_name};
ghost use Rattle.plan_laws.specs.Agree.{EntriesAgree, entry_at};
ghost use Rattle.plan_laws.specs.Texts.{HasCrate, HasItem};
ghost use Rattle.plan_laws.specs.Whole.{HasItems, HaveValues};

use rs_grammar::{items_parse_again, trees_are_tidy};
use rs_text::texts_are_read;

/// The query of an item's diagnostics gives the lines of what is wrong with it, as the clean build's definitions have them: by the
/// signatures of the whole tree, and of a constant by its value.
pub fn diagnostics_are_valued()
    ensures { (setting text : List ℕ) (krate : Crate) (p : Placed) (values : List Const) → HasCrate text krate → HasItems krate → HasItem krate p → AreValues (constants_of krate) values → AllByRecursion FitsConst values
        → denote (plan_of setting) text (query 5 (place_of p)) ≡ diags_form (lines (item_wrongs (items_of krate) (sigs_of krate) p.«module» (answered (items_of krate) p).1 (value_at (constants_of krate) values (place_of p)) (plain_item p.item))) }
{
    texts_are_read();
    trees_are_tidy();
    items_parse_again();
}

/// The query of a function's form gives its form at the setting's level, by the signatures and the constants of the whole tree, where no
/// line of what is wrong with it is an error's, and the constants that its paths lead to have values. The form is read back as it.
pub fn forms_are_valued()
    ensures form { (setting text : List ℕ) (krate : Crate) (p : Placed) (values : List Const) → HasCrate text krate → HasItems krate → HasItem krate p → AreValues (constants_of krate) values → AllByRecursion FitsConst values
        → HaveValues (constants_of krate) values (named_items (answered (items_of krate) p).1) → is_constant (definition p.item.body) ≡ false
        → list_any is_wrong (lines (item_wrongs (items_of krate) (sigs_of krate) p.«module» (answered (items_of krate) p).1 None (plain_item p.item))) ≡ false
        → denote (plan_of setting) text (query 9 (place_of p)) ≡ ir_form (form_of (level_of setting) (sigs_of krate) (consts_of (constants_of krate) values) (answered (items_of krate) p)).1 }
    ensures read { (level : ℕ) (sigs : List (Place × Sig)) (consts : List (Place × Const)) (a : Answered) → FitsIr (form_of level sigs consts a).1 → ir_in (ir_form (form_of level sigs consts a).1) ≡ Some (form_of level sigs consts a).1 }
{
    texts_are_read();
    trees_are_tidy();
    items_parse_again();
}

/// The query of a unit's object gives the object of the unit's members, where the query of the members gives their places and those of
/// their forms are read.
pub fn objects_are_valued()
    ensures { (setting text unit : List ℕ) (members : List (Place × Ir)) → places_in (denote (plan_of setting) text (record { kind = 8; «module» = unit; name = [] })) ≡ Some (map (λ (m : Place × Ir). m.0) members)
        → AllByRecursion (λ (m : Place × Ir). ir_in (denote (plan_of setting) text (query 9 m.0)) ≡ Some m.1) members
        → denote (plan_of setting) text (record { kind = 10; «module» = unit; name = [] }) ≡ object_form (object_of unit members) }
{}

/// The value of a constant depends on the constants that it reaches, and on no others: where each name in the expressions of a list
/// of constants leads to the same constant of another list, or to none of either, a constant that both have has one value.
pub fn constants_need_named_ones()
    ensures { (one other : List Entry) (values more : List Const) → AreValues one values → AreValues other more → AllByRecursion (λ (e : Entry). AllByRecursion (EntriesAgree one other) e.2) one
        → (at : Place) → entry_at (place_name at) one ≡ entry_at (place_name at) other → value_at one values at ≡ value_at other more at }
{}

/// The query of a constant gives its value among all constants of the tree, which is read back as it.
pub fn constants_are_valued()
    ensures form { (setting text : List ℕ) (krate : Crate) (p : Placed) (values : List Const) (c : Const) → HasCrate text krate → HasItems krate → HasItem krate p → AreValues (constants_of krate) values
        → is_constant (definition p.item.body) ≡ true → value_at (constants_of krate) values (place_of p) ≡ Some c → denote (plan_of setting) text (query 4 (place_of p)) ≡ const_form c }
    ensures read { (c : Const) → FitsConst c → const_in (const_form c) ≡ Some c }
{
    texts_are_read();
    trees_are_tidy();
    items_parse_again();
}
