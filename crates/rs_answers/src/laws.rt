//! Values are seen from their bytes, and read back from them.

ghost use Rattle.std.specs.Prelude.{◌≡◌, List, Option, Some};
ghost use Rattle.inc_wire.specs.Readings.{IsReadAs};
ghost use Rattle.rs_answers.specs.Answered.{AnswersAreAnswered, AnswersHaveOneAnswer};
ghost use Rattle.rs_answers.specs.Fits.{FitsConst, FitsDiags, FitsPlaces};
ghost use Rattle.rs_answers.specs.Forms.{const_form, diags_form, places_form};
ghost use Rattle.rs_tree.specs.declared.answers.Const.{Const};
ghost use Rattle.rs_tree.specs.declared.answers.Diag.{Diag};
ghost use Rattle.rs_tree.specs.declared.place.Place.{Place};

/// The bytes of two values of a type differ where the values do (docs/FORMATS.md, "Queries").
pub fn answers_differ()
    ensures constant { (a b : Const) → FitsConst a → FitsConst b → const_form a ≡ const_form b → a ≡ b }
    ensures diags { (a b : List Diag) → FitsDiags a → FitsDiags b → diags_form a ≡ diags_form b → a ≡ b }
    ensures places { (a b : List Place) → FitsPlaces a → FitsPlaces b → places_form a ≡ places_form b → a ≡ b }
{}

/// What is read of a value's bytes is that value: so by the writers' and the readers' contracts what was written is read back.
pub fn answers_are_read_back()
    ensures constant { (c : Const) (read : Option Const) → FitsConst c → IsReadAs FitsConst const_form (const_form c) read → read ≡ Some c }
    ensures diags { (ds : List Diag) (read : Option (List Diag)) → FitsDiags ds → IsReadAs FitsDiags diags_form (diags_form ds) read → read ≡ Some ds }
    ensures places { (ps : List Place) (read : Option (List Place)) → FitsPlaces ps → IsReadAs FitsPlaces places_form (places_form ps) read → read ≡ Some ps }
{}

/// Any bytes are read in one way as a constant's value, as diagnostics or as places, or as none: so what each reader answers is a
/// function of the bytes.
pub fn answers_are_answered()
    ensures there { AnswersAreAnswered }
    ensures one { AnswersHaveOneAnswer }
{}
