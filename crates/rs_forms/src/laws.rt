//! Values are seen from their bytes, and read back from them.

ghost use Rattle.std.specs.Prelude.{◌≡◌, ◌≢◌, List, Option, Some};
ghost use Rattle.inc_wire.specs.Fits.{FitsList};
ghost use Rattle.inc_wire.specs.Forms.{list_form};
ghost use Rattle.inc_wire.specs.Readings.{IsReadAs};
ghost use Rattle.rs_forms.specs.Answered.{FormsAreAnswered, FormsHaveOneAnswer};
ghost use Rattle.rs_forms.specs.Fits.{FitsFault, FitsIndex, FitsIr, FitsSig, FitsToken};
ghost use Rattle.rs_forms.specs.Forms.{fault_form, index_form, ir_form, item_form, sig_form, token_form};
ghost use Rattle.rs_tree.specs.declared.index.Index.{Index};
ghost use Rattle.rs_tree.specs.declared.index.IndexFault.{IndexFault};
ghost use Rattle.rs_tree.specs.declared.index.Sig.{Sig};
ghost use Rattle.rs_tree.specs.declared.ir.Ir.{Ir};
ghost use Rattle.rs_tree.specs.declared.token.Token.{Token};
ghost use Rattle.rs_tree.specs.declared.tree.Item.{Item};

/// The bytes of two values of a type differ where the values do; those of two items where their tokens
/// do. No bytes are an index's and a fault's (docs/FORMATS.md, "Queries").
pub fn forms_differ()
    ensures item { (a b : Item) → FitsList FitsToken a.tokens → FitsList FitsToken b.tokens → item_form a ≡ item_form b → a.tokens ≡ b.tokens }
    ensures index { (a b : Index) → FitsIndex a → FitsIndex b → index_form a ≡ index_form b → a ≡ b }
    ensures fault { (a b : IndexFault) → FitsFault a → FitsFault b → fault_form a ≡ fault_form b → a ≡ b }
    ensures sig { (a b : Sig) → FitsSig a → FitsSig b → sig_form a ≡ sig_form b → a ≡ b }
    ensures ir { (a b : Ir) → FitsIr a → FitsIr b → ir_form a ≡ ir_form b → a ≡ b }
    ensures apart { (index : Index) (fault : IndexFault) → index_form index ≢ fault_form fault }
{}

/// What is read of a value's bytes is that value, of an item's bytes its tokens: so by the writers' and the
/// readers' contracts what was written is read back.
pub fn forms_are_read_back()
    ensures item { (item : Item) (read : Option (List Token)) → FitsList FitsToken item.tokens → IsReadAs (FitsList FitsToken) (list_form token_form) (item_form item) read → read ≡ Some item.tokens }
    ensures index { (index : Index) (read : Option Index) → FitsIndex index → IsReadAs FitsIndex index_form (index_form index) read → read ≡ Some index }
    ensures fault { (fault : IndexFault) (read : Option IndexFault) → FitsFault fault → IsReadAs FitsFault fault_form (fault_form fault) read → read ≡ Some fault }
    ensures sig { (sig : Sig) (read : Option Sig) → FitsSig sig → IsReadAs FitsSig sig_form (sig_form sig) read → read ≡ Some sig }
    ensures ir { (ir : Ir) (read : Option Ir) → FitsIr ir → IsReadAs FitsIr ir_form (ir_form ir) read → read ≡ Some ir }
{}

/// Any bytes are read in one way as an item's tokens, an index, a fault, a signature or an intermediate form, or as
/// none: so what each reader answers is a function of the bytes.
pub fn forms_are_answered()
    ensures there { FormsAreAnswered }
    ensures one { FormsHaveOneAnswer }
{}
