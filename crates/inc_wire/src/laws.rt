ghost use Rattle.std.specs.Prelude.{◌≡◌, ◌≢◌, ◌++◌, ◌<◌, ◌^◌, ℕ, Bool, true, List, Option, Some, length};
ghost use Rattle.inc_wire.specs.declared.header.Header.{Header};
ghost use Rattle.inc_wire.specs.Forms.{IsHeader, number_form, text_form, header_form};
ghost use Rattle.inc_wire.specs.Narrow.{Both};
ghost use Rattle.inc_wire.specs.Readings.{BeginsWithNone, IsReadAs, IsTaken};

use crate::read::Read;

/// Numbers of one width, texts and headers are seen from the bytes that they begin, and with them what
/// follows. So different values have different bytes, and no header's bytes begin another header's.
pub fn forms_differ()
    ensures number { (width v w : ℕ) (r s : List ℕ) → v < 256 ^ width → w < 256 ^ width → number_form width v ++ r ≡ number_form width w ++ s → (v ≡ w) × (r ≡ s) }
    ensures text { (t u r s : List ℕ) → length t < 2 ^ 32 → length u < 2 ^ 32 → text_form t ++ r ≡ text_form u ++ s → (t ≡ u) × (r ≡ s) }
    ensures header { (h k : Header) (r s : List ℕ) → IsHeader h → IsHeader k → header_form h ++ r ≡ header_form k ++ s → (h ≡ k) × (r ≡ s) }
{}

/// What is read of a value's form is that value.
pub fn form_is_read_back<T: Read>()
    ensures { (value : T.Value) (read : Option T.Value) → T.fits value → IsReadAs T.fits T.form (T.form value) read → read ≡ Some value }
{}

/// A reader of which more is asked is exact too: what is taken and passes the test is what both fit; what is
/// taken and doesn't pass, or isn't taken, leaves no value that both fit.
pub fn narrowing_is_exact<T: Read>()
    ensures kept { (test : T.Value → Bool) (before after : List ℕ) (x : T.Value) → IsTaken T.fits T.form before after x → test x ≡ true → IsTaken (Both T.fits (λ y. test y ≡ true)) T.form before after x }
    ensures refused { (test : T.Value → Bool) (before after : List ℕ) (x : T.Value) → IsTaken T.fits T.form before after x → test x ≢ true → BeginsWithNone (Both T.fits (λ y. test y ≡ true)) T.form before }
    ensures none { (test : T.Value → Bool) (before : List ℕ) → BeginsWithNone T.fits T.form before → BeginsWithNone (Both T.fits (λ y. test y ≡ true)) T.form before }
{}
