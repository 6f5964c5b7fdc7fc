ghost use Rattle.std.specs.Prelude.{◌≡◌, ℕ, List};
ghost use Rattle.rs_queries.specs.declared.compiled.Compiled.{Compiled};
ghost use Rattle.rs_queries.specs.Built.{IsCompiled};
ghost use Rattle.rs_queries.specs.Diagnosed.{IsDiagnosis};

use rs_reach::search_is_exact;
use rs_text::texts_are_read;

/// On every text there is exactly one answer: its diagnostics are there, and no other text is its diagnostics.
pub fn texts_have_one_diagnosis()
    ensures is { (bytes : List ℕ) → (out : List ℕ) × IsDiagnosis bytes out }
    ensures only { (bytes a b : List ℕ) → IsDiagnosis bytes a → IsDiagnosis bytes b → a ≡ b }
{
    texts_are_read();
    search_is_exact();
}

/// A compiler has exactly one answer on every text, whose diagnostics are those of the text.
pub fn texts_have_one_build()
    ensures is { (bytes : List ℕ) (level : ℕ) → (c : Compiled) × IsCompiled bytes level c }
    ensures only { (bytes : List ℕ) (level : ℕ) (c d : Compiled) → IsCompiled bytes level c → IsCompiled bytes level d → c ≡ d }
    ensures diagnosis { (bytes : List ℕ) (level : ℕ) (c : Compiled) → IsCompiled bytes level c → IsDiagnosis bytes c.diags }
{
    texts_are_read();
    search_is_exact();
}
