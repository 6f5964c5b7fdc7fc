//! What the objects of a text without errors are.

ghost use Rattle.std.specs.Prelude.{◌≡◌, ℕ, true, is_some, List, map, Some};
ghost use Rattle.std.specs.List.{All, IsDistinct};
ghost use Rattle.std.specs.Str.{bytes_eq};
ghost use Rattle.inc_base.specs.Texts.{IsName};
ghost use Rattle.rs_lines.specs.declared.line.Line.{Line};
ghost use Rattle.rs_queries.specs.declared.compiled.Built.{Built};
ghost use Rattle.rs_queries.specs.declared.compiled.CleanBuild.{CleanBuild};
ghost use Rattle.rs_queries.specs.declared.compiled.Compiled.{Compiled};
ghost use Rattle.rs_queries.specs.Built.{IsClean, IsCompiled};
ghost use Rattle.link_laws.specs.Told.{AreLines, Tells};

use rs_grammar::trees_are_tidy;
use rs_queries::{texts_have_one_build, texts_have_one_diagnosis};
use rs_reach::search_is_exact;
use rs_text::texts_are_read;
use rs_units::members_are_reached;

/// The units that are built of a text have names of 1 to 64 letters, digits and `_`, and no two the same: the root's is `crate`,
/// which no module is called.
pub fn units_have_names()
    ensures names { (bytes : List ℕ) (level : ℕ) (c : Compiled) (b : Built) → IsCompiled bytes level c → c.built ≡ Some b → All (λ (o : List ℕ × List ℕ). IsName o.0) b.objects }
    ensures differ { (bytes : List ℕ) (level : ℕ) (c : Compiled) (b : Built) → IsCompiled bytes level c → c.built ≡ Some b → IsDistinct bytes_eq (map (λ (o : List ℕ × List ℕ). o.0) b.objects) }
{
    texts_are_read();
    trees_are_tidy();
}

/// The objects of a text without an error link: no symbol is there twice, each that a relocation names is there, and so is `main`.
/// So a clean build has an image exactly where no line of its text is an error's. Each text has such lines, and its clean build
/// prints them.
pub fn objects_link()
    ensures image { (bytes : List ℕ) (level : ℕ) (c : Compiled) (b : Built) → IsCompiled bytes level c → c.built ≡ Some b → is_some b.image ≡ true }
    ensures clean { (bytes : List ℕ) (level : ℕ) (b : CleanBuild) (ls : List Line) → IsClean bytes level b → AreLines bytes ls → Tells b ls }
    ensures lines { (bytes : List ℕ) → (ls : List Line) × AreLines bytes ls }
{
    texts_are_read();
    trees_are_tidy();
    search_is_exact();
    members_are_reached();
    texts_have_one_build();
    texts_have_one_diagnosis();
}
