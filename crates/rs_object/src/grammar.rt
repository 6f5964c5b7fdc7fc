ghost use Rattle.std.specs.Prelude.{◌≡◌, ◌↔◌, [], ◌∷◌, take, drop, IsTrue};
ghost use Rattle.std.specs.Str.{bytes_eq};
ghost use Rattle.rs_object.specs.Grammar.{are_relocs, HasRelocs, InGrammar};

use crate::object::{Func, Object};
use inc_base::Bytes;

/// Whether an object is in the grammar: each of its functions' relocations ascend, are at least 4 apart, and
/// stand at four zero bytes of the code (docs/FORMATS.md, "Objects").
pub fn is_in_grammar(object: &Object) -> bool
    ensures { IsTrue result ↔ InGrammar object.now }
{
    object.funcs.as_slice().iter().all(has_relocs)
}

/// Whether the relocations of a function are in the grammar.
pub(crate) fn has_relocs(func: &Func) -> bool
    ensures { IsTrue result ↔ HasRelocs func.now }
{
    are_relocs(func.code.as_slice(), func.relocs.as_slice())
}

fn are_relocs(code: &[u8], relocs: &[(u32, Bytes)]) -> bool
    ensures { result ≡ are_relocs 0 code.now relocs.now }
{
    let mut from: usize = 0;
    for reloc in relocs {
        let at = reloc.0 as usize;
        if at < from || !has_zeros(code, at) {
            return false;
        }
        from = at + 4;
    }
    true
}

/// Whether four zero bytes stand there.
fn has_zeros(code: &[u8], at: usize) -> bool
    ensures { result ≡ bytes_eq (take 4 (drop at code.now)) (0 ∷ 0 ∷ 0 ∷ 0 ∷ []) }
{
    if code.len() < at {
        return false;
    }
    code[at..].starts_with(&[0, 0, 0, 0])
}
