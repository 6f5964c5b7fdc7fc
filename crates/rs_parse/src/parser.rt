//! The parse of a whole text.

ghost use Rattle.std.specs.Prelude.{◌≡◌, IfOk, IfErr};
ghost use Rattle.rs_grammar.specs.Lexeme.{lexemes, token_kinds};
ghost use Rattle.rs_grammar.specs.Nesting.{IsShallow};
ghost use Rattle.rs_grammar.specs.Correct.{HasTree, IsSyntaxRefusal};
ghost use Rattle.rs_parse.specs.Whole.{HasSections};

use crate::part::{Building, parts};
use rs_grammar::SyntaxFault;
use rs_reader::{Fault, Whole, check_names, finish, first_too_deep, kinds_of};
use rs_tree::{At, Crate, Kind, Token};
use std::alloc::Global;

/// The tree that fits the tokens of a text, or the text's first fault (docs/LANGUAGE.md, "Grammar" and
/// "Faults"). `end` is the place after the text's last byte.
///
/// The faults come in this order: nesting over 64, then syntax, then a name defined twice, each at its first
/// place. What is no token counts as a keyword that no form has. `Memory` comes for want of memory. The
/// places of an item are relative to its first token, as far as the tokens' places ascend.
pub fn parse(alloc: Global, tokens: &[Token], end: At) -> Result<Crate, SyntaxFault>
    ensures tree { IfOk result (HasTree tokens.now) }
    ensures fault { IfErr result (IsSyntaxRefusal tokens.now end) }
{
    let kinds = kinds_of(alloc, tokens)?;
    if let Some(at) = first_too_deep(tokens, &kinds) {
        return Err(SyntaxFault::Nesting(at));
    }
    let found = read_all(alloc, tokens, &kinds, end)?;
    check_names(alloc, found.names.as_slice())?;
    let Building { modules, items, .. } = found;
    Ok(Crate { modules, items })
}

/// What stands in the whole text.
fn read_all(
    alloc: Global,
    tokens: &[Token],
    kinds: &[Kind],
    end: At,
) -> Result<Building, SyntaxFault>
    requires kinds { kinds.now ≡ token_kinds tokens.now }
    requires shallow { IsShallow (lexemes tokens.now) }
    ensures found { IfOk result (HasSections tokens.now) }
    ensures fault { IfErr result (IsSyntaxRefusal tokens.now end) }
{
    let mut found = Building::new(alloc);
    let mut rest = Whole::new(tokens, kinds);
    match parts(alloc, &mut rest, &mut found) {
        Ok(()) => {}
        Err(Fault::Memory) => return Err(SyntaxFault::Memory),
        Err(Fault::Syntax) => return Err(SyntaxFault::Syntax(rest.fault_at(end))),
    }
    match finish(&rest) {
        Ok(()) => Ok(found),
        Err(fault) => {
            drop(found);
            Err(fault)
        }
    }
}
