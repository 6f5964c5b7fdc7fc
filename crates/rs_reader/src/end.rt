//! The ends of a statement and of a text.

ghost use Rattle.rs_tree.specs.declared.kind.Kind.TheVariants as k;
ghost use Rattle.rs_tree.specs.declared.tree.Stmt.TheVariants as stmt;
ghost use Rattle.rs_grammar.specs.Grammar.{Tok};
ghost use Rattle.rs_reader.specs.Ends.{IsFinished};
ghost use Rattle.rs_reader.specs.Reading.{ReadingAs};

use crate::fault::Fault;
use crate::tokens::{Tokens, Whole};
use rs_grammar::SyntaxFault;
use rs_tree::{Expr, Kind, Stmt};

/// The statement of an expression whose value goes nowhere, which was read up to its `;`.
///
/// `Syntax` where no `;` comes next; nothing was taken then.
pub fn effect(value: Expr, tokens: &mut Tokens<'_>) -> Result<Stmt, Fault>
    ensures { ReadingAs (Tok k.Semicolon) (λ _. stmt.Eval value) tokens.old result tokens.new }
{
    if !tokens.sees(Kind::Semicolon) {
        drop(value);
        return Err(Fault::Syntax);
    }
    tokens.take(Kind::Semicolon);
    Ok(Stmt::Eval(value))
}

/// Whether a text ends here. `Syntax` at the next token where one is left.
pub fn finish(rest: &Whole<'_>) -> Result<(), SyntaxFault>
    ensures { IsFinished rest.now result }
{
    match rest.at() {
        Some(at) => Err(SyntaxFault::Syntax(at)),
        None => Ok(()),
    }
}
