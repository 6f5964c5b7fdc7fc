//! Paths.

ghost use Rattle.rs_grammar.specs.Grammar.{Member, Nt, Opt, Route};
ghost use Rattle.rs_reader.specs.Reading.{Reading};

use crate::fault::Fault;
use crate::forms::{plain_path, rooted_path};
use crate::tokens::Tokens;
use inc_base::Bytes;
use rs_tree::{Kind, Path};

/// `::` and a name.
fn member(tokens: &mut Tokens<'_>) -> Result<Bytes, Fault>
    ensures { Reading (Nt Member) tokens.old result tokens.new }
{
    tokens.expect(Kind::DoubleColon)?;
    let name = tokens.expect(Kind::Name)?;
    let text = name.text()?;
    Ok(text)
}

fn other_member(tokens: &mut Tokens<'_>) -> Result<Option<Bytes>, Fault>
    ensures { Reading (Opt (Nt Member)) tokens.old result tokens.new }
{
    if !tokens.sees(Kind::DoubleColon) {
        return Ok(None);
    }
    let name = member(tokens)?;
    Ok(Some(name))
}

/// A path: a name, a module's and another, each perhaps after `crate`. `Syntax` at the first token that can't stand
/// there, which isn't taken; `Memory` for want of memory.
pub fn route(tokens: &mut Tokens<'_>) -> Result<Path, Fault>
    ensures { Reading (Nt Route) tokens.old result tokens.new }
{
    if tokens.sees(Kind::Name) {
        let first = tokens.take(Kind::Name);
        let other = other_member(tokens)?;
        let path = plain_path(&first, other)?;
        return Ok(path);
    }
    let root = tokens.expect(Kind::Crate)?;
    let first = member(tokens)?;
    let other = other_member(tokens)?;
    let path = rooted_path(&root, first, other);
    Ok(path)
}
