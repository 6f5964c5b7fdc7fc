//! A text: its modules and items.

ghost use Rattle.std.specs.Prelude.{◌≡◌, [], IfOk, OnOk};
ghost use Rattle.rs_grammar.specs.Lexeme.{start_of};
ghost use Rattle.rs_grammar.specs.Grammar as rule;
ghost use Rattle.rs_grammar.specs.Grammar.{Contents, Nt, Part, Rep, made};
ghost use Rattle.rs_reader.specs.Reading.{Reading};
ghost use Rattle.rs_parse.specs.Building.{Adding, with_item, with_items, with_name, with_section, with_sections};

use crate::item::definition;
use inc_base::{Bytes, Copied, List, Memory};
use rs_grammar::{Named, Sited};
use rs_reader::{Fault, Tokens, Whole};
use rs_tree::{At, Item, Kind, Placed};
use std::alloc::Global;

/// A crate that grows while its text is read, with the names that the text defines, in its order.
#[derive(Drop)]
pub(crate) struct Building {
    pub modules: List<Bytes>,
    pub items: List<Placed>,
    pub names: List<Named>,
}

impl Building {
    /// Nothing yet.
    pub fn new(alloc: Global) -> Building
        ensures { result ≡ record { modules = []; items = []; names = [] } }
    {
        Building {
            modules: List::new(alloc),
            items: List::new(alloc),
            names: List::new(alloc),
        }
    }

    /// Adds an item of the module of this name.
    fn add_item(&mut self, name: &Bytes, sited: Sited) -> Result<(), Memory>
        ensures { OnOk result (self.new ≡ with_item name.now self.old sited) }
    {
        self.names.push(Named {
            at: sited.at,
            module: Some(name.copy()?),
            name: sited.placed.item.name.copy()?,
        })?;
        self.items.push(Placed {
            module: name.copy()?,
            ..sited.placed
        })
    }

    /// Adds a module, without its items.
    fn add_module(&mut self, at: At, name: &Bytes) -> Result<(), Memory>
        ensures { OnOk result (self.new ≡ with_name self.old at name.now) }
    {
        self.names.push(Named {
            at,
            module: None,
            name: name.copy()?,
        })?;
        self.modules.push(name.copy()?)
    }
}

/// An item. Its places are relative to its first token.
fn item(alloc: Global, tokens: &mut Whole<'_>) -> Result<Sited, Fault>
    ensures { Reading (Nt rule.Item) tokens.old result tokens.new }
{
    let Some(start) = tokens.at() else {
        return Err(Fault::Syntax);
    };
    let mut inner = Tokens::new(tokens, start);
    let read = definition(alloc, &mut inner);
    let count = tokens.len().saturating_sub(inner.len());
    let front = tokens.front(count);
    tokens.skip(count);
    Ok(whole_item(alloc, &front, start, read?)?)
}

/// The item that these tokens are.
fn whole_item(alloc: Global, front: &Whole<'_>, start: At, item: Item) -> Result<Sited, Memory>
    requires { start ≡ start_of front.now }
    ensures { IfOk result (λ s. s ≡ made rule.Item (front.now, item)) }
{
    let tokens = front.copies(alloc, start)?;
    Ok(Sited {
        at: front.name_place(),
        placed: Placed {
            module: Bytes::new(alloc),
            start,
            item: Item { tokens, ..item },
        },
    })
}

/// The items of a module.
fn items(
    alloc: Global,
    tokens: &mut Whole<'_>,
    name: &Bytes,
    into: &mut Building,
) -> Result<(), Fault>
    ensures { Adding (Rep (Nt rule.Item)) (with_items name.now) tokens.old result tokens.new into.old into.new }
{
    'turns: while tokens.sees_item() {
        let sited = item(alloc, tokens)?;
        into.add_item(name, sited)?;
    }
    Ok(())
}

/// A module, from its name on.
fn contents(alloc: Global, tokens: &mut Whole<'_>, into: &mut Building) -> Result<(), Fault>
    ensures { Adding (Nt Contents) with_section tokens.old result tokens.new into.old into.new }
{
    let name = tokens.expect(Kind::Name)?;
    tokens.expect(Kind::LeftBrace)?;
    let module = name.text()?;
    into.add_module(name.at(), &module)?;
    items(alloc, tokens, &module, into)?;
    tokens.expect(Kind::RightBrace)?;
    Ok(())
}

/// A module, or an item of the root.
fn part(alloc: Global, tokens: &mut Whole<'_>, into: &mut Building) -> Result<(), Fault>
    ensures { Adding (Nt Part) with_section tokens.old result tokens.new into.old into.new }
{
    if tokens.sees_pub_mod() {
        tokens.expect(Kind::Pub)?;
        tokens.expect(Kind::Mod)?;
        return contents(alloc, tokens, into);
    }
    if tokens.sees(Kind::Mod) {
        tokens.take(Kind::Mod);
        return contents(alloc, tokens, into);
    }
    let sited = item(alloc, tokens)?;
    into.add_item(&Bytes::new(alloc), sited)?;
    Ok(())
}

/// Adds the modules and items of a text, up to a token that begins neither.
pub(crate) fn parts(alloc: Global, tokens: &mut Whole<'_>, into: &mut Building) -> Result<(), Fault>
    ensures { Adding (Rep (Nt Part)) with_sections tokens.old result tokens.new into.old into.new }
{
    'turns: while tokens.sees_part() {
        part(alloc, tokens, into)?;
    }
    Ok(())
}
