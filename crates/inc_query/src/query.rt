ghost use Rattle.std.specs.Prelude.{◌≡◌, ◌≤◌, ◌↔◌, IsTrue};
ghost use Rattle.std.proofs.Common.{rules};
ghost use Rattle.inc_base.specs.Texts.{IsName, is_name_byte};
ghost use Rattle.inc_query.specs.Queries.{IsNameOrNone, IsModule, IsQuery};

use inc_base::{Bytes, Copied};

/// How many kinds of queries a graph can hold.
pub const KINDS: u8 = 11;

/// The kind of a unit's object, whose queries have no name.
pub const OBJECT: u8 = 10;

/// What is asked of a text: a kind, and what it is asked about, a module, which is empty for the root, and a
/// name. Queries are ordered by kind, module and name, texts by their bytes (docs/FORMATS.md, "Queries").
#[derive(Clone, Debug, Drop, PartialEq, Eq, PartialOrd, Ord)]
pub struct Query {
    pub kind: u8,
    pub module: Bytes,
    pub name: Bytes,
}

impl Copied for Query {
    ghost same = { Prim.search rules };
}

impl Query {
    /// Whether it has the form that a query of a graph has: a kind from 0 to 10, a module that is empty or a name
    /// other than `crate`, and a name that is empty or a name, and is empty at kind 10.
    pub fn fits(&self) -> bool
        ensures { IsTrue result ↔ IsQuery self.now }
    {
        self.kind < KINDS
            && is_module(self.module.as_slice())
            && is_name_or_none(self.name.as_slice())
            && (self.kind != OBJECT || self.name.is_empty())
    }
}

fn is_module(text: &[u8]) -> bool
    ensures { IsTrue result ↔ IsModule text.now }
{
    is_name_or_none(text) && text != b"crate".as_slice()
}

fn is_name_or_none(text: &[u8]) -> bool
    ensures { IsTrue result ↔ IsNameOrNone text.now }
{
    text.is_empty() || is_name(text)
}

fn is_name(text: &[u8]) -> bool
    ensures { IsTrue result ↔ IsName text.now }
{
    !text.is_empty() && text.len() <= 64 && text.iter().all(|byte| is_name_byte(*byte))
}

fn is_name_byte(byte: u8) -> bool
    ensures { result ≡ is_name_byte byte }
{
    byte.is_ascii_alphanumeric() || byte == b'_'
}
