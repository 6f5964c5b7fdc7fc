//! A token with its kind.

ghost use Rattle.std.specs.Prelude.{◌≡◌, IfOk, pos};
ghost use Rattle.rs_tree.specs.Words.{value_of};
ghost use Rattle.rs_tree.specs.declared.kind.Kind.TheVariants as k;
ghost use Rattle.rs_grammar.specs.Lexeme.{moved, relative, token_kinds, kind_of_text};

use inc_base::{Bytes, Copied, Memory};
use rs_tree::{At, Kind, Token, kind_of, number_of};
use std::alloc::{AllocError, Global};
use std::marker::Model;

/// A token with its kind. What is no token has the kind of a word that no form has.
#[derive(Drop)]
pub struct Lexeme<'a> {
    kind: Kind,
    at: At,
    text: &'a Bytes,
}

impl<'a> Model for Lexeme<'a> {
    ghost use Rattle.std.specs.Prelude.{◌≡◌};
    ghost use Rattle.rs_grammar.specs.Lexeme.{Lexeme, kind_of_text};

    ghost Value = { Lexeme };

    ghost view = { λ l. record { kind = l.kind; at = l.at; text = l.text.now } };

    ghost invariant = { λ l. l.kind ≡ kind_of_text l.text.now };
}

/// A place as it is seen from another.
pub(crate) fn relative(base: At, at: At) -> At
    ensures { result ≡ relative base at }
{
    let column = if at.line == base.line {
        at.column.saturating_sub(base.column)
    } else {
        at.column
    };
    At {
        line: at.line.saturating_sub(base.line),
        column,
    }
}

impl<'a> Lexeme<'a> {
    /// A token and what it is.
    pub(crate) fn new(token: &'a Token, kind: Kind) -> Lexeme<'a>
        requires { kind ≡ kind_of_text token.now.text }
        ensures { result ≡ record { kind = kind; at = token.now.at; text = token.now.text } }
    {
        Lexeme {
            kind,
            at: token.at,
            text: &token.text,
        }
    }

    /// Where it begins.
    pub fn at(&self) -> At
        ensures { result ≡ self.now.at }
    {
        self.at
    }

    /// A copy of its text. `Memory` where there is none for it.
    pub fn text(&self) -> Result<Bytes, Memory>
        ensures { IfOk result (λ text. text ≡ self.now.text) }
    {
        self.text.copy()
    }

    /// The value of a number, which is at most 2^63 - 1 (docs/LANGUAGE.md, "Tokens").
    pub fn value(&self) -> i64
        requires { self.now.kind ≡ k.Number }
        ensures { result ≡ pos (value_of self.now.text) }
    {
        number_of(self.text.as_slice()).unwrap() as i64
    }

    /// The same, its place as it is seen from `base`.
    pub(crate) fn moved(&self, base: At) -> Lexeme<'a>
        ensures { result ≡ moved base self.now }
    {
        Lexeme {
            kind: self.kind,
            at: relative(base, self.at),
            text: self.text,
        }
    }
}

/// What each token is, in order. An error where there is no memory for the list.
pub fn kinds_of(alloc: Global, tokens: &[Token]) -> Result<Vec<Kind>, AllocError>
    ensures { IfOk result (λ kinds. kinds.items ≡ token_kinds tokens.now) }
{
    let mut kinds = Vec::with_capacity(alloc, tokens.len())?;
    for token in tokens {
        kinds.push(kind_of(token.text.as_slice()).unwrap_or(Kind::Reserved))?;
    }
    Ok(kinds)
}
