//! What a token is, by its text.

ghost use Rattle.std.specs.Prelude.{◌≡◌, is_some};
ghost use Rattle.std.specs.Cmp.{partial_equiv_from_equiv};
ghost use Rattle.rs_tree.specs.Kinds.{kind_of};

use crate::keyword::keyword_of;
use crate::sign::sign_of;
use crate::word::{is_identifier, number_of};

/// What a token is, by its text (docs/LANGUAGE.md, "Tokens").
#[derive(Clone, Copy, Debug)]
pub enum Kind {
    /// An identifier that is no keyword.
    Name,
    Number,
    /// The string `"{}"`.
    Text,
    /// A keyword that nothing in the language uses.
    Reserved,
    Bool,
    Const,
    Crate,
    Else,
    False,
    Fn,
    Int,
    If,
    Inline,
    Let,
    Mod,
    Mut,
    Println,
    Pub,
    Return,
    True,
    While,
    LeftParen,
    RightParen,
    LeftBrace,
    RightBrace,
    LeftBracket,
    RightBracket,
    Hash,
    Semicolon,
    Comma,
    Colon,
    DoubleColon,
    Arrow,
    Assign,
    Equal,
    NotEqual,
    Less,
    Greater,
    AtMost,
    AtLeast,
    Plus,
    Minus,
    Star,
    Slash,
    Percent,
    Not,
    And,
    Or,
}

impl Kind {
    ghost use Rattle.rs_tree.specs.Kinds.{code};
    ghost use Rattle.rs_tree.specs.declared.kind.Kind.{Kind};

    /// The number of the kind; no two kinds have the same.
    pub fn code(self) -> u8
        ensures value { result ≡ code self }
        ensures distinct { (other : Kind) → code other ≡ result → other ≡ self }
    {
        self.tag()
    }

    #[tactic(auto, unfolding(crate::specs::Kinds::code))]
    fn tag(self) -> u8
        ensures { result ≡ code self }
    {
        self as u8
    }
}

impl PartialEq for Kind {
    ghost use Rattle.rs_tree.specs.Kinds.{same_kind, same_kind_equiv};

    ghost eq = { same_kind };

    ghost laws = { partial_equiv_from_equiv same_kind_equiv };

    fn eq(&self, other: &Kind) -> bool {
        self.code() == other.code()
    }
}

impl Eq for Kind {
    ghost use Rattle.rs_tree.specs.Kinds.{same_kind_equiv};

    ghost laws = { same_kind_equiv };
}

/// What a token is, by its text, or None for a text that is no token.
#[tactic(auto, unfolding(crate::specs::Kinds::kind_of))]
pub fn kind_of(text: &[u8]) -> Option<Kind>
    ensures { result ≡ kind_of text.now }
{
    if is_identifier(text) {
        return Some(keyword_of(text).unwrap_or(Kind::Name));
    }
    if number_of(text).is_some() {
        return Some(Kind::Number);
    }
    sign_of(text)
}

/// Whether the text is a token. It looks for no keyword, since an identifier is one anyway.
#[tactic(auto, unfolding(crate::specs::Kinds::kind_of))]
pub fn is_token(text: &[u8]) -> bool
    ensures { result ≡ is_some (kind_of text.now) }
{
    is_identifier(text) || number_of(text).is_some() || sign_of(text).is_some()
}
