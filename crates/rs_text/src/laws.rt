//! What the definitions of a text say together.

ghost use Rattle.rs_text.specs.Laws.{LexedIs, ParsedIs, TextIs, TokensAreLexed, TokensFit};

/// What a text is lexed as, what tokens are parsed as and what a text is read as are functions: each has its
/// answer, and no other answer is one.
pub fn texts_are_read()
    ensures lexed { LexedIs }
    ensures parsed { ParsedIs }
    ensures text { TextIs }
{}

/// The tokens of a text can be parsed: the text of each is a token, their places ascend, and the text's end
/// comes after them.
pub fn lexed_tokens_are_lexed()
    ensures { TokensAreLexed }
{}

/// Tokens that are in the ranges of their types, as `lex` says of those that it gives, have byte forms: so what
/// is written of them is read back as them.
pub fn lexed_tokens_fit()
    ensures { TokensFit }
{}
