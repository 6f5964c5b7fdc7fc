//! What the definitions of the lexer say together.

ghost use Rattle.rs_lex.specs.Answered.{OneAnswer, TextsAreAnswered};

/// Each text has tokens or a first fault, and one of these alone.
pub fn texts_are_answered()
    ensures there { TextsAreAnswered }
    ensures one { OneAnswer }
{}
