//! What the definitions of a parse say together.

ghost use Rattle.std.specs.Prelude.{◌≡◌, ◌⊎◌, List};
ghost use Rattle.rs_tree.specs.declared.place.At.{At};
ghost use Rattle.rs_tree.specs.declared.token.Token.{Token};
ghost use Rattle.rs_tree.specs.declared.tree.Crate.{Crate};
ghost use Rattle.rs_grammar.specs.declared.fault.SyntaxFault.{SyntaxFault};
ghost use Rattle.rs_grammar.specs.declared.fault.SyntaxFault.TheVariants.{Memory};
ghost use Rattle.rs_grammar.specs.Again.{ItemsFollow, ItemsParseAgain};
ghost use Rattle.rs_grammar.specs.Correct.{HasTree, IsSyntaxRefusal};
ghost use Rattle.rs_grammar.specs.Lexed.{PlacesTurn};
ghost use Rattle.rs_grammar.specs.Places.{ExpressionsBegin, NamesTwiceStand};
ghost use Rattle.rs_grammar.specs.Tidy.{NamesArePlain, TreesAreTidy};
ghost use Rattle.rs_grammar.specs.There.{AnswersAreThere};
ghost use Rattle.rs_grammar.specs.Written.{FormsAgree, TextsAgree};

/// The grammar that docs/LANGUAGE.md writes and the one that is factored for the code say the same: of each named
/// form, what matches it, with its tree, and what is a front of it; and of a whole text, as its tokens, its tree
/// and its first fault.
pub fn grammars_agree()
    ensures forms { FormsAgree }
    ensures texts { TextsAgree }
{}

/// Tokens have one tree or one first fault, and not both.
pub fn answers_are_one()
    ensures tree { (tokens : List Token) (a b : Crate) → HasTree tokens a → HasTree tokens b → a ≡ b }
    ensures faultless { (tokens : List Token) (end : At) (tree : Crate) (fault : SyntaxFault) → HasTree tokens tree → IsSyntaxRefusal tokens end fault → fault ≡ Memory }
    ensures fault { (tokens : List Token) (end : At) (a b : SyntaxFault) → IsSyntaxRefusal tokens end a → IsSyntaxRefusal tokens end b → (a ≡ b) ⊎ (a ≡ Memory) ⊎ (b ≡ Memory) }
{}

/// Each list of tokens has a tree or a fault.
pub fn answers_are_there()
    ensures { AnswersAreThere }
{}

/// The tokens of an item, with their places as its tree has them, have that item alone as their tree; and an item
/// follows from its tokens.
pub fn items_parse_again()
    ensures again { ItemsParseAgain }
    ensures follow { ItemsFollow }
{}

/// Trees are tidy: modules are distinct, and so are the items of each module; an item stands in the root or in a
/// module that is listed; and what is named has a name of the language, which is a name of 1 to 64 letters,
/// digits and `_`, and not `crate`.
pub fn trees_are_tidy()
    ensures tidy { TreesAreTidy }
    ensures names { NamesArePlain }
{}

/// A place in an item and its place in the text are found from each other, and have the same order.
pub fn places_turn()
    ensures { PlacesTurn }
{}

/// Where parts of a tree stand: an expression at its first token, and a name that is defined twice at the `at` of
/// its item, as it is seen from the item's first token.
pub fn parts_stand()
    ensures expressions { ExpressionsBegin }
    ensures names { NamesTwiceStand }
{}
