//! The tokens that are left.

ghost use Rattle.std.specs.Prelude.{◌≡◌, ◌≤◌, true, length, drop, take, map, IfOk, Ok, unwrap_or};
ghost use Rattle.rs_grammar.specs.Lexeme.{lexeme, lexemes, moved, name_place, next_kind, next_place, second_kind, seen, token, token_kinds};
ghost use Rattle.rs_grammar.specs.Grammar.{Compared, Expression, Item, Literal, NameAssign, Nt, Part, ProductNext, PubConst, PubMod, Statement, SumNext, Tok, UnarySign, Use, Worded};
ghost use Rattle.rs_reader.specs.Reading.{Reading};
ghost use Rattle.rs_grammar.specs.Sets.{are_next, first, next_in, next_pair};

use crate::fault::Fault;
use crate::lexeme::{Lexeme, relative};
use inc_base::{Copied, List, MOST, Memory};
use rs_tree::{At, Kind, Token};
use std::alloc::Global;
use std::marker::Model;

/// What stands nowhere has no place.
const NOWHERE: At = At { line: 0, column: 0 };

/// The tokens that are left, as they stand in the text, with the kind of each.
#[derive(Drop)]
pub struct Whole<'a> {
    rest: &'a [Token],
    kinds: &'a [Kind],
}

impl<'a> Model for Whole<'a> {
    ghost use Rattle.std.specs.Prelude.{◌≡◌, List};
    ghost use Rattle.rs_grammar.specs.Lexeme.{Lexeme, lexemes, token_kinds};

    ghost Value = { List Lexeme };

    ghost view = { λ t. lexemes t.rest.now };

    ghost invariant = { λ t. t.kinds.now ≡ token_kinds t.rest.now };
}

impl<'a> Whole<'a> {
    /// Tokens with their kinds.
    pub fn new(rest: &'a [Token], kinds: &'a [Kind]) -> Whole<'a>
        requires { kinds.now ≡ token_kinds rest.now }
        ensures { result ≡ lexemes rest.now }
    {
        Whole { rest, kinds }
    }

    /// The same tokens.
    pub fn again(&self) -> Whole<'a>
        ensures { result ≡ self.now }
    {
        Whole {
            rest: self.rest,
            kinds: self.kinds,
        }
    }

    /// How many are left.
    pub fn len(&self) -> usize
        ensures { result ≡ length self.now }
    {
        self.rest.len()
    }

    /// What the next one is.
    pub fn next(&self) -> Option<Kind>
        ensures { result ≡ next_kind self.now }
    {
        match self.kinds {
            [kind, ..] => Some(*kind),
            [] => None,
        }
    }

    /// What the one after the next is.
    fn second(&self) -> Option<Kind>
        ensures { result ≡ second_kind self.now }
    {
        match self.kinds {
            [_, kind, ..] => Some(*kind),
            _ => None,
        }
    }

    /// Whether the next one is of this kind.
    pub fn sees(&self, kind: Kind) -> bool
        ensures { result ≡ next_in (first (Tok kind)) self.now }
    {
        match self.next() {
            Some(next) => next == kind,
            None => false,
        }
    }

    /// Takes the next one, which was seen.
    pub fn take(&mut self, kind: Kind) -> Lexeme<'a>
        requires { next_in (first (Tok kind)) self.old ≡ true }
        ensures { Reading (Tok kind) self.old (Ok result) self.new }
    {
        let (token, rest) = self.rest.split_first().unwrap();
        let (kind, kinds) = self.kinds.split_first().unwrap();
        self.rest = rest;
        self.kinds = kinds;
        Lexeme::new(token, *kind)
    }

    /// Takes one of this kind. `Syntax` where the next one is none or there is none; nothing was taken then.
    pub fn expect(&mut self, kind: Kind) -> Result<Lexeme<'a>, Fault>
        ensures { Reading (Tok kind) self.old result self.new }
    {
        if !self.sees(kind) {
            return Err(Fault::Syntax);
        }
        Ok(self.take(kind))
    }

    /// Whether an item may begin here.
    #[tactic(auto, unfolding(rs_tree::specs::Kinds::code))]
    pub fn sees_item(&self) -> bool
        ensures { result ≡ next_in (first (Nt Item)) self.now }
    {
        matches!(
            self.next(),
            Some(Kind::Const | Kind::Fn | Kind::Pub | Kind::Hash)
        )
    }

    /// Whether an item or a module may begin here.
    #[tactic(auto, unfolding(rs_tree::specs::Kinds::code))]
    pub fn sees_part(&self) -> bool
        ensures { result ≡ next_in (first (Nt Part)) self.now }
    {
        matches!(
            self.next(),
            Some(Kind::Const | Kind::Fn | Kind::Mod | Kind::Pub | Kind::Hash)
        )
    }

    fn sees_two(&self, one: Kind, two: Kind) -> bool
        ensures { result ≡ are_next one two self.now }
    {
        match (self.next(), self.second()) {
            (Some(first), Some(second)) => first == one && second == two,
            _ => false,
        }
    }

    /// Whether `pub mod` comes next.
    pub fn sees_pub_mod(&self) -> bool
        ensures { result ≡ next_pair PubMod self.now }
    {
        self.sees_two(Kind::Pub, Kind::Mod)
    }

    /// Where the next one begins.
    pub fn at(&self) -> Option<At>
        ensures { result ≡ next_place self.now }
    {
        match self.rest {
            [token, ..] => Some(token.at),
            [] => None,
        }
    }

    /// Where the fault is if nothing that is left can stand here: at the next one, or at `end` where none is left.
    pub fn fault_at(&self, end: At) -> At
        ensures { result ≡ unwrap_or (next_place self.now) end }
    {
        self.at().unwrap_or(end)
    }

    /// Leaves out the next `count`.
    pub fn skip(&mut self, count: usize)
        requires { count ≤ length self.old }
        ensures { self.new ≡ drop count self.old }
    {
        self.rest = &self.rest[count..];
        self.kinds = &self.kinds[count..];
    }
}

/// The tokens that are left, their places as they are seen from the first token of an item.
#[derive(Drop)]
pub struct Tokens<'a> {
    whole: Whole<'a>,
    base: At,
}

impl<'a> Model for Tokens<'a> {
    ghost use Rattle.std.specs.Prelude.{List};
    ghost use Rattle.rs_grammar.specs.Lexeme.{Lexeme, seen};

    ghost Value = { List Lexeme };

    ghost view = { λ t. seen t.base t.whole };
}

impl<'a> Tokens<'a> {
    /// The tokens that are left, as they are seen from `base`.
    pub fn new(whole: &Whole<'a>, base: At) -> Tokens<'a>
        ensures { result ≡ seen base whole.now }
    {
        Tokens {
            whole: whole.again(),
            base,
        }
    }

    /// How many are left.
    pub fn len(&self) -> usize
        ensures { result ≡ length self.now }
    {
        self.whole.len()
    }

    /// Whether the next one is of this kind.
    pub fn sees(&self, kind: Kind) -> bool
        ensures { result ≡ next_in (first (Tok kind)) self.now }
    {
        self.whole.sees(kind)
    }

    /// Takes the next one, which was seen.
    pub fn take(&mut self, kind: Kind) -> Lexeme<'a>
        requires { next_in (first (Tok kind)) self.old ≡ true }
        ensures { Reading (Tok kind) self.old (Ok result) self.new }
    {
        self.whole.take(kind).moved(self.base)
    }

    /// Takes one of this kind. `Syntax` where the next one is none or there is none; nothing was taken then.
    pub fn expect(&mut self, kind: Kind) -> Result<Lexeme<'a>, Fault>
        ensures { Reading (Tok kind) self.old result self.new }
    {
        if !self.sees(kind) {
            return Err(Fault::Syntax);
        }
        Ok(self.take(kind))
    }

    /// What the next one is.
    pub fn next(&self) -> Option<Kind>
        ensures { result ≡ next_kind self.now }
    {
        self.whole.next()
    }

    /// Whether an expression may begin here.
    #[tactic(auto, unfolding(rs_tree::specs::Kinds::code))]
    pub fn sees_expression(&self) -> bool
        ensures { result ≡ next_in (first (Nt Expression)) self.now }
    {
        matches!(
            self.next(),
            Some(
                Kind::Name
                    | Kind::Number
                    | Kind::Crate
                    | Kind::False
                    | Kind::True
                    | Kind::LeftParen
                    | Kind::Minus
                    | Kind::Not
            )
        )
    }

    /// Whether a comparison goes on here.
    #[tactic(auto, unfolding(rs_tree::specs::Kinds::code))]
    pub fn sees_comparison(&self) -> bool
        ensures { result ≡ next_in (first (Nt Compared)) self.now }
    {
        matches!(
            self.next(),
            Some(
                Kind::Equal
                    | Kind::NotEqual
                    | Kind::Less
                    | Kind::Greater
                    | Kind::AtMost
                    | Kind::AtLeast
            )
        )
    }

    /// Whether a sum goes on here.
    #[tactic(auto, unfolding(rs_tree::specs::Kinds::code))]
    pub fn sees_sum_sign(&self) -> bool
        ensures { result ≡ next_in (first (Nt SumNext)) self.now }
    {
        matches!(self.next(), Some(Kind::Plus | Kind::Minus))
    }

    /// Whether a product goes on here.
    #[tactic(auto, unfolding(rs_tree::specs::Kinds::code))]
    pub fn sees_product_sign(&self) -> bool
        ensures { result ≡ next_in (first (Nt ProductNext)) self.now }
    {
        matches!(self.next(), Some(Kind::Star | Kind::Slash | Kind::Percent))
    }

    /// Whether a sign of one operand is next.
    #[tactic(auto, unfolding(rs_tree::specs::Kinds::code))]
    pub fn sees_unary_sign(&self) -> bool
        ensures { result ≡ next_in (first (Nt UnarySign)) self.now }
    {
        matches!(self.next(), Some(Kind::Minus | Kind::Not))
    }

    /// Whether a number, `true` or `false` is next.
    #[tactic(auto, unfolding(rs_tree::specs::Kinds::code))]
    pub fn sees_literal(&self) -> bool
        ensures { result ≡ next_in (first (Nt Literal)) self.now }
    {
        matches!(self.next(), Some(Kind::Number | Kind::False | Kind::True))
    }

    /// Whether a path may begin here.
    #[tactic(auto, unfolding(rs_tree::specs::Kinds::code))]
    pub fn sees_path(&self) -> bool
        ensures { result ≡ next_in (first (Nt Use)) self.now }
    {
        matches!(self.next(), Some(Kind::Name | Kind::Crate))
    }

    /// Whether a statement may begin here.
    #[tactic(auto, unfolding(rs_tree::specs::Kinds::code))]
    pub fn sees_statement(&self) -> bool
        ensures { result ≡ next_in (first (Nt Statement)) self.now }
    {
        matches!(
            self.next(),
            Some(
                Kind::Name
                    | Kind::Number
                    | Kind::Crate
                    | Kind::False
                    | Kind::True
                    | Kind::LeftParen
                    | Kind::Minus
                    | Kind::Not
                    | Kind::If
                    | Kind::Let
                    | Kind::Println
                    | Kind::Return
                    | Kind::While
            )
        )
    }

    /// Whether a statement with a word of its own begins here.
    #[tactic(auto, unfolding(rs_tree::specs::Kinds::code))]
    pub fn sees_worded(&self) -> bool
        ensures { result ≡ next_in (first (Nt Worded)) self.now }
    {
        matches!(
            self.next(),
            Some(Kind::If | Kind::Let | Kind::Println | Kind::Return | Kind::While)
        )
    }

    fn sees_two(&self, one: Kind, two: Kind) -> bool
        ensures { result ≡ are_next one two self.now }
    {
        self.whole.sees_two(one, two)
    }

    /// Whether a name and `=` come next.
    pub fn sees_assignment(&self) -> bool
        ensures { result ≡ next_pair NameAssign self.now }
    {
        self.sees_two(Kind::Name, Kind::Assign)
    }

    /// Whether `pub const` comes next.
    pub fn sees_pub_const(&self) -> bool
        ensures { result ≡ next_pair PubConst self.now }
    {
        self.sees_two(Kind::Pub, Kind::Const)
    }
}

// What an item is made of beside its tree.
impl<'a> Whole<'a> {
    /// The next `count`.
    pub fn front(&self, count: usize) -> Whole<'a>
        requires { count ≤ length self.now }
        ensures { result ≡ take count self.now }
    {
        Whole {
            rest: &self.rest[..count],
            kinds: &self.kinds[..count],
        }
    }

    /// Copies, their places as they are seen from `base`. `Memory` where there is none for them.
    pub fn copies(&self, alloc: Global, base: At) -> Result<List<Token>, Memory>
        ensures { IfOk result (λ tokens. tokens ≡ map token (seen base self.now)) }
    {
        copies_of(alloc, self.rest, base)
    }

    /// The place of the first name.
    pub fn name_place(&self) -> At
        ensures { result ≡ name_place self.now }
    {
        first_name(self.rest, self.kinds)
    }
}

fn copies_of(alloc: Global, tokens: &[Token], base: At) -> Result<List<Token>, Memory>
    ensures { IfOk result (λ copies. copies ≡ map (λ t. token (moved base (lexeme t))) tokens.now) }
{
    if tokens.len() > MOST {
        return Err(Memory);
    }
    let mut copies = Vec::with_capacity(alloc, tokens.len())?;
    for from in tokens {
        copies.push(moved_token(from, base)?)?;
    }
    Ok(List::from_vec(copies))
}

fn first_name(tokens: &[Token], kinds: &[Kind]) -> At
    requires { kinds.now ≡ token_kinds tokens.now }
    ensures { result ≡ name_place (lexemes tokens.now) }
{
    for (i, kind) in kinds.iter().enumerate() {
        if *kind == Kind::Name {
            return tokens[i].at;
        }
    }
    NOWHERE
}

/// A copy, its place as it is seen from `base`.
fn moved_token(from: &Token, base: At) -> Result<Token, Memory>
    ensures { IfOk result (λ copy. copy ≡ token (moved base (lexeme from.now))) }
{
    Ok(Token {
        at: relative(base, from.at),
        text: from.text.copy()?,
    })
}
