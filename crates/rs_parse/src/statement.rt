//! Statements, and what stands in their braces.
//!
//! They call each other only where braces nest: lists of statements and chains of `else if` are loops.

ghost use Rattle.std.specs.Prelude.{◌≡◌, IfOk};
ghost use Rattle.rs_parse.specs.Blocks.{assignment, assigned, evaluation, evaluated};
ghost use Rattle.rs_grammar.specs.Lexeme.{Lexeme};
ghost use Rattle.rs_grammar.specs.Grammar.{Arm, Binding, Block, Choice, Loop, Nt, OtherArms, Printing, Rep, Returning, Statement, Worded, made};
ghost use Rattle.rs_reader.specs.Reading.{Reading, ReadingAs};

use crate::expression::expression;
use crate::optional::optional_expression;
use inc_base::Memory;
use rs_reader::{Fault, Lexeme, Tokens, all_of, effect, fitted, optional_token, optional_typing};
use rs_tree::{Expr, Kind, Stmt, Typ};
use sqlite_items::Items;
use std::alloc::{AllocError, Global};

fn bound(
    mutable: &Option<Lexeme<'_>>,
    name: &Lexeme<'_>,
    typ: Option<Typ>,
    value: Expr,
) -> Result<Stmt, Memory>
    ensures { IfOk result
        (λ s. (a b c : Lexeme) → s ≡ made Binding (a, (mutable.now, (name.now, (typ, (b, (value, c))))))) }
{
    Ok(Stmt::Let {
        mutable: mutable.is_some(),
        at: name.at(),
        name: name.text()?,
        typ,
        value,
    })
}

fn binding(alloc: Global, tokens: &mut Tokens<'_>) -> Result<Stmt, Fault>
    ensures { Reading (Nt Binding) tokens.old result tokens.new }
{
    tokens.expect(Kind::Let)?;
    let mutable = optional_token(tokens, Kind::Mut);
    let name = tokens.expect(Kind::Name)?;
    let typ = optional_typing(tokens)?;
    tokens.expect(Kind::Assign)?;
    let value = expression(alloc, tokens)?;
    tokens.expect(Kind::Semicolon)?;
    Ok(bound(&mutable, &name, typ, value)?)
}

fn returning(alloc: Global, tokens: &mut Tokens<'_>) -> Result<Stmt, Fault>
    ensures { Reading (Nt Returning) tokens.old result tokens.new }
{
    let word = tokens.expect(Kind::Return)?;
    let value = optional_expression(alloc, tokens)?;
    tokens.expect(Kind::Semicolon)?;
    Ok(Stmt::Return {
        at: word.at(),
        value,
    })
}

fn printing(alloc: Global, tokens: &mut Tokens<'_>) -> Result<Stmt, Fault>
    ensures { Reading (Nt Printing) tokens.old result tokens.new }
{
    tokens.expect(Kind::Println)?;
    tokens.expect(Kind::Not)?;
    tokens.expect(Kind::LeftParen)?;
    tokens.expect(Kind::Text)?;
    tokens.expect(Kind::Comma)?;
    let value = expression(alloc, tokens)?;
    tokens.expect(Kind::RightParen)?;
    tokens.expect(Kind::Semicolon)?;
    Ok(Stmt::Print(value))
}

fn stored(name: &Lexeme<'_>, value: Expr) -> Result<Stmt, Memory>
    ensures { IfOk result (λ s. (a b : Lexeme) → s ≡ assigned (name.now, (a, (value, b)))) }
{
    Ok(Stmt::Assign {
        at: name.at(),
        name: name.text()?,
        value,
    })
}

/// An assignment, whose name and `=` were seen.
pub(crate) fn assignment(alloc: Global, tokens: &mut Tokens<'_>) -> Result<Stmt, Fault>
    ensures { ReadingAs assignment assigned tokens.old result tokens.new }
{
    let name = tokens.expect(Kind::Name)?;
    tokens.expect(Kind::Assign)?;
    let value = expression(alloc, tokens)?;
    tokens.expect(Kind::Semicolon)?;
    Ok(stored(&name, value)?)
}

/// An expression for what it does, whose value goes nowhere.
fn evaluation(alloc: Global, tokens: &mut Tokens<'_>) -> Result<Stmt, Fault>
    ensures { ReadingAs evaluation evaluated tokens.old result tokens.new }
{
    let unused = expression(alloc, tokens)?;
    effect(unused, tokens)
}

/// A statement that begins with a word of its own.
#[cycle(statement)]
pub(crate) fn worded(alloc: Global, tokens: &mut Tokens<'_>) -> Result<Stmt, Fault>
    ensures { Reading (Nt Worded) tokens.old result tokens.new }
{
    if tokens.sees(Kind::Let) {
        return binding(alloc, tokens);
    }
    if tokens.sees(Kind::Return) {
        return returning(alloc, tokens);
    }
    if tokens.sees(Kind::While) {
        return repeated(alloc, tokens);
    }
    if tokens.sees(Kind::If) {
        return choice(alloc, tokens);
    }
    printing(alloc, tokens)
}

#[cycle(statement)]
fn statement(alloc: Global, tokens: &mut Tokens<'_>) -> Result<Stmt, Fault>
    ensures { Reading (Nt Statement) tokens.old result tokens.new }
{
    if tokens.sees_worded() {
        return worded(alloc, tokens);
    }
    if tokens.sees_assignment() {
        return assignment(alloc, tokens);
    }
    evaluation(alloc, tokens)
}

#[cycle(statement)]
fn statements(alloc: Global, tokens: &mut Tokens<'_>) -> Result<Items<Stmt>, Fault>
    ensures { Reading (Rep (Nt Statement)) tokens.old result tokens.new }
{
    let mut found = Items::new(alloc);
    'turns: while tokens.sees_statement() {
        found.push(statement(alloc, tokens)?)?;
    }
    Ok(found)
}

#[cycle(statement)]
fn block(alloc: Global, tokens: &mut Tokens<'_>) -> Result<Items<Stmt>, Fault>
    ensures { Reading (Nt Block) tokens.old result tokens.new }
{
    tokens.expect(Kind::LeftBrace)?;
    let found = statements(alloc, tokens)?;
    tokens.expect(Kind::RightBrace)?;
    Ok(fitted(alloc, found)?)
}

#[cycle(statement)]
fn repeated(alloc: Global, tokens: &mut Tokens<'_>) -> Result<Stmt, Fault>
    ensures { Reading (Nt Loop) tokens.old result tokens.new }
{
    tokens.expect(Kind::While)?;
    let cond = expression(alloc, tokens)?;
    let body = block(alloc, tokens)?;
    Ok(Stmt::While { cond, body })
}

#[cycle(statement)]
fn arm(alloc: Global, tokens: &mut Tokens<'_>) -> Result<(Expr, Items<Stmt>), Fault>
    ensures { Reading (Nt Arm) tokens.old result tokens.new }
{
    tokens.expect(Kind::If)?;
    let cond = expression(alloc, tokens)?;
    let body = block(alloc, tokens)?;
    Ok((cond, body))
}

/// The arms after the first, each with its condition, and the block of a last `else`.
type Others = (Items<(Expr, Items<Stmt>)>, Option<Items<Stmt>>);

#[cycle(statement)]
fn other_arms(alloc: Global, tokens: &mut Tokens<'_>) -> Result<Others, Fault>
    ensures { Reading (Nt OtherArms) tokens.old result tokens.new }
{
    let mut found = Items::new(alloc);
    'turns: while tokens.sees(Kind::Else) {
        tokens.take(Kind::Else);
        if !tokens.sees(Kind::If) {
            let last = block(alloc, tokens)?;
            return Ok((found, Some(last)));
        }
        found.push(arm(alloc, tokens)?)?;
    }
    Ok((found, None))
}

fn chosen(alloc: Global, first: (Expr, Items<Stmt>), others: Others) -> Result<Stmt, AllocError>
    ensures { IfOk result (λ s. s ≡ made Choice (first, others)) }
{
    let (more, other) = others;
    let arms = all_of(alloc, first, more)?;
    Ok(Stmt::If { arms, other })
}

#[cycle(statement)]
fn choice(alloc: Global, tokens: &mut Tokens<'_>) -> Result<Stmt, Fault>
    ensures { Reading (Nt Choice) tokens.old result tokens.new }
{
    let first = arm(alloc, tokens)?;
    let others = other_arms(alloc, tokens)?;
    Ok(chosen(alloc, first, others)?)
}
