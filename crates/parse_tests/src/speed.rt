//! Long texts: each takes less than a moment, and no stack overflows.

use crate::answer::tree_of;
use crate::text::text_of;
use rs_tree::{Body, Crate, Expr, Form, Stmt};
use std::test::Fail;

/// The first statement of the first function.
fn first_statement(tree: &Crate) -> Option<&Stmt> {
    let placed = tree.items.as_slice().first()?;
    match &placed.item.body {
        Body::Func { stmts, .. } => stmts.as_slice().first(),
        Body::Const { .. } => None,
    }
}

fn operands(of: &Form) -> usize {
    match of {
        Form::Arith(_, more) => more.len(),
        Form::And(parts) => parts.len(),
        Form::Or(parts) => parts.len(),
        Form::Call(_, args) => args.len(),
        _ => 0,
    }
}

/// How many arms a chain of `else if` has, or operands or arguments an expression.
fn parts(of: &Stmt) -> usize {
    match of {
        Stmt::If { arms, .. } => arms.len(),
        Stmt::Eval(Expr { form, .. }) => operands(form),
        Stmt::While { body, .. } => body.len(),
        _ => 0,
    }
}

#[test]
fn long_chains_are_parsed(rt: HostRuntime) -> Result<(), Fail> {
    let texts = [
        ("if a {}", " else if a {}", 40_000, " else {}", 40_001),
        ("1", " + 1", 100_000, ";", 100_000),
        ("1", " * 1", 100_000, ";", 100_000),
        ("a", " && a", 100_000, ";", 100_001),
        ("a", " || a", 100_000, ";", 100_001),
        ("f(1", ", 1", 100_000, ");", 100_001),
        ("while a {", " x = 1;", 100_000, "}", 100_000),
    ];
    for (head, piece, times, tail, expected) in texts {
        let text = text_of(
            rt.alloc(),
            &[
                ("fn main() { ", 1),
                (head, 1),
                (piece, times),
                (tail, 1),
                (" }", 1),
            ],
        )?;
        match tree_of(rt.alloc(), &text) {
            Ok(tree) => {
                let found = first_statement(&tree).map(parts);
                assert_eq!(rt; found, Some(expected), "{piece:?}");
            }
            Err(fault) => panic!(rt; "{piece:?}: {fault:?}"),
        }
    }
    Ok(())
}
