//! A function, as a tree with two of its tokens.

use inc_base::{Bytes, List};
use rs_tree::{ArithOp, At, Body, Expr, Form, Item, Param, Path, Stmt, Token, Typ};
use sqlite_items::{Boxed, Items};
use std::test::Fail;

pub const FIRST: At = At { line: 0, column: 0 };

pub const LATER: At = At {
    line: 1,
    column: 258,
};

fn number(value: i64) -> Expr {
    Expr {
        at: LATER,
        form: Form::Number(value),
    }
}

/// `x + 2` as a statement.
fn sum(rt: &HostRuntime) -> Result<Stmt, Fail> {
    let name = Path {
        at: FIRST,
        rooted: false,
        module: None,
        name: Bytes::of(rt.alloc(), b"x")?,
    };
    let first = Expr {
        at: FIRST,
        form: Form::Path(name),
    };
    let mut more = Items::new(rt.alloc());
    more.push((ArithOp::Add, number(2)))?;
    let form = Form::Arith(Boxed::new(rt.alloc(), first)?, more);
    Ok(Stmt::Eval(Expr { at: FIRST, form }))
}

/// `fn f(x: i64) { x + 2; }`, with two of its tokens.
pub fn function(rt: &HostRuntime) -> Result<Item, Fail> {
    let mut tokens = List::new(rt.alloc());
    for (at, text) in [(FIRST, b"fn".as_slice()), (LATER, b"f".as_slice())] {
        let text = Bytes::of(rt.alloc(), text)?;
        tokens.push(Token { at, text })?;
    }
    let mut params = List::new(rt.alloc());
    params.push(Param {
        at: FIRST,
        name: Bytes::of(rt.alloc(), b"x")?,
        typ: Typ::Int,
    })?;
    let mut stmts = Items::new(rt.alloc());
    stmts.push(sum(rt)?)?;
    Ok(Item {
        public: true,
        name: Bytes::of(rt.alloc(), b"f")?,
        at: LATER,
        tokens,
        body: Body::Func {
            inline: false,
            params,
            gives: Typ::Unit,
            stmts,
            tail: None,
        },
    })
}
