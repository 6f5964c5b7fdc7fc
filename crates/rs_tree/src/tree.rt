ghost use Rattle.std.proofs.Common.{rules};

use crate::place::At;
use crate::token::Token;
use inc_base::{Bytes, Copied, List};
use sqlite_items::{Boxed, Items};

/// A text, parsed: its modules and its items, in order of the text.
#[derive(Drop)]
pub struct Crate {
    pub modules: List<Bytes>,
    pub items: List<Placed>,
}

/// An item, with its module, which is empty for the root, and the place of its first token.
#[derive(Drop)]
pub struct Placed {
    pub module: Bytes,
    pub start: At,
    pub item: Item,
}

/// An item. The places in it are relative to its first token; `at` is that of its name.
#[derive(Drop)]
pub struct Item {
    pub public: bool,
    pub name: Bytes,
    pub at: At,
    pub tokens: List<Token>,
    pub body: Body,
}

/// What an item defines.
#[derive(Drop)]
pub enum Body {
    Const {
        typ: Typ,
        value: Expr,
    },
    Func {
        inline: bool,
        params: List<Param>,
        gives: Typ,
        stmts: Items<Stmt>,
        tail: Option<Expr>,
    },
}

/// A type. `Unit` is that of what has no value.
#[derive(Clone, Copy, Debug, PartialEq, Eq)]
pub enum Typ {
    Unit,
    Int,
    Bool,
}

impl Copied for Typ {
    ghost same = { Prim.search rules };
}

/// A parameter; `at` is the place of its name.
#[derive(Clone, Debug, Drop)]
pub struct Param {
    pub at: At,
    pub name: Bytes,
    pub typ: Typ,
}

impl Copied for Param {
    ghost same = { Prim.search rules };
}

/// A statement. The place of a `let` or an assignment is that of its name, the place of a `return` is
/// its first byte.
#[derive(Drop)]
pub enum Stmt {
    Let {
        mutable: bool,
        at: At,
        name: Bytes,
        typ: Option<Typ>,
        value: Expr,
    },
    Assign {
        at: At,
        name: Bytes,
        value: Expr,
    },
    Return {
        at: At,
        value: Option<Expr>,
    },
    Eval(Expr),
    While {
        cond: Expr,
        body: Items<Stmt>,
    },
    /// Each condition with its block, in order, and the block of the last `else`.
    If {
        arms: Items<(Expr, Items<Stmt>)>,
        other: Option<Items<Stmt>>,
    },
    Print(Expr),
}

/// A path; `rooted` where it begins with `crate`. Its place is its first byte.
#[derive(Clone, Debug, Drop)]
pub struct Path {
    pub at: At,
    pub rooted: bool,
    pub module: Option<Bytes>,
    pub name: Bytes,
}

impl Copied for Path {
    ghost same = { Prim.search rules };
}

/// An expression; its place is its first byte.
#[cycle(expr)]
#[derive(Drop)]
pub struct Expr {
    pub at: At,
    pub form: Form,
}

/// The forms of expressions. The list of an `Arith` isn't empty, and an `And` or `Or` has at least two
/// operands.
#[cycle(expr)]
#[derive(Drop)]
pub enum Form {
    Number(i64),
    Truth(bool),
    Path(Path),
    Call(Path, Items<Expr>),
    Group(Boxed<Expr>),
    Unary(UnaryOp, Boxed<Expr>),
    Arith(Boxed<Expr>, Items<(ArithOp, Expr)>),
    Compare(CmpOp, Boxed<Expr>, Boxed<Expr>),
    And(Items<Expr>),
    Or(Items<Expr>),
}

#[derive(Clone, Copy, Debug, PartialEq, Eq)]
pub enum UnaryOp {
    Negate,
    Not,
}

impl Copied for UnaryOp {
    ghost same = { Prim.search rules };
}

#[derive(Clone, Copy, Debug, PartialEq, Eq)]
pub enum ArithOp {
    Add,
    Sub,
    Mul,
    Div,
    Rem,
}

impl Copied for ArithOp {
    ghost same = { Prim.search rules };
}

#[derive(Clone, Copy, Debug, PartialEq, Eq)]
pub enum CmpOp {
    Equal,
    NotEqual,
    Less,
    Greater,
    AtMost,
    AtLeast,
}

impl Copied for CmpOp {
    ghost same = { Prim.search rules };
}
