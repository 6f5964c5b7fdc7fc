//! Copies of trees. What holds no list has no allocator of its own, so it is passed one.

ghost use Rattle.std.specs.Prelude.{◌≡◌, IfOk};

use crate::tree::{ArithOp, Body, Crate, Expr, Form, Item, Placed, Stmt};
use inc_base::{Copied, Memory};
use sqlite_items::{Boxed, Items};
use std::alloc::{AllocError, Global};

impl Expr {
    /// A copy, which equals what it copies. `Memory` where there is none for it.
    #[cycle(expressions)]
    pub fn copy(&self, alloc: Global) -> Result<Expr, Memory>
        ensures { IfOk result (λ it. it ≡ self.now) }
    {
        let form = self.form.copy(alloc)?;
        Ok(Expr { at: self.at, form })
    }
}

impl Form {
    /// A copy, which equals what it copies. `Memory` where there is none for it.
    #[cycle(expressions)]
    pub fn copy(&self, alloc: Global) -> Result<Form, Memory>
        ensures { IfOk result (λ it. it ≡ self.now) }
    {
        match self {
            Form::Number(value) => Ok(Form::Number(*value)),
            Form::Truth(value) => Ok(Form::Truth(*value)),
            Form::Path(path) => Ok(Form::Path(path.copy()?)),
            Form::Call(path, args) => {
                let args = expressions(alloc, args.as_slice())?;
                Ok(Form::Call(path.copy()?, args))
            }
            Form::Group(inner) => Ok(Form::Group(boxed(alloc, inner.get())?)),
            Form::Unary(op, inner) => Ok(Form::Unary(*op, boxed(alloc, inner.get())?)),
            Form::Arith(first, more) => {
                let first = boxed(alloc, first.get())?;
                Ok(Form::Arith(first, operations(alloc, more.as_slice())?))
            }
            Form::Compare(op, left, right) => {
                let left = boxed(alloc, left.get())?;
                Ok(Form::Compare(*op, left, boxed(alloc, right.get())?))
            }
            Form::And(parts) => Ok(Form::And(expressions(alloc, parts.as_slice())?)),
            Form::Or(parts) => Ok(Form::Or(expressions(alloc, parts.as_slice())?)),
        }
    }
}

#[cycle(expressions)]
fn boxed(alloc: Global, inner: &Expr) -> Result<Boxed<Expr>, Memory>
    ensures { IfOk result (λ it. it ≡ inner.now) }
{
    let copy = inner.copy(alloc)?;
    Ok(Boxed::new(alloc, copy)?)
}

#[cycle(expressions)]
fn expressions(alloc: Global, all: &[Expr]) -> Result<Items<Expr>, Memory>
    ensures { IfOk result (λ it. it ≡ all.now) }
{
    let mut copies = Items::new(alloc);
    for expr in all {
        copies.push(expr.copy(alloc)?)?;
    }
    Ok(copies)
}

#[cycle(expressions)]
fn operations(alloc: Global, all: &[(ArithOp, Expr)]) -> Result<Items<(ArithOp, Expr)>, Memory>
    ensures { IfOk result (λ it. it ≡ all.now) }
{
    let mut copies = Items::new(alloc);
    for (op, expr) in all {
        copies.push((*op, expr.copy(alloc)?))?;
    }
    Ok(copies)
}

fn tail(alloc: Global, of: &Option<Expr>) -> Result<Option<Expr>, Memory>
    ensures { IfOk result (λ it. it ≡ of.now) }
{
    match of {
        Some(expr) => Ok(Some(expr.copy(alloc)?)),
        None => Ok(None),
    }
}

impl Stmt {
    /// A copy, which equals what it copies. `Memory` where there is none for it.
    #[cycle(statements)]
    #[tactic(auto, using(crate::proofs::Weights::weighing))]
    pub fn copy(&self, alloc: Global) -> Result<Stmt, Memory>
        ensures { IfOk result (λ it. it ≡ self.now) }
    {
        match self {
            Stmt::Let {
                mutable,
                at,
                name,
                typ,
                value,
            } => {
                let value = value.copy(alloc)?;
                Ok(Stmt::Let {
                    mutable: *mutable,
                    at: *at,
                    name: name.copy()?,
                    typ: *typ,
                    value,
                })
            }
            Stmt::Assign { at, name, value } => {
                let value = value.copy(alloc)?;
                Ok(Stmt::Assign {
                    at: *at,
                    name: name.copy()?,
                    value,
                })
            }
            Stmt::Return { at, value } => Ok(Stmt::Return {
                at: *at,
                value: tail(alloc, value)?,
            }),
            Stmt::Eval(value) => Ok(Stmt::Eval(value.copy(alloc)?)),
            Stmt::While { cond, body } => {
                let cond = cond.copy(alloc)?;
                Ok(Stmt::While {
                    cond,
                    body: statements(alloc, body.as_slice())?,
                })
            }
            Stmt::If { arms: all, other } => {
                let arms = arms(alloc, all.as_slice())?;
                Ok(Stmt::If {
                    arms,
                    other: otherwise(alloc, other)?,
                })
            }
            Stmt::Print(value) => Ok(Stmt::Print(value.copy(alloc)?)),
        }
    }
}

#[cycle(statements)]
#[tactic(auto, using(crate::proofs::Weights::weighing))]
fn statements(alloc: Global, all: &[Stmt]) -> Result<Items<Stmt>, Memory>
    ensures { IfOk result (λ it. it ≡ all.now) }
{
    let mut copies = Items::new(alloc);
    for stmt in all {
        copies.push(stmt.copy(alloc)?)?;
    }
    Ok(copies)
}

#[cycle(statements)]
#[tactic(auto, using(crate::proofs::Weights::weighing))]
fn arms(alloc: Global, all: &[(Expr, Items<Stmt>)]) -> Result<Items<(Expr, Items<Stmt>)>, Memory>
    ensures { IfOk result (λ it. it ≡ all.now) }
{
    let mut copies = Items::new(alloc);
    for (cond, body) in all {
        let cond = cond.copy(alloc)?;
        copies.push((cond, statements(alloc, body.as_slice())?))?;
    }
    Ok(copies)
}

#[cycle(statements)]
#[tactic(auto, using(crate::proofs::Weights::weighing))]
fn otherwise(alloc: Global, of: &Option<Items<Stmt>>) -> Result<Option<Items<Stmt>>, Memory>
    ensures { IfOk result (λ it. it ≡ of.now) }
{
    match of {
        Some(body) => Ok(Some(statements(alloc, body.as_slice())?)),
        None => Ok(None),
    }
}

impl Body {
    /// A copy, which equals what it copies. `Memory` where there is none for it.
    pub fn copy(&self, alloc: Global) -> Result<Body, Memory>
        ensures { IfOk result (λ it. it ≡ self.now) }
    {
        match self {
            Body::Const { typ, value } => Ok(Body::Const {
                typ: *typ,
                value: value.copy(alloc)?,
            }),
            Body::Func {
                inline,
                params,
                gives,
                stmts,
                tail: last,
            } => {
                let params = params.copy()?;
                let stmts = statements(alloc, stmts.as_slice())?;
                let tail = tail(alloc, last)?;
                Ok(Body::Func {
                    inline: *inline,
                    params,
                    gives: *gives,
                    stmts,
                    tail,
                })
            }
        }
    }
}

fn item(of: &Item) -> Result<Item, Memory>
    ensures { IfOk result (λ it. it ≡ of.now) }
{
    let body = of.body.copy(of.tokens.allocator())?;
    let tokens = of.tokens.copy()?;
    Ok(Item {
        public: of.public,
        name: of.name.copy()?,
        at: of.at,
        tokens,
        body,
    })
}

impl Clone for Item {
    ghost is_clone = { λ x y. y ≡ x };

    fn clone(&self) -> Result<Item, AllocError> {
        match item(self) {
            Ok(copy) => Ok(copy),
            Err(Memory) => Err(AllocError),
        }
    }
}

impl Copied for Item {
    ghost same = { λ x y e. e };
}

impl Clone for Placed {
    ghost is_clone = { λ x y. y ≡ x };

    fn clone(&self) -> Result<Placed, AllocError> {
        let item = self.item.clone()?;
        Ok(Placed {
            module: self.module.clone()?,
            start: self.start,
            item,
        })
    }
}

impl Copied for Placed {
    ghost same = { λ x y e. e };
}

impl Clone for Crate {
    ghost is_clone = { λ x y. y ≡ x };

    fn clone(&self) -> Result<Crate, AllocError> {
        let modules = self.modules.clone()?;
        Ok(Crate {
            modules,
            items: self.items.clone()?,
        })
    }
}

impl Copied for Crate {
    ghost same = { λ x y e. e };
}
