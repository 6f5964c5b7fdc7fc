//! Statements and items as text.

use crate::print::{DEEPEST, Printed, expression};
use rs_tree::{Body, Crate, Expr, Item, Param, Placed, Stmt, Typ};
use sqlite_items::Items;
use std::alloc::{AllocError, Global};

fn type_of(typ: Typ) -> &'static str {
    match typ {
        Typ::Unit => "unit",
        Typ::Int => "i64",
        Typ::Bool => "bool",
    }
}

/// A statement, after a blank.
#[cycle(printing_statements)]
fn statement(out: &mut Printed, of: &Stmt, depth: u32) -> Result<(), AllocError> {
    if depth == 0 {
        return out.add(" ..");
    }
    match of {
        Stmt::While { cond, body } => choice(out, " (while ", cond, body.as_slice(), depth - 1),
        Stmt::If { arms, other } => chain(out, arms.as_slice(), other, depth - 1),
        _ => simple(out, of),
    }
}

/// A statement without blocks.
fn simple(out: &mut Printed, of: &Stmt) -> Result<(), AllocError> {
    match of {
        Stmt::Let {
            mutable,
            at,
            name,
            typ,
            value,
        } => {
            out.add(if *mutable { " (let mut " } else { " (let " })?;
            out.name(name.as_slice())?;
            out.place(*at)?;
            typed(out, typ)?;
            valued(out, value)
        }
        Stmt::Assign { at, name, value } => {
            out.add(" (= ")?;
            out.name(name.as_slice())?;
            out.place(*at)?;
            valued(out, value)
        }
        Stmt::Return { at, value } => {
            out.add(" (return")?;
            out.place(*at)?;
            returned(out, value)
        }
        Stmt::Eval(value) => headed(out, " (eval", value),
        Stmt::Print(value) => headed(out, " (print", value),
        _ => out.add(" ?"),
    }
}

fn typed(out: &mut Printed, typ: &Option<Typ>) -> Result<(), AllocError> {
    match typ {
        Some(typ) => {
            out.add(" ")?;
            out.add(type_of(*typ))
        }
        None => Ok(()),
    }
}

/// The value that a form ends with.
fn valued(out: &mut Printed, value: &Expr) -> Result<(), AllocError> {
    out.add(" ")?;
    expression(out, value, DEEPEST)?;
    out.add(")")
}

fn returned(out: &mut Printed, value: &Option<Expr>) -> Result<(), AllocError> {
    match value {
        Some(value) => valued(out, value),
        None => out.add(")"),
    }
}

fn headed(out: &mut Printed, head: &str, value: &Expr) -> Result<(), AllocError> {
    out.add(head)?;
    valued(out, value)
}

/// A condition with its block.
#[cycle(printing_statements)]
fn choice(
    out: &mut Printed,
    head: &str,
    cond: &Expr,
    body: &[Stmt],
    depth: u32,
) -> Result<(), AllocError> {
    out.add(head)?;
    expression(out, cond, DEEPEST)?;
    statements(out, body, depth)?;
    out.add(")")
}

#[cycle(printing_statements)]
fn chain(
    out: &mut Printed,
    arms: &[(Expr, Items<Stmt>)],
    other: &Option<Items<Stmt>>,
    depth: u32,
) -> Result<(), AllocError> {
    out.add(" (if")?;
    for (cond, body) in arms {
        choice(out, " (", cond, body.as_slice(), depth)?;
    }
    if let Some(body) = other {
        out.add(" (else")?;
        statements(out, body.as_slice(), depth)?;
        out.add(")")?;
    }
    out.add(")")
}

#[cycle(printing_statements)]
fn statements(out: &mut Printed, all: &[Stmt], depth: u32) -> Result<(), AllocError> {
    for stmt in all {
        statement(out, stmt, depth)?;
    }
    Ok(())
}

fn params(out: &mut Printed, all: &[Param]) -> Result<(), AllocError> {
    out.add(" (")?;
    for (i, param) in all.iter().enumerate() {
        out.add(if i == 0 { "" } else { " " })?;
        out.name(param.name.as_slice())?;
        out.place(param.at)?;
        out.add(" ")?;
        out.add(type_of(param.typ))?;
    }
    out.add(") ")
}

fn function(out: &mut Printed, stmts: &[Stmt], tail: &Option<Expr>) -> Result<(), AllocError> {
    statements(out, stmts, DEEPEST)?;
    if let Some(value) = tail {
        headed(out, " (tail", value)?;
    }
    out.add(")")
}

/// The words before an item's name.
fn head(out: &mut Printed, of: &Item) -> Result<(), AllocError> {
    out.add(if of.public { "(pub " } else { "(" })?;
    match &of.body {
        Body::Const { .. } => out.add("const "),
        Body::Func { inline, .. } => out.add(if *inline { "inline fn " } else { "fn " }),
    }
}

fn body(out: &mut Printed, of: &Body) -> Result<(), AllocError> {
    match of {
        Body::Const { typ, value } => {
            out.add(" ")?;
            out.add(type_of(*typ))?;
            valued(out, value)
        }
        Body::Func {
            params: all,
            gives,
            stmts,
            tail,
            ..
        } => {
            params(out, all.as_slice())?;
            out.add(type_of(*gives))?;
            function(out, stmts.as_slice(), tail)
        }
    }
}

fn item(out: &mut Printed, of: &Placed) -> Result<(), AllocError> {
    out.place(of.start)?;
    head(out, &of.item)?;
    if !of.module.is_empty() {
        out.name(of.module.as_slice())?;
        out.add("::")?;
    }
    out.name(of.item.name.as_slice())?;
    out.place(of.item.at)?;
    body(out, &of.item.body)
}

/// The modules of a text, then its items.
pub fn printed(alloc: Global, of: &Crate, places: bool) -> Result<String, AllocError> {
    let mut out = Printed {
        text: String::new(alloc),
        places,
    };
    for module in of.modules.as_slice() {
        out.add("(mod ")?;
        out.name(module.as_slice())?;
        out.add(")")?;
    }
    for placed in of.items.as_slice() {
        item(&mut out, placed)?;
    }
    let Printed { text, .. } = out;
    Ok(text)
}
