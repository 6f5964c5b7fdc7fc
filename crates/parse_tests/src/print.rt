//! Trees as text, in parentheses and prefix form: `1 + x` is `(arith 1 (+ x))`.
//!
//! With places, each name, expression and `return` that has one is followed by it: `x@0:4`.

use rs_tree::{ArithOp, At, CmpOp, Expr, Form, Path, UnaryOp};
use std::alloc::AllocError;

/// How deep trees are printed; two dots stand for what is deeper.
pub const DEEPEST: u32 = 100;

/// What is printed so far, and whether places are.
#[derive(Drop)]
pub struct Printed {
    pub text: String,
    pub places: bool,
}

impl Printed {
    pub fn add(&mut self, piece: &str) -> Result<(), AllocError> {
        self.text.push_str(piece)
    }

    pub fn name(&mut self, name: &[u8]) -> Result<(), AllocError> {
        match str::from_utf8(name) {
            Ok(name) => self.add(name),
            Err(_) => self.add("?"),
        }
    }

    /// A place, where places are printed.
    pub fn place(&mut self, at: At) -> Result<(), AllocError> {
        if self.places {
            let line = at.line;
            let column = at.column;
            return write!(self.text, "@{line}:{column}");
        }
        Ok(())
    }

    fn path(&mut self, path: &Path) -> Result<(), AllocError> {
        if path.rooted {
            self.add("crate::")?;
        }
        if let Some(module) = &path.module {
            self.name(module.as_slice())?;
            self.add("::")?;
        }
        self.name(path.name.as_slice())?;
        self.place(path.at)
    }
}

fn sign_of(op: ArithOp) -> &'static str {
    match op {
        ArithOp::Add => " (+ ",
        ArithOp::Sub => " (- ",
        ArithOp::Mul => " (* ",
        ArithOp::Div => " (/ ",
        ArithOp::Rem => " (% ",
    }
}

fn comparison_of(op: CmpOp) -> &'static str {
    match op {
        CmpOp::Equal => "(== ",
        CmpOp::NotEqual => "(!= ",
        CmpOp::Less => "(< ",
        CmpOp::Greater => "(> ",
        CmpOp::AtMost => "(<= ",
        CmpOp::AtLeast => "(>= ",
    }
}

fn unary_of(op: UnaryOp) -> &'static str {
    match op {
        UnaryOp::Negate => "(- ",
        UnaryOp::Not => "(! ",
    }
}

/// An expression.
#[cycle(printing)]
pub fn expression(out: &mut Printed, of: &Expr, depth: u32) -> Result<(), AllocError> {
    if depth == 0 {
        return out.add("..");
    }
    form(out, &of.form, depth - 1)?;
    out.place(of.at)
}

#[cycle(printing)]
fn form(out: &mut Printed, of: &Form, depth: u32) -> Result<(), AllocError> {
    match of {
        Form::Number(value) => write!(out.text, "{value}"),
        Form::Truth(value) => write!(out.text, "{value}"),
        Form::Path(path) => out.path(path),
        Form::Call(path, args) => call(out, path, args.as_slice(), depth),
        Form::Group(inner) => around(out, "(group ", inner.get(), depth),
        Form::Unary(op, inner) => around(out, unary_of(*op), inner.get(), depth),
        Form::Arith(first, more) => arith(out, first.get(), more.as_slice(), depth),
        Form::Compare(op, left, right) => {
            compare(out, comparison_of(*op), left.get(), right.get(), depth)
        }
        Form::And(parts) => several(out, "(and", parts.as_slice(), depth),
        Form::Or(parts) => several(out, "(or", parts.as_slice(), depth),
    }
}

#[cycle(printing)]
fn around(out: &mut Printed, head: &str, inner: &Expr, depth: u32) -> Result<(), AllocError> {
    out.add(head)?;
    expression(out, inner, depth)?;
    out.add(")")
}

#[cycle(printing)]
fn compare(
    out: &mut Printed,
    head: &str,
    left: &Expr,
    right: &Expr,
    depth: u32,
) -> Result<(), AllocError> {
    out.add(head)?;
    expression(out, left, depth)?;
    out.add(" ")?;
    expression(out, right, depth)?;
    out.add(")")
}

#[cycle(printing)]
fn several(out: &mut Printed, head: &str, parts: &[Expr], depth: u32) -> Result<(), AllocError> {
    out.add(head)?;
    for part in parts {
        out.add(" ")?;
        expression(out, part, depth)?;
    }
    out.add(")")
}

#[cycle(printing)]
fn call(out: &mut Printed, path: &Path, args: &[Expr], depth: u32) -> Result<(), AllocError> {
    out.add("(call ")?;
    out.path(path)?;
    for arg in args {
        out.add(" ")?;
        expression(out, arg, depth)?;
    }
    out.add(")")
}

#[cycle(printing)]
fn arith(
    out: &mut Printed,
    first: &Expr,
    more: &[(ArithOp, Expr)],
    depth: u32,
) -> Result<(), AllocError> {
    out.add("(arith ")?;
    expression(out, first, depth)?;
    for (op, operand) in more {
        out.add(sign_of(*op))?;
        expression(out, operand, depth)?;
        out.add(")")?;
    }
    out.add(")")
}
