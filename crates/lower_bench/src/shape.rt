//! The texts that are timed: each has one function.

use std::alloc::{AllocError, Global};

pub const SMALL: usize = 262_144;

pub const LARGE: usize = 1_048_576;

/// What the function is made of.
#[derive(Clone, Copy)]
pub enum Shape {
    /// Variables, 40,329 in a mebibyte.
    Lets,
    /// One sum that begins with a local.
    Sum,
    /// One sum of constants.
    Constants,
    /// One chain of `&&`.
    Conjunction,
    /// One `else if` chain.
    Choices,
    /// Sums in brackets, sixty deep, each around a local.
    Brackets,
    /// The same around a division by zero.
    Faults,
    /// Assignments of constant expressions.
    Folded,
}

pub const SHAPES: [Shape; 8] = [
    Shape::Lets,
    Shape::Sum,
    Shape::Constants,
    Shape::Conjunction,
    Shape::Choices,
    Shape::Brackets,
    Shape::Faults,
    Shape::Folded,
];

impl Shape {
    pub fn name(self) -> &'static str {
        match self {
            Shape::Lets => "variables",
            Shape::Sum => "a sum",
            Shape::Constants => "a sum of constants",
            Shape::Conjunction => "a chain of truth values",
            Shape::Choices => "conditions",
            Shape::Brackets => "brackets",
            Shape::Faults => "brackets around a fault",
            Shape::Folded => "constant expressions",
        }
    }

    /// A text of that shape and size.
    pub fn text(self, alloc: Global, size: usize) -> Result<String, AllocError> {
        let mut text = String::new(alloc);
        text.push_str("const N: i64 = 21;\nfn main() {\n    let mut x = 1;\n")?;
        match self {
            Shape::Lets => repeat(&mut text, size / 26, "    let variable = x * 2;\n")?,
            Shape::Sum => row(
                &mut text,
                "    x = x",
                (size / 4).saturating_sub(20),
                " + 1",
                ";\n",
            )?,
            Shape::Constants => row(
                &mut text,
                "    x = 0",
                (size / 8).saturating_sub(20),
                " + N - N",
                ";\n",
            )?,
            Shape::Conjunction => row(
                &mut text,
                "    let b = x == 1",
                (size / 10).saturating_sub(20),
                " && x == 1",
                ";\n",
            )?,
            Shape::Choices => row(
                &mut text,
                "    if x == 0 { x = 1; }",
                (size / 25).saturating_sub(20),
                " else if x == 1 { x = 2; }",
                "\n",
            )?,
            Shape::Brackets => brackets(&mut text, size / 371, "x")?,
            Shape::Faults => brackets(&mut text, size / 375, "1 / 0")?,
            Shape::Folded => repeat(&mut text, size / 19, "    x = 2 * 3 - 1;\n")?,
        }
        text.push_str("}\n")?;
        Ok(text)
    }
}

fn repeat(to: &mut String, many: usize, piece: &str) -> Result<(), AllocError> {
    for _ in 0..many {
        to.push_str(piece)?;
    }
    Ok(())
}

fn row(
    to: &mut String,
    first: &str,
    many: usize,
    piece: &str,
    last: &str,
) -> Result<(), AllocError> {
    to.push_str(first)?;
    repeat(to, many, piece)?;
    to.push_str(last)
}

fn brackets(to: &mut String, many: usize, inner: &str) -> Result<(), AllocError> {
    for _ in 0..many {
        to.push_str("    x = ")?;
        repeat(to, 60, "(1 + ")?;
        to.push_str(inner)?;
        repeat(to, 60, ")")?;
        to.push_str(";\n")?;
    }
    Ok(())
}
