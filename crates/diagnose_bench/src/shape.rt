//! The texts that are timed.

use std::alloc::{AllocError, Global};

pub const SMALL: usize = 262_144;

pub const LARGE: usize = 1_048_576;

/// What a text is made of.
#[derive(Clone, Copy)]
pub enum Shape {
    /// Functions in modules, sixteen in each, which call each other: 4,096 in a mebibyte.
    Modules,
    /// Constants, each of which names the next: 4,096 in a mebibyte.
    Forward,
    /// Constants, each of which names the one before.
    Backward,
    /// The same two ways, but the last one that is named names itself.
    ForwardCycle,
    BackwardCycle,
    /// Constants on one cycle.
    Round,
    /// One function of blocks, sixty deep, in each of which a variable hides the one around it.
    Locals,
    /// One sum, of some hundred thousand operands in a mebibyte.
    Operands,
    /// Functions that `main` calls: 4,096 in a mebibyte.
    Star,
    /// Functions in one chain of calls.
    Chain,
    /// Names that lead nowhere, one a line.
    Faults,
}

pub const SHAPES: [Shape; 11] = [
    Shape::Modules,
    Shape::Forward,
    Shape::Backward,
    Shape::ForwardCycle,
    Shape::BackwardCycle,
    Shape::Round,
    Shape::Locals,
    Shape::Operands,
    Shape::Star,
    Shape::Chain,
    Shape::Faults,
];

/// Operands that bring a constant to some 250 bytes, and a function with its call.
const FILL: &str =
    " + 1 - 1 + 1 - 1 + 1 - 1 + 1 - 1 + 1 - 1 + 1 - 1 + 1 - 1 + 1 - 1 + 1 - 1 + 1 - 1 + 1 - 1 + 1 - 1 + 1 - 1 + 1 - 1 + 1 - 1 + 1 - 1 + 1 - 1 + 1 - 1 + 1 - 1 + 1 - 1 + 1 - 1 + 1 - 1 + 1 - 1 + 1 - 1 + 1 - 1 + 1 - 1 + 1 - 1 + 1 - 1";

const BRIEF: &str =
    " + 1 - 1 + 1 - 1 + 1 - 1 + 1 - 1 + 1 - 1 + 1 - 1 + 1 - 1 + 1 - 1 + 1 - 1 + 1 - 1 + 1 - 1 + 1 - 1 + 1 - 1 + 1 - 1 + 1 - 1 + 1 - 1 + 1 - 1 + 1 - 1 + 1 - 1 + 1 - 1 + 1 - 1 + 1 - 1 + 1 - 1 + 1 - 1";

impl Shape {
    pub fn name(self) -> &'static str {
        match self {
            Shape::Modules => "modules",
            Shape::Forward => "constants",
            Shape::Backward => "constants, backward",
            Shape::ForwardCycle => "constants into a cycle",
            Shape::BackwardCycle => "constants into a cycle, backward",
            Shape::Round => "constants in a cycle",
            Shape::Locals => "locals",
            Shape::Operands => "operands",
            Shape::Star => "calls from main",
            Shape::Chain => "calls in a chain",
            Shape::Faults => "faults",
        }
    }

    /// A text of that shape and size.
    pub fn text(self, alloc: Global, size: usize) -> Result<String, AllocError> {
        let mut text = String::new(alloc);
        let many = size / 256;
        match self {
            Shape::Modules => modules(&mut text, many / 16)?,
            Shape::Forward => forward(&mut text, many, "1")?,
            Shape::Backward => backward(&mut text, many, "1")?,
            Shape::ForwardCycle => {
                text.push_str("const last: i64 = last;\n")?;
                forward(&mut text, many, "last")?;
            },
            Shape::BackwardCycle => backward(&mut text, many, "c0")?,
            Shape::Round => forward(&mut text, many, "c0")?,
            Shape::Locals => locals(&mut text, size / 1_800)?,
            Shape::Operands => operands(&mut text, (size / 10).saturating_sub(10))?,
            Shape::Star => star(&mut text, many)?,
            Shape::Chain => chain(&mut text, many)?,
            Shape::Faults => faults(&mut text, (size / 3).saturating_sub(10))?,
        }
        Ok(text)
    }
}

fn modules(to: &mut String, many: usize) -> Result<(), AllocError> {
    for k in 0..many {
        let next = (k + 1) % many;
        write!(to, "mod m{k} {{\n    const LIMIT: i64 = {k} * 2;\n")?;
        for f in 0..15 {
            function(to, next, f)?;
        }
        to.push_str("}\n")?;
    }
    to.push_str("fn main() {\n    println!(\"{}\", m0::f0(1, true));\n}\n")
}

fn function(to: &mut String, next: usize, f: usize) -> Result<(), AllocError> {
    write!(to, "    pub fn f{f}(a: i64, b: bool) -> i64 {{\n")?;
    to.push_str("        let mut c = a * 2 + LIMIT;\n")?;
    to.push_str("        while b && c > 10 { c = c - 1; }\n")?;
    to.push_str(
        "        if c == 3 {\n            println!(\"{}\", c);\n        } else {\n            c = c % 7;\n        }\n",
    )?;
    let other = f.wrapping_add(1) % 15;
    write!(
        to,
        "        crate::m{next}::f{other}(c, !b) + f{other}(c, b)\n    }}\n"
    )
}

fn forward(to: &mut String, many: usize, last: &str) -> Result<(), AllocError> {
    for k in 0..many {
        if k + 1 < many {
            let next = k + 1;
            write!(to, "const c{k}: i64 = c{next}{FILL};\n")?;
        } else {
            write!(to, "const c{k}: i64 = {last}{FILL};\n")?;
        }
    }
    to.push_str("fn main() {}\n")
}

fn backward(to: &mut String, many: usize, first: &str) -> Result<(), AllocError> {
    write!(to, "const c0: i64 = {first}{FILL};\n")?;
    for k in 1..many {
        let before = k - 1;
        write!(to, "const c{k}: i64 = c{before}{FILL};\n")?;
    }
    to.push_str("fn main() {}\n")
}

fn locals(to: &mut String, many: usize) -> Result<(), AllocError> {
    to.push_str("fn main() {\n    let x = 1;\n")?;
    for _ in 0..many {
        to.push_str("    ")?;
        for _ in 0..60 {
            to.push_str("if x == 0 { let x = x + 1; ")?;
        }
        to.push_str("println!(\"{}\", x); ")?;
        for _ in 0..60 {
            to.push_str("} ")?;
        }
        to.push_str("\n")?;
    }
    to.push_str("}\n")
}

fn operands(to: &mut String, many: usize) -> Result<(), AllocError> {
    to.push_str("fn main() {\n    let operand = 1;\n    println!(\"{}\", operand")?;
    for _ in 0..many {
        to.push_str(" + operand")?;
    }
    to.push_str(");\n}\n")
}

fn star(to: &mut String, many: usize) -> Result<(), AllocError> {
    for k in 0..many {
        write!(to, "fn f{k}(a: i64) -> i64 {{ a{BRIEF} }}\n")?;
    }
    to.push_str("fn main() {\n")?;
    for k in 0..many {
        write!(to, "    println!(\"{{}}\", f{k}({k}));\n")?;
    }
    to.push_str("}\n")
}

fn chain(to: &mut String, many: usize) -> Result<(), AllocError> {
    for k in 0..many {
        let next = k + 1;
        write!(to, "fn f{k}(a: i64) -> i64 {{ f{next}(a + 1){BRIEF} }}\n")?;
    }
    write!(to, "fn f{many}(a: i64) -> i64 {{ a }}\n")?;
    to.push_str("fn main() {\n    println!(\"{}\", f0(1));\n}\n")
}

fn faults(to: &mut String, many: usize) -> Result<(), AllocError> {
    to.push_str("fn main() {\n")?;
    for _ in 0..many {
        to.push_str("x;\n")?;
    }
    to.push_str("}\n")
}
