//! The texts that are timed.

use std::alloc::{AllocError, Global};

/// What a text is made of. Its number stands in the first item.
#[derive(Clone, Copy)]
pub enum Shape {
    /// Functions that `main` calls.
    Star,
    /// Functions with `#[inline]` in one chain of calls, over 255 modules.
    Chain,
    /// Constants, each of which names the next.
    Constants,
    /// Functions in one module, each of which calls the next.
    Module,
}

pub const SHAPES: [Shape; 4] = [Shape::Star, Shape::Chain, Shape::Constants, Shape::Module];

/// How many modules a chain goes through.
const MODULES: u32 = 255;

impl Shape {
    pub fn name(self) -> &'static str {
        match self {
            Shape::Star => "functions that main calls",
            Shape::Chain => "inline functions in a chain",
            Shape::Constants => "constants in a chain",
            Shape::Module => "one module",
        }
    }

    /// A text of so many items with this number.
    pub fn text(self, alloc: Global, many: u32, number: u32) -> Result<String, AllocError> {
        let mut text = String::new(alloc);
        match self {
            Shape::Star => star(&mut text, many, number)?,
            Shape::Chain => chain(&mut text, many, number)?,
            Shape::Constants => constants(&mut text, many, number)?,
            Shape::Module => module_of(&mut text, many, number)?,
        }
        Ok(text)
    }
}

fn star(to: &mut String, many: u32, number: u32) -> Result<(), AllocError> {
    write!(to, "fn f() -> i64 {{ {number} }}\n")?;
    for k in 1..many {
        write!(to, "fn f{k}() -> i64 {{ {k} }}\n")?;
    }
    to.push_str("fn main() {\n    f();\n")?;
    for k in 1..many {
        write!(to, "    f{k}();\n")?;
    }
    to.push_str("}\n")
}

fn chain(to: &mut String, many: u32, number: u32) -> Result<(), AllocError> {
    let rows = many / MODULES + 1;
    for m in 0..MODULES {
        write!(to, "mod m{m} {{\n")?;
        for row in 0..rows {
            link(to, m, row, rows, number)?;
        }
        to.push_str("}\n")?;
    }
    write!(to, "fn main() {{ println!(\"{{}}\", m0::f0()); }}\n")
}

// A function of a module calls that of the next; the last module's calls the first's of the next row, and the last of all has the number.
fn link(to: &mut String, m: u32, row: u32, rows: u32, number: u32) -> Result<(), AllocError> {
    write!(to, "    #[inline] pub fn f{row}() -> i64 {{ ")?;
    let next = m.saturating_add(1);
    let below = row.saturating_add(1);
    if next < MODULES {
        write!(to, "crate::m{next}::f{row}()")?;
    } else if below < rows {
        write!(to, "crate::m0::f{below}()")?;
    } else {
        write!(to, "{number}")?;
    }
    to.push_str(" }\n")
}

fn constants(to: &mut String, many: u32, number: u32) -> Result<(), AllocError> {
    write!(to, "const c: i64 = {number};\n")?;
    for k in 1..many {
        if k == 1 {
            to.push_str("const c1: i64 = c;\n")?;
        } else {
            let before = k.wrapping_sub(1);
            write!(to, "const c{k}: i64 = c{before};\n")?;
        }
    }
    to.push_str("fn main() {}\n")
}

fn module_of(to: &mut String, many: u32, number: u32) -> Result<(), AllocError> {
    write!(
        to,
        "mod m {{\n    fn f() -> i64 {{ {number} }}\n    pub fn f1() -> i64 {{ f() }}\n"
    )?;
    for k in 2..many {
        let before = k.wrapping_sub(1);
        write!(to, "    pub fn f{k}() -> i64 {{ f{before}() }}\n")?;
    }
    let last = many.saturating_sub(1).max(1);
    write!(
        to,
        "}}\nfn main() {{ println!(\"{{}}\", m::f{last}()); }}\n"
    )
}
