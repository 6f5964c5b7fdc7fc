ghost use Rattle.std.specs.Prelude.{◌≡◌, ◌++◌, decimal, OnOk};
ghost use Rattle.rs_lines.specs.Lines.{column_of, is_warning, kind_text, line_of, padding, printed};

use inc_base::{Bytes, Memory};
use itoa::Buffer;
use rs_tree::{At, Diag};

/// A diagnostic at its place in a whole text: the line and the column, which count from 1, the number (1 for E001,
/// 201 for W201), and the text. Lines are ordered by these, in this order (docs/LANGUAGE.md, "Diagnostics").
#[derive(Debug, Drop, PartialEq, Eq, PartialOrd, Ord)]
pub struct Line {
    pub line: u64,
    pub column: u64,
    pub code: u16,
    pub text: Bytes,
}

impl Line {
    /// The line of a diagnostic whose place is relative to an item that begins there.
    pub fn of(base: At, diag: Diag) -> Line
        ensures { result ≡ line_of base diag }
    {
        Line {
            line: u64::from(base.line) + u64::from(diag.at.line),
            column: column_of(base, diag.at),
            code: diag.code,
            text: diag.text,
        }
    }

    pub(crate) fn print(&self, to: &mut Bytes) -> Result<(), Memory>
        ensures { OnOk result (to.new ≡ to.old ++ printed self.now) }
    {
        to.append(kind_text(self.code))?;
        to.append(padding(self.code))?;
        put_number(to, u64::from(self.code))?;
        to.append(b"] ")?;
        put_number(to, self.line)?;
        to.append(b":")?;
        put_number(to, self.column)?;
        to.append(b": ")?;
        to.append(self.text.as_slice())?;
        to.append(b"\n")
    }
}

fn column_of(base: At, at: At) -> u64
    ensures { result ≡ column_of base at }
{
    if at.line == 0 {
        u64::from(base.column) + u64::from(at.column)
    } else {
        u64::from(at.column)
    }
}

pub(crate) fn is_warning(code: u16) -> bool
    ensures { result ≡ is_warning code }
{
    code > 199
}

fn kind_text(code: u16) -> &'static [u8]
    ensures { result.now ≡ kind_text code }
{
    if is_warning(code) {
        b"warning[W"
    } else {
        b"error[E"
    }
}

fn padding(code: u16) -> &'static [u8]
    ensures { result.now ≡ padding code }
{
    if code < 10 {
        b"00"
    } else if code < 100 {
        b"0"
    } else {
        b""
    }
}

fn put_number(to: &mut Bytes, n: u64) -> Result<(), Memory>
    ensures { OnOk result (to.new ≡ to.old ++ decimal n) }
{
    let mut number = Buffer::new();
    to.append(number.format(n).as_bytes())
}
