//! The line of a text's fault.

ghost use Rattle.std.specs.Prelude.{◌≡◌, ◌++◌, codes, Some, IfOk};
ghost use Rattle.rs_queries.specs.Diagnosed.{SaysFault, fault_line, line_at};

use inc_base::{Bytes, Memory};
use rs_lines::{Line, Lines};
use rs_text::TextFault;
use rs_tree::At;
use std::alloc::Global;

/// The one line of a text with this fault.
pub(crate) fn fault_text(alloc: Global, fault: &TextFault) -> Result<Bytes, Memory>
    ensures { IfOk result (SaysFault fault.now) }
{
    let line = fault_line(alloc, fault)?;
    let mut lines = Lines::new(alloc);
    lines.add(line)?;
    lines.print(alloc)
}

fn fault_line(alloc: Global, fault: &TextFault) -> Result<Line, Memory>
    ensures { IfOk result (λ l. fault_line fault.now ≡ Some l) }
{
    match fault {
        TextFault::Byte(at) => line_at(alloc, *at, 1, b"unexpected byte"),
        TextFault::Nesting(at) => line_at(alloc, *at, 2, b"nesting over 64"),
        TextFault::Syntax(at) => line_at(alloc, *at, 3, b"syntax error"),
        TextFault::Twice(at, name) => twice_at(alloc, *at, name.as_slice()),
        TextFault::Memory => Err(Memory),
    }
}

fn twice_at(alloc: Global, at: At, name: &[u8]) -> Result<Line, Memory>
    ensures { IfOk result (λ l. l ≡ line_at at 4 (codes "`" ++ name.now ++ codes "` is defined twice")) }
{
    let mut text = Bytes::of(alloc, b"`")?;
    text.append(name)?;
    text.append(b"` is defined twice")?;
    line_at(alloc, at, 4, text.as_slice())
}

fn line_at(alloc: Global, at: At, code: u16, text: &[u8]) -> Result<Line, Memory>
    ensures { IfOk result (λ l. l ≡ line_at at code text.now) }
{
    let text = Bytes::of(alloc, text)?;
    Ok(Line {
        line: u64::from(at.line),
        column: u64::from(at.column),
        code,
        text,
    })
}
