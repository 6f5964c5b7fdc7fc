ghost use Rattle.std.specs.Prelude.{◌≡◌, [], IfOk, OnOk};
ghost use Rattle.rs_lines.specs.Lines.{note, printed_all, told};

use crate::line::{Line, is_warning};
use inc_base::{Bytes, Memory};
use std::alloc::Global;
use std::collections::BTreeSet;
use std::marker::Model;

/// Lines that were told of, in order of place, number and text, each once, and whether one of them is an error's.
#[derive(Drop)]
pub struct Lines {
    set: BTreeSet<Line>,
    errors: bool,
}

impl Model for Lines {
    ghost use Rattle.rs_lines.specs.Lines.{Told};

    ghost Value = { Told };

    ghost view = { λ it. record { lines = it.set.keys; errors = it.errors } };
}

impl Lines {
    /// No line, which takes no memory.
    pub fn new(alloc: Global) -> Lines
        ensures { result ≡ told [] }
    {
        Lines {
            set: BTreeSet::new(alloc),
            errors: false,
        }
    }

    /// Tells of a line. After `Memory` the lines are as before.
    pub fn add(&mut self, line: Line) -> Result<(), Memory>
        ensures { OnOk result (self.new ≡ note self.old line) }
    {
        let warning = is_warning(line.code);
        self.set.insert(line)?;
        self.errors = self.errors || !warning;
        Ok(())
    }

    /// Whether one of them is no warning's.
    pub fn has_error(&self) -> bool
        ensures { result ≡ self.now.errors }
    {
        self.errors
    }

    /// The lines in order, each with a line feed at its end. More than `MOST` bytes of `inc_base` answer `Memory`.
    pub fn print(&self, alloc: Global) -> Result<Bytes, Memory>
        ensures { IfOk result (λ b. b ≡ printed_all self.now.lines) }
    {
        let mut out = Bytes::new(alloc);
        for line in &self.set {
            line.print(&mut out)?;
        }
        Ok(out)
    }
}
