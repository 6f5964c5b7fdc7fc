//! An expression that has a value is pushed in place of its parts.

ghost use Rattle.std.specs.Prelude.{◌≡◌, length, take, OnOk};
ghost use Rattle.rs_lower.specs.Reduced.{value_in};
ghost use Rattle.rs_lower.specs.State.{settled, shown_in, value_of};

use crate::expr::Lowerer;
use crate::fixed::{Fixed, shown, value_in};
use inc_base::{List, Memory};
use rs_tree::Instr;
use std::mem;

/// Where an expression begins: so many instructions and labels there are before it.
#[derive(Clone, Copy, Debug)]
pub(crate) struct Start {
    pub code: usize,
    pub labels: u16,
}

impl<'a, 'b> Lowerer<'a, 'b> {
    pub(crate) fn start(&self) -> Start
        ensures { result ≡ record { code = length self.now.code; labels = self.now.labels } }
    {
        Start {
            code: self.code.len(),
            labels: self.labels,
        }
    }

    /// Pushes what was lowered since as one value, where it has one and the level folds.
    pub(crate) fn settle(&mut self, start: Start, truth: bool, fixed: Fixed) -> Result<(), Memory>
        ensures { OnOk result (self.new ≡ settled start (shown_in truth (value_of self.old fixed)) self.old) }
    {
        match self.value_of(fixed) {
            None => Ok(()),
            Some(v) => {
                self.go_back(start);
                self.push(Instr::Push(shown(truth, v)))
            }
        }
    }

    fn value_of(&self, fixed: Fixed) -> Option<i64>
        ensures { result ≡ value_of self.now fixed }
    {
        if self.meanings.folds() {
            value_in(fixed)
        } else {
            None
        }
    }

    fn go_back(&mut self, start: Start)
        ensures { self.new ≡ record self.old { code = take start.code self.old.code; labels = start.labels } }
    {
        let empty = List::new(self.code.allocator());
        let mut code = mem::replace(&mut self.code, empty).into_vec();
        code.truncate(start.code);
        self.code = List::from_vec(code);
        self.labels = start.labels;
    }
}
