ghost use Rattle.std.specs.Prelude.{◌≡◌, ◌||◌, ◌<◌, OnOk, IfOk, ℕ, false, get_or, length, nat_eq, slice_get};
ghost use Rattle.std.specs.List.{list_any};
ghost use Rattle.rs_check.specs.Items.{is_quiet, unread, unused};
ghost use Rattle.rs_check.specs.State.{said, unread_at};

use crate::body::Checker;
use inc_base::Memory;
use rs_diag::Fault;
use rs_tree::At;

impl<'a, 'b> Checker<'a, 'b> {
    /// The locals that no path leads to, but those whose names say that they aren't meant to be used.
    pub(crate) fn unused(&mut self) -> Result<(), Memory>
        ensures { OnOk result (self.new ≡ said (unused 0 self.old.typer.reads self.old.declared) self.old) }
    {
        let read = self.read_marks()?;
        for number in 0..self.declared.len() {
            self.unread_at(number, read[number])?;
        }
        Ok(())
    }

    fn unread_at(&mut self, number: usize, read: bool) -> Result<(), Memory>
        ensures { OnOk result (self.new ≡ said (unread_at read (slice_get self.old.declared number)) self.old) }
    {
        match self.declared.get(number) {
            None => Ok(()),
            Some((at, name)) => self.unread(read, at, name),
        }
    }

    fn unread(&mut self, read: bool, at: At, name: &'a [u8]) -> Result<(), Memory>
        ensures { OnOk result (self.new ≡ said (unread read at name.now) self.old) }
    {
        if read || is_quiet(name) {
            return Ok(());
        }
        self.typer.say(at, Fault::Unused(name))
    }

    // Whether each local was read, by their numbers.
    fn read_marks(&self) -> Result<Vec<bool>, Memory>
        ensures length { IfOk result (λ m. length m.items ≡ length self.now.declared) }
        ensures marks { IfOk result (λ m. (i : ℕ) → i < length self.now.declared → get_or m.items i false ≡ list_any (nat_eq i) self.now.typer.reads) }
    {
        let count = self.declared.len();
        let mut marks = Vec::from_elem(self.typer.alloc, false, count)?;
        for number in self.typer.reads.as_slice() {
            if *number < count {
                marks[*number] = true;
            }
        }
        Ok(marks)
    }
}

fn is_quiet(name: &[u8]) -> bool
    ensures { result ≡ is_quiet name.now }
{
    match name.first() {
        None => false,
        Some(byte) => *byte == b'_',
    }
}
