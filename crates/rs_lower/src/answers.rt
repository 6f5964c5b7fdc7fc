ghost use Rattle.std.specs.Prelude.{◌≡◌, drop};
ghost use Rattle.rs_tree.specs.declared.answers.Found.TheVariants.{Absent};
ghost use Rattle.rs_tree.specs.Leaves.{answer};
ghost use Rattle.rs_types.specs.State.{taken};

use rs_tree::Found;
use std::marker::Model;

/// The answers of paths that are left.
#[derive(Drop)]
pub(crate) struct Answers<'a> {
    rest: &'a [Found],
}

impl<'a> Model for Answers<'a> {
    ghost use Rattle.std.specs.Prelude.{List};
    ghost use Rattle.rs_tree.specs.declared.answers.Found.{Found};

    ghost Value = { List Found };

    ghost view = { λ a. a.rest.now };
}

impl<'a> Answers<'a> {
    pub(crate) fn new(rest: &'a [Found]) -> Answers<'a>
        ensures { result ≡ rest.now }
    {
        Answers { rest }
    }

    /// The next answer.
    pub(crate) fn take(&mut self) -> Option<&'a Found>
        ensures first { taken result ≡ answer Absent self.old }
        ensures rest { self.new ≡ drop 1 self.old }
    {
        match self.rest.split_first() {
            None => None,
            Some((first, rest)) => {
                self.rest = rest;
                Some(first)
            }
        }
    }

    /// The next answer, which stays.
    pub(crate) fn next(&self) -> Option<&'a Found>
        ensures { taken result ≡ answer Absent self.now }
    {
        self.rest.first()
    }
}
