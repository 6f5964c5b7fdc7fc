ghost use Rattle.std.specs.Prelude.{◌≡◌, ◌≤◌, ◌-◌, [], ◌∷◌, length, drop, OnOk};
ghost use Rattle.std.specs.List.{list_any};
ghost use Rattle.std.specs.Str.{bytes_eq};

use inc_base::Memory;
use rs_lookup::Scope;
use std::alloc::Global;
use std::marker::Model;

/// The names of the locals in scope, the innermost first.
#[derive(Drop)]
pub(crate) struct Locals<'a> {
    scope: Scope<'a>,
}

impl<'a> Model for Locals<'a> {
    ghost use Rattle.std.specs.Prelude.{List, ℕ};
    ghost use Rattle.rs_names.specs.Names.{names_of};

    ghost Value = { List (List ℕ) };

    ghost view = { λ l. names_of l.scope };
}

impl<'a> Locals<'a> {
    pub(crate) fn new(alloc: Global) -> Locals<'a>
        ensures { result ≡ [] }
    {
        Locals {
            scope: Scope::new(alloc),
        }
    }

    // Names alone count here, and each gets the number 0.
    pub(crate) fn declare(&mut self, name: &'a [u8]) -> Result<(), Memory>
        ensures { OnOk result (self.new ≡ name.now ∷ self.old) }
    {
        self.scope.declare(name, 0)
    }

    #[tactic(auto, using(crate::proofs::NamesOf::names))]
    pub(crate) fn has(&self, name: &'a [u8]) -> bool
        ensures { result ≡ list_any (bytes_eq name.now) self.now }
    {
        self.scope.find(name).is_some()
    }

    #[tactic(auto, using(crate::proofs::NamesOf::names))]
    pub(crate) fn depth(&self) -> usize
        ensures { result ≡ length self.now }
    {
        self.scope.depth()
    }

    #[tactic(auto, using(crate::proofs::NamesOf::names))]
    pub(crate) fn leave(&mut self, depth: usize)
        requires { depth ≤ length self.old }
        ensures { self.new ≡ drop (length self.old - depth) self.old }
    {
        self.scope.leave(depth);
    }
}
