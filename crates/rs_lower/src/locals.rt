ghost use Rattle.std.specs.Prelude.{◌≡◌, ◌≤◌, ◌-◌, [], ◌∷◌, length, drop, OnOk};
ghost use Rattle.std.specs.Option.{option_map};
ghost use Rattle.rs_lower.specs.Locals.{find};
ghost use Rattle.rs_lower.specs.Held.{local_of};

use inc_base::Memory;
use rs_lookup::Scope;
use std::alloc::Global;
use std::marker::Model;

/// What a local is held as: its slot, and whether it holds a truth value.
#[derive(Clone, Copy, Debug)]
pub(crate) struct Held {
    pub slot: u16,
    pub truth: bool,
}

/// The variables and parameters in scope, the innermost first.
#[derive(Drop)]
pub(crate) struct Locals<'a> {
    scope: Scope<'a>,
    held: Vec<Held>,
}

impl<'a> Model for Locals<'a> {
    ghost use Rattle.std.specs.Prelude.{List, map};
    ghost use Rattle.rs_lower.specs.Locals.{Env};
    ghost use Rattle.rs_lower.specs.Held.{shown, AreHeld};

    ghost Value = { Env };

    ghost view = { λ l. map (shown l.held.items) l.scope };

    ghost invariant = { λ l. AreHeld l.held.items l.scope };
}

impl<'a> Locals<'a> {
    pub(crate) fn new(alloc: Global) -> Locals<'a>
        ensures { result ≡ [] }
    {
        Locals {
            scope: Scope::new(alloc),
            held: Vec::new(alloc),
        }
    }

    /// Adds an innermost local. After `Memory` no local is in scope.
    #[tactic(auto, using(crate::proofs::HeldLemmas::holds))]
    pub(crate) fn declare(&mut self, name: &'a [u8], held: Held) -> Result<(), Memory>
        ensures { OnOk result (self.new ≡ local_of name.now held ∷ self.old) }
    {
        let number = self.held.len();
        self.held.push(held)?;
        match self.scope.declare(name, number) {
            Ok(()) => Ok(()),
            Err(memory) => {
                self.scope.leave(0);
                Err(memory)
            }
        }
    }

    /// The innermost local of a name.
    #[tactic(auto, using(crate::proofs::HeldLemmas::holds))]
    pub(crate) fn find(&self, name: &'a [u8]) -> Option<Held>
        ensures { option_map (local_of name.now) result ≡ find name.now self.now }
    {
        match self.scope.find(name) {
            None => None,
            Some(number) => Some(self.held[number]),
        }
    }

    /// How many are in scope, for `leave`.
    #[tactic(auto, using(crate::proofs::HeldLemmas::holds))]
    pub(crate) fn depth(&self) -> usize
        ensures { result ≡ length self.now }
    {
        self.scope.depth()
    }

    /// Ends a block that began at this depth.
    #[tactic(auto, using(crate::proofs::HeldLemmas::holds))]
    pub(crate) fn leave(&mut self, depth: usize)
        requires { depth ≤ length self.old }
        ensures { self.new ≡ drop (length self.old - depth) self.old }
    {
        self.scope.leave(depth);
    }
}
