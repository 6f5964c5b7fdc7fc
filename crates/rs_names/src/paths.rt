ghost use Rattle.std.specs.Prelude.{◌≡◌, [], ◌∷◌, ◌++◌, map, OnOk};
ghost use Rattle.std.specs.Borrow.{Bor};
ghost use Rattle.rs_tree.specs.declared.tree.Path as path;
ghost use Rattle.rs_tree.specs.Plain.{exp, expressions, operations};
ghost use Rattle.rs_tree.specs.Leaves.{leaves, leaves_all, leaves_by};

use inc_base::Memory;
use rs_tree::{ArithOp, Expr, Form, Path};
use std::alloc::Global;
use std::marker::Model;

/// Paths met in a tree, in the order of the text.
#[derive(Drop)]
pub(crate) struct Paths<'a> {
    items: Vec<&'a Path>,
}

impl<'a> Model for Paths<'a> {
    ghost use Rattle.std.specs.Prelude.{List, map};
    ghost use Rattle.std.specs.Borrow.{Bor};
    ghost use Rattle.rs_tree.specs.declared.tree.Path as path;

    ghost Value = { List path.Path };

    ghost view = { λ p. map (λ (x : Bor path.Path). x.now) p.items.items };
}

impl<'a> Paths<'a> {
    pub(crate) fn new(alloc: Global) -> Paths<'a>
        ensures { result ≡ [] }
    {
        Paths {
            items: Vec::new(alloc),
        }
    }

    pub(crate) fn as_slice(&self) -> &[&'a Path]
        ensures { map (λ (x : Bor path.Path). x.now) result.now ≡ self.now }
    {
        self.items.as_slice()
    }

    fn push(&mut self, path: &'a Path) -> Result<(), Memory>
        ensures { OnOk result (self.new ≡ self.old ++ path.now ∷ []) }
    {
        self.items.push(path)?;
        Ok(())
    }

    #[cycle(expression)]
    #[tactic(auto, using(crate::proofs::Steps::steps))]
    pub(crate) fn expression(&mut self, e: &'a Expr) -> Result<(), Memory>
        ensures { OnOk result (self.new ≡ self.old ++ leaves (exp e.now)) }
    {
        match &e.form {
            Form::Number(_) => Ok(()),
            Form::Truth(_) => Ok(()),
            Form::Path(path) => self.push(path),
            Form::Call(path, args) => {
                self.push(path)?;
                self.all(args.as_slice())
            }
            Form::Group(inner) => self.expression(inner.get()),
            Form::Unary(_, inner) => self.expression(inner.get()),
            Form::Arith(first, more) => {
                self.expression(first.get())?;
                self.operands(more.as_slice())
            }
            Form::Compare(_, a, b) => {
                self.expression(a.get())?;
                self.expression(b.get())
            }
            Form::And(parts) => self.all(parts.as_slice()),
            Form::Or(parts) => self.all(parts.as_slice()),
        }
    }

    #[cycle(expression)]
    #[tactic(auto, using(crate::proofs::Steps::steps))]
    fn all(&mut self, parts: &'a [Expr]) -> Result<(), Memory>
        ensures { OnOk result (self.new ≡ self.old ++ leaves_all (expressions parts.now)) }
    {
        for e in parts {
            self.expression(e)?;
        }
        Ok(())
    }

    #[cycle(expression)]
    #[tactic(auto, using(crate::proofs::Steps::steps))]
    fn operands(&mut self, more: &'a [(ArithOp, Expr)]) -> Result<(), Memory>
        ensures { OnOk result (self.new ≡ self.old ++ leaves_by (operations more.now)) }
    {
        for (_, e) in more {
            self.expression(e)?;
        }
        Ok(())
    }
}
