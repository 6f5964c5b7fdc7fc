ghost use Rattle.std.specs.Prelude.{◌≡◌, [], drop, OnOk, IfOk};
ghost use Rattle.rs_tree.specs.Plain.{optional, plain_item, statements};
ghost use Rattle.rs_names.specs.Indexed.{is_root_main};
ghost use Rattle.rs_tree.specs.Plain.{definition};
ghost use Rattle.rs_check.specs.State.{Begins, checked_tail, given_by, is_constants, said};
ghost use Rattle.rs_check.specs.Items.{body_wrongs, end_wrongs, item_wrongs, lines, main_wrongs, value_wrongs};

use crate::body::{Checker, Declarations};
use crate::ends::some_ends;
use crate::lines::in_order;
use inc_base::{List, Memory};
use rs_diag::Fault;
use rs_lookup::Scope;
use rs_names::Names;
use rs_tree::{Body, Const, Diag, Expr, Found, Index, Item, Param, Place, Sig, Stmt, Typ};
use rs_types::{Answers, Sigs, Typer};
use std::alloc::Global;

/// What is wrong with an item, in order of place, number and text, each once (docs/LANGUAGE.md, "Diagnostics").
///
/// `module` is the item's module, empty for the root; `found` has what each path of the item leads to, in the order of
/// the text; `sigs` has each item that a path leads to, and an item that it lacks has no type and is no function; `value`
/// is the value of a constant. Where more than one item is asked for, `check_in` takes index and `sigs` made ready.
pub fn check_item<'a>(
    item: &'a Item,
    module: &'a [u8],
    index: &'a Index,
    found: &'a List<Found>,
    sigs: &'a List<(Place, Sig)>,
    value: Option<Const>,
) -> Result<List<Diag>, Memory>
    ensures { IfOk result (λ ds. ds ≡ lines (item_wrongs index.now.items sigs.now module.now found.now value (plain_item item.now))) }
{
    let alloc = index.items.allocator();
    let names = Names::new(index)?;
    let sigs = Sigs::new(alloc, sigs.as_slice())?;
    check_in(alloc, item, module, &names, found.as_slice(), &sigs, value)
}

/// The same, by an index and by what is known of items that were made ready.
pub fn check_in<'a, 'b>(
    alloc: Global,
    item: &'a Item,
    module: &'a [u8],
    names: &'b Names<'a>,
    found: &'a [Found],
    sigs: &'b Sigs<'a>,
    value: Option<Const>,
) -> Result<List<Diag>, Memory>
    ensures { IfOk result (λ ds. ds ≡ lines (item_wrongs names.now sigs.now module.now found.now value (plain_item item.now))) }
{
    let gives = gives_of(&item.body);
    let mut checker = Checker {
        typer: Typer {
            alloc,
            constant: is_const(&item.body),
            sigs,
            scope: Scope::new(alloc),
            locals: List::new(alloc),
            answers: Answers::new(found),
            diags: List::new(alloc),
            reads: List::new(alloc),
        },
        names,
        module,
        gives,
        declared: Declarations::new(alloc),
    };
    checker.item(item, value)?;
    in_order(alloc, checker.typer.diags)
}

fn is_const(body: &Body) -> bool
    ensures { result ≡ is_constants (definition body.now) }
{
    match body {
        Body::Const { .. } => true,
        Body::Func { .. } => false,
    }
}

fn gives_of(body: &Body) -> Typ
    ensures { result ≡ given_by (definition body.now) }
{
    match body {
        Body::Const { typ, .. } => *typ,
        Body::Func { gives, .. } => *gives,
    }
}

impl<'a, 'b> Checker<'a, 'b> {
    // All of an item, by a checker that stands at its beginning.
    fn item(&mut self, item: &'a Item, value: Option<Const>) -> Result<(), Memory>
        requires begins { Begins (is_constants (definition item.now.body)) (given_by (definition item.now.body)) self.old }
        ensures { OnOk result (self.new.typer.diags ≡ item_wrongs self.old.names.now self.old.typer.sigs.now self.old.module.now self.old.typer.answers value (plain_item item.now)) }
    {
        match &item.body {
            Body::Const { typ, value: e } => {
                self.typer.needed(e, *typ)?;
                self.value(item, value)
            }
            Body::Func {
                params,
                gives,
                stmts,
                tail,
                ..
            } => {
                let params = params.as_slice();
                let stmts = stmts.as_slice();
                self.main(item, params, *gives)?;
                self.params(params)?;
                self.statements(stmts)?;
                self.tail(tail)?;
                self.end(item, *gives, stmts, tail)?;
                self.unused()?;
                Ok(())
            }
        }
    }

    // A constant without a value.
    fn value(&mut self, item: &'a Item, value: Option<Const>) -> Result<(), Memory>
        ensures { OnOk result (self.new ≡ said (value_wrongs item.now.at item.now.name value) self.old) }
    {
        let name = item.name.as_slice();
        match value {
            None | Some(Const::Int(_)) | Some(Const::Bool(_)) | Some(Const::Bad) => Ok(()),
            Some(Const::Cycle) => self.typer.say(item.at, Fault::Cycle(name)),
            Some(Const::Overflow) => self.typer.say(item.at, Fault::Overflow(name)),
            Some(Const::DivZero) => self.typer.say(item.at, Fault::DivZero(name)),
        }
    }

    // The root's `main` takes nothing and gives nothing.
    fn main(&mut self, item: &'a Item, params: &'a [Param], gives: Typ) -> Result<(), Memory>
        ensures { OnOk result (self.new ≡ said (main_wrongs item.now.at (is_root_main self.old.module.now item.now.name) params.now gives) self.old) }
    {
        let main = self.module.is_empty() && item.name.as_slice() == b"main".as_slice();
        if main && (!params.is_empty() || gives != Typ::Unit) {
            return self.typer.say(item.at, Fault::BadMain);
        }
        Ok(())
    }

    // The last expression of a body must have what its function gives.
    #[tactic(auto, using(crate::proofs::Bodies::bodies))]
    fn tail(&mut self, tail: &'a Option<Expr>) -> Result<(), Memory>
        ensures { OnOk result (self.new ≡ checked_tail (optional tail.now) self.old) }
    {
        let gives = self.gives;
        match tail {
            None => Ok(()),
            Some(e) => {
                self.typer.needed(e, gives)?;
                Ok(())
            }
        }
    }

    // A function that gives something has a last expression, or its statements end.
    fn end(
        &mut self,
        item: &'a Item,
        gives: Typ,
        stmts: &'a [Stmt],
        tail: &'a Option<Expr>,
    ) -> Result<(), Memory>
        ensures { OnOk result (self.new ≡ said (end_wrongs item.now.at item.now.name gives (statements stmts.now) (optional tail.now)) self.old) }
    {
        if tail.is_none() && gives != Typ::Unit && !some_ends(stmts) {
            return self
                .typer
                .say(item.at, Fault::NoValue(item.name.as_slice()));
        }
        Ok(())
    }
}
