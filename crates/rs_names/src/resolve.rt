ghost use Rattle.std.specs.Prelude.{◌≡◌, [], IfOk, OnOk};
ghost use Rattle.rs_tree.specs.Plain.{definition, exp, sta, statements, choices, optional, While, If};
ghost use Rattle.rs_lookup.specs.Keys.{plain};
ghost use Rattle.rs_names.specs.Resolved.{answers_of, answer_by, item_answer, is_visible};
ghost use Rattle.rs_names.specs.State.{with_name, within, told_sta, told_stas, told_block, told_arms, told_tail, told_path, told_exp};

use crate::items::Names;
use crate::locals::Locals;
use crate::paths::Paths;
use inc_base::{Bytes, Copied, List, Memory};
use rs_lookup::Key;
use rs_tree::{Body, Expr, Found, Index, IndexItem, Item, Param, Path, Place, Stmt};
use sqlite_items::Items;
use std::alloc::Global;

/// What each path of an item leads to, in the order of the text (docs/LANGUAGE.md, "Names").
///
/// `module` is the item's module, empty for the root. Where more than one item is asked for, `resolve_in` makes
/// the index ready once.
pub fn resolve_item<'a>(
    item: &'a Item,
    module: &'a [u8],
    index: &'a Index,
) -> Result<List<Found>, Memory>
    ensures { IfOk result (λ it. it ≡ answers_of index.now.items module.now (definition item.now.body)) }
{
    let names = Names::new(index)?;
    resolve_in(index.items.allocator(), item, module, &names)
}

/// The same, by an index that was made ready.
pub fn resolve_in<'a>(
    alloc: Global,
    item: &'a Item,
    module: &'a [u8],
    names: &Names<'a>,
) -> Result<List<Found>, Memory>
    ensures { IfOk result (λ it. it ≡ answers_of names.now module.now (definition item.now.body)) }
{
    let mut resolver = Resolver {
        alloc,
        names,
        module,
        locals: Locals::new(alloc),
        found: List::new(alloc),
    };
    resolver.body(&item.body)?;
    Ok(resolver.found)
}

/// What was found so far, and the locals in scope.
#[derive(Drop)]
pub(crate) struct Resolver<'a, 'b> {
    pub alloc: Global,
    pub names: &'b Names<'a>,
    pub module: &'a [u8],
    pub locals: Locals<'a>,
    pub found: List<Found>,
}

impl<'a, 'b> Resolver<'a, 'b> {
    #[tactic(auto, using(crate::proofs::Bodies::bodies))]
    fn body(&mut self, body: &'a Body) -> Result<(), Memory>
        requires fresh { self.old.locals ≡ [] }
        requires empty { self.old.found ≡ [] }
        ensures { OnOk result (self.new.found ≡ answers_of self.old.names.now self.old.module.now (definition body.now)) }
    {
        match body {
            Body::Const { value, .. } => self.expression(value),
            Body::Func {
                params,
                stmts,
                tail,
                ..
            } => {
                self.params(params.as_slice())?;
                self.statements(stmts.as_slice())?;
                self.optional(tail)
            }
        }
    }

    fn params(&mut self, params: &'a [Param]) -> Result<(), Memory>
        ensures { OnOk result (self.new ≡ within params.now self.old) }
    {
        for param in params {
            self.locals.declare(param.name.as_slice())?;
        }
        Ok(())
    }

    #[cycle(statement)]
    #[tactic(auto, using(crate::proofs::Bodies::bodies))]
    fn statement(&mut self, s: &'a Stmt) -> Result<(), Memory>
        ensures { OnOk result (self.new ≡ told_sta (sta s.now) self.old) }
    {
        match s {
            Stmt::Let { name, value, .. } => self.binding(name, value),
            Stmt::Assign { value, .. } => self.expression(value),
            Stmt::Return { value, .. } => self.optional(value),
            Stmt::Eval(value) => self.expression(value),
            Stmt::Print(value) => self.expression(value),
            Stmt::While { cond, body } => self.repetition(body.as_slice(), cond),
            Stmt::If { arms, other } => self.choice(arms.as_slice(), other),
        }
    }

    fn binding(&mut self, name: &'a Bytes, value: &'a Expr) -> Result<(), Memory>
        ensures { OnOk result (self.new ≡ with_name name.now (told_exp (exp value.now) self.old)) }
    {
        self.expression(value)?;
        self.locals.declare(name.as_slice())
    }

    #[cycle(statement)]
    #[tactic(auto, using(crate::proofs::Bodies::bodies))]
    fn repetition(&mut self, body: &'a [Stmt], cond: &'a Expr) -> Result<(), Memory>
        ensures { OnOk result (self.new ≡ told_sta (While (exp cond.now) (statements body.now)) self.old) }
    {
        self.expression(cond)?;
        self.block(body)
    }

    #[cycle(statement)]
    #[tactic(auto, using(crate::proofs::Bodies::bodies))]
    fn block(&mut self, body: &'a [Stmt]) -> Result<(), Memory>
        ensures { OnOk result (self.new ≡ told_block (statements body.now) self.old) }
    {
        let depth = self.locals.depth();
        self.statements(body)?;
        self.locals.leave(depth);
        Ok(())
    }

    #[cycle(statement)]
    #[tactic(auto, using(crate::proofs::Bodies::bodies))]
    fn statements(&mut self, body: &'a [Stmt]) -> Result<(), Memory>
        ensures { OnOk result (self.new ≡ told_stas (statements body.now) self.old) }
    {
        for s in body {
            self.statement(s)?;
        }
        Ok(())
    }

    #[cycle(statement)]
    #[tactic(auto, using(crate::proofs::Bodies::bodies))]
    fn choice(
        &mut self,
        arms: &'a [(Expr, Items<Stmt>)],
        other: &'a Option<Items<Stmt>>,
    ) -> Result<(), Memory>
        ensures { OnOk result (self.new ≡ told_sta (If (choices arms.now other.now)) self.old) }
    {
        for arm in arms {
            self.expression(&arm.0)?;
            self.block(arm.1.as_slice())?;
        }
        self.otherwise(other)
    }

    #[cycle(statement)]
    #[tactic(auto, using(crate::proofs::Bodies::bodies))]
    fn otherwise(&mut self, other: &'a Option<Items<Stmt>>) -> Result<(), Memory>
        ensures { OnOk result (self.new ≡ told_arms (choices [] other.now) self.old) }
    {
        match other {
            None => Ok(()),
            Some(body) => {
                self.block(body.as_slice())?;
                Ok(())
            }
        }
    }

    fn optional(&mut self, value: &'a Option<Expr>) -> Result<(), Memory>
        ensures { OnOk result (self.new ≡ told_tail (optional value.now) self.old) }
    {
        match value {
            None => Ok(()),
            Some(e) => {
                self.expression(e)?;
                Ok(())
            }
        }
    }

    fn expression(&mut self, e: &'a Expr) -> Result<(), Memory>
        ensures { OnOk result (self.new ≡ told_exp (exp e.now) self.old) }
    {
        let mut paths = Paths::new(self.alloc);
        paths.expression(e)?;
        for path in paths.as_slice() {
            self.path(path)?;
        }
        Ok(())
    }

    fn path(&mut self, path: &'a Path) -> Result<(), Memory>
        ensures { OnOk result (self.new ≡ told_path path.now self.old) }
    {
        let found = self.answer(path)?;
        self.found.push(found)
    }

    // The four forms of paths.
    fn answer(&self, path: &'a Path) -> Result<Found, Memory>
        ensures { IfOk result (λ f. f ≡ answer_by self.now.names.now self.now.module.now self.now.locals path.now.rooted path.now.module path.now.name) }
    {
        let name = path.name.as_slice();
        match &path.module {
            Some(module) => {
                if !path.rooted && !self.module.is_empty() {
                    return Ok(Found::Absent);
                }
                self.item((module.as_slice(), name))
            }
            None => {
                if path.rooted {
                    return self.item((b"".as_slice(), name));
                }
                if self.locals.has(name) {
                    return Ok(Found::Local);
                }
                self.item((self.module, name))
            }
        }
    }

    fn item(&self, key: Key<'a>) -> Result<Found, Memory>
        ensures { IfOk result (λ f. f ≡ item_answer self.now.names.now self.now.module.now (plain key.entry)) }
    {
        match self.names.find(key) {
            None => Ok(Found::Absent),
            Some(item) => {
                if !is_visible(self.module, key.0, item) {
                    return Ok(Found::Private);
                }
                Ok(Found::Item(place_of(self.alloc, key)?))
            }
        }
    }
}

fn is_visible(from: &[u8], module: &[u8], item: &IndexItem) -> bool
    ensures { result ≡ is_visible from.now module.now item.now }
{
    item.public || module == b"".as_slice() || module == from
}

fn place_of(alloc: Global, key: Key<'_>) -> Result<Place, Memory>
    ensures { IfOk result (λ p. p ≡ record { «module» = (plain key.entry).0; name = (plain key.entry).1 }) }
{
    Ok(Place {
        module: Bytes::of(alloc, key.0)?,
        name: Bytes::of(alloc, key.1)?,
    })
}
