//! What is timed: indexes with calls, and what is asked of them.

use inc_base::{Bytes, List, Memory};
use rs_tree::{Index, IndexItem, Place};
use rs_units::{CallGraph, members, units};
use std::alloc::Global;

pub const SMALL: usize = 1_000;

pub const LARGE: usize = 4_000;

/// How many modules an index has.
const MODULES: usize = 255;

/// Functions with what they call.
type Calls = List<(Place, List<Place>)>;

/// An index with the calls of its functions.
#[derive(Drop)]
pub struct Program {
    index: Index,
    calls: Calls,
}

/// What is asked of an index.
#[derive(Clone, Copy)]
pub enum Shape {
    /// The members of all units, where the inline functions of the root call each other in one chain and the function of
    /// each module calls the first.
    Chain,
    /// Their numbers alone.
    Numbers,
    /// The members of one unit of that index.
    One,
    /// The members of all units, where there are no inline functions.
    Own,
}

pub const SHAPES: [Shape; 4] = [Shape::Chain, Shape::Numbers, Shape::One, Shape::Own];

impl Shape {
    pub fn name(self) -> &'static str {
        match self {
            Shape::Chain => "all units of one chain",
            Shape::Numbers => "their numbers",
            Shape::One => "one unit of it",
            Shape::Own => "all units, no inline functions",
        }
    }

    /// An index of so many functions, beyond one for each module.
    pub fn program(self, alloc: Global, many: usize) -> Result<Program, Memory> {
        match self {
            Shape::Chain | Shape::Numbers | Shape::One => chain(alloc, many),
            Shape::Own => own(alloc, many),
        }
    }

    /// How many members there are.
    pub fn count(self, alloc: Global, program: &Program) -> Result<usize, Memory> {
        match self {
            Shape::Chain | Shape::Own => count_all(alloc, program),
            Shape::Numbers => count_numbers(alloc, program),
            Shape::One => Ok(members(b"m0", &program.index, &program.calls)?.len()),
        }
    }
}

fn count_all(alloc: Global, program: &Program) -> Result<usize, Memory> {
    let graph = CallGraph::new(&program.index, &program.calls)?;
    let mut count = 0usize;
    for unit in units(&program.index)?.as_slice() {
        count = count.saturating_add(graph.members(alloc, unit.as_slice())?.len());
    }
    Ok(count)
}

fn count_numbers(alloc: Global, program: &Program) -> Result<usize, Memory> {
    let graph = CallGraph::new(&program.index, &program.calls)?;
    let mut count = 0usize;
    for unit in units(&program.index)?.as_slice() {
        count = count.saturating_add(graph.numbers(alloc, unit.as_slice())?.len());
    }
    Ok(count)
}

fn chain(alloc: Global, many: usize) -> Result<Program, Memory> {
    let mut program = Program::new(alloc);
    for k in 0..many {
        let called = if k + 1 < many { Some(k + 1) } else { None };
        program.add(alloc, Bytes::new(alloc), k, 2, called)?;
    }
    program.add_modules(alloc, 1, Some(0))?;
    Ok(program)
}

fn own(alloc: Global, many: usize) -> Result<Program, Memory> {
    let mut program = Program::new(alloc);
    program.add_modules(alloc, many / MODULES + 1, None)?;
    Ok(program)
}

impl Program {
    fn new(alloc: Global) -> Program {
        let index = Index {
            modules: List::new(alloc),
            items: List::new(alloc),
        };
        Program {
            index,
            calls: List::new(alloc),
        }
    }

    // Modules with so many functions of kind 1 each, which call this function of the root.
    fn add_modules(
        &mut self,
        alloc: Global,
        each: usize,
        called: Option<usize>,
    ) -> Result<(), Memory> {
        for m in 0..MODULES {
            self.index.modules.push(name(alloc, 'm', m)?)?;
            for k in 0..each {
                self.add(alloc, name(alloc, 'm', m)?, k, 1, called)?;
            }
        }
        Ok(())
    }

    // A function, and its call of a function of the root.
    fn add(
        &mut self,
        alloc: Global,
        module: Bytes,
        number: usize,
        kind: u8,
        called: Option<usize>,
    ) -> Result<(), Memory> {
        let mut calls = List::new(alloc);
        if let Some(callee) = called {
            calls.push(Place {
                module: Bytes::new(alloc),
                name: name(alloc, 'f', callee)?,
            })?;
        }
        let caller = Place {
            module: Bytes::of(alloc, module.as_slice())?,
            name: name(alloc, 'f', number)?,
        };
        self.calls.push((caller, calls))?;
        self.index.items.push(IndexItem {
            module,
            name: name(alloc, 'f', number)?,
            kind,
            public: true,
        })
    }
}

fn name(alloc: Global, letter: char, number: usize) -> Result<Bytes, Memory> {
    let text = format!(in alloc; "{letter}{number}")?;
    Bytes::of(alloc, text.as_bytes())
}
