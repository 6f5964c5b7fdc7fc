use inc_base::Memory;
use std::alloc::Global;

/// An order in which to try the numbers, the last first: each comes after those that it names, where there is such an
/// order. Nothing rests on it but the time that settling takes.
pub(crate) fn order(alloc: Global, names: &[Vec<usize>]) -> Result<Vec<usize>, Memory> {
    let mut walk = Walk {
        seen: Vec::from_elem(alloc, false, names.len())?,
        open: Vec::new(alloc),
        order: Vec::with_capacity(alloc, names.len())?,
    };
    for root in 0..names.len() {
        walk.enter(root)?;
        walk.finish(names)?;
    }
    let mut order = walk.order;
    order.reverse();
    Ok(order)
}

/// A walk in depth: those seen, those that are open with how many of what they name was entered, and those left.
#[derive(Drop)]
struct Walk {
    seen: Vec<bool>,
    open: Vec<(usize, usize)>,
    order: Vec<usize>,
}

impl Walk {
    fn enter(&mut self, number: usize) -> Result<(), Memory> {
        if number >= self.seen.len() || self.seen[number] {
            return Ok(());
        }
        self.seen[number] = true;
        self.open.push((number, 0))?;
        Ok(())
    }

    // Enters what the open ones name, and leaves those all of whose names were entered.
    fn finish(&mut self, names: &[Vec<usize>]) -> Result<(), Memory> {
        for _ in 0..u64::MAX {
            match self.open.pop() {
                None => return Ok(()),
                Some((number, entered)) => self.step(names, number, entered)?,
            }
        }
        Ok(())
    }

    fn step(&mut self, names: &[Vec<usize>], number: usize, entered: usize) -> Result<(), Memory> {
        if number >= names.len() || entered >= names[number].len() {
            self.order.push(number)?;
            return Ok(());
        }
        self.open.push((number, entered + 1))?;
        self.enter(names[number][entered])
    }
}
