ghost use Rattle.std.specs.Prelude.{◌≡◌, ◌++◌, ◌∷◌, [], IfOk};
ghost use Rattle.rs_provider.specs.Each.{turn_of};

use crate::left::Left;
use inc_base::{List, Memory};
use rs_tree::Place;

/// What was read of some places, the next that is asked about, and those after it.
#[derive(Drop)]
pub struct Each<T> {
    pub done: List<(Place, T)>,
    pub next: Place,
    pub left: Left,
}

/// A place is next, or all were read.
#[derive(Drop)]
pub enum Turn<T> {
    Next(Each<T>),
    All(List<(Place, T)>),
}

/// After these were read.
pub(crate) fn turned<T: Drop>(done: List<(Place, T)>, left: Left) -> Turn<T>
    ensures { result ≡ turn_of done left }
{
    match left.take() {
        Some((next, left)) => Turn::Next(Each { done, next, left }),
        None => Turn::All(done),
    }
}

impl<T: Drop> Each<T> {
    /// What was read of the next.
    pub(crate) fn with(self, value: T) -> Result<Turn<T>, Memory>
        ensures { IfOk result (λ t. t ≡ turn_of (self.done ++ (self.next, value) ∷ []) self.left) }
    {
        let Each { done, next, left } = self;
        let mut done = done;
        match done.push((next, value)) {
            Ok(()) => Ok(turned(done, left)),
            Err(refused) => {
                drop(done);
                drop(left);
                Err(refused)
            }
        }
    }
}
