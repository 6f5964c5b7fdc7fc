//! How a query is taken up where it was left.

ghost use Rattle.std.specs.Prelude.{◌≡◌, ◌∷◌, ◌++◌, [], take, length, IsTrue, IfOk, IfSome, OnOk};
ghost use Rattle.rs_provider.specs.Begun.{values_of};
ghost use Rattle.rs_provider.specs.Fitting.{Fits, WasFed};

use crate::begun::Begun;
use crate::desk::Desk;
use crate::state::State;
use inc_base::{Bytes, Copied, List, Memory};
use inc_query::Query;
use std::alloc::Global;

/// The query that is kept, where it is this one and the values that it was fed are those of the first of these reads; and else this one
/// before its first read.
pub(crate) fn resumed(
    kept: Option<Begun>,
    level: u8,
    q: &Query,
    known: &List<(Query, Bytes)>,
) -> Result<Begun, Memory>
    ensures { IfOk result (Fits level q.now known.now) }
{
    match fitting(kept, level, q, known.as_slice()) {
        Some(begun) => Ok(begun),
        None => Begun::new(known.allocator(), level, q),
    }
}

fn fitting(kept: Option<Begun>, level: u8, q: &Query, known: &[(Query, Bytes)]) -> Option<Begun>
    ensures { IfSome result (Fits level q.now known.now) }
{
    match kept {
        None => None,
        Some(begun) => {
            if begun.fits(level, q, known) {
                Some(begun)
            } else {
                drop(begun);
                None
            }
        }
    }
}

/// After all of these reads.
pub(crate) fn fed_all(desk: &Desk, begun: Begun, known: &[(Query, Bytes)]) -> Result<Begun, Memory>
    requires { begun.fed ≡ values_of (take (length begun.fed) known.now) }
    ensures { IfOk result (WasFed begun.level begun.q (values_of known.now)) }
{
    let first = begun.fed.len();
    let mut begun = begun;
    for i in first..known.len() {
        begun = begun.with(desk, &known[i].1)?;
    }
    Ok(begun)
}

impl Begun {
    fn new(alloc: Global, level: u8, q: &Query) -> Result<Begun, Memory>
        ensures { IfOk result (WasFed level q.now []) }
    {
        let copy = q.copy()?;
        match State::start(alloc, level, q) {
            Ok(state) => Ok(Begun {
                q: copy,
                level,
                fed: List::new(alloc),
                state,
            }),
            Err(refused) => {
                drop(copy);
                Err(refused)
            }
        }
    }

    fn fits(&self, level: u8, q: &Query, known: &[(Query, Bytes)]) -> bool
        ensures { IsTrue result → Fits level q.now known.now self.now }
    {
        self.level == level && self.q == *q && are_first(self.fed.as_slice(), known)
    }

    // After one more value.
    fn with(self, desk: &Desk, value: &Bytes) -> Result<Begun, Memory>
        ensures { IfOk result (WasFed self.level self.q (self.fed ++ value.now ∷ [])) }
    {
        let Begun {
            q,
            level,
            fed,
            state,
        } = self;
        let mut fed = fed;
        match add(&mut fed, value) {
            Err(refused) => {
                drop(q);
                drop(fed);
                drop(state);
                Err(refused)
            }
            Ok(()) => match state.fed(desk, value) {
                Err(refused) => {
                    drop(q);
                    drop(fed);
                    Err(refused)
                }
                Ok(state) => Ok(Begun {
                    q,
                    level,
                    fed,
                    state,
                }),
            },
        }
    }
}

fn add(fed: &mut List<Bytes>, value: &Bytes) -> Result<(), Memory>
    ensures { OnOk result (fed.new ≡ fed.old ++ value.now ∷ []) }
{
    fed.push(value.copy()?)
}

// Whether these values are those of the first reads.
fn are_first(values: &[Bytes], known: &[(Query, Bytes)]) -> bool
    ensures { IsTrue result → values.now ≡ values_of (take (length values.now) known.now) }
{
    if known.len() < values.len() {
        return false;
    }
    for i in 0..values.len() {
        if values[i].as_slice() != known[i].1.as_slice() {
            return false;
        }
    }
    true
}
