//! A query on its way, and the values that led it there.

ghost use Rattle.rs_provider.specs.Begun.{IsBegun};

use crate::state::State;
use inc_base::{Bytes, List};
use inc_query::Query;

/// A query, the level that it is asked at, the values that it was fed, and where it stands after them.
#[derive(Drop)]
pub struct Begun {
    pub q: Query,
    pub level: u8,
    pub fed: List<Bytes>,
    pub state: State,
    pub ghost is: { ∥ IsBegun level q fed state ∥₁ },
}
