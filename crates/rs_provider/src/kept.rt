//! What is kept between calls.

ghost use Rattle.std.specs.Prelude.{◌≡◌, Some};
ghost use Rattle.rs_plans.specs.Readings.{index_in};
ghost use Rattle.rs_queries.specs.Reading.{IsReading};

use crate::indexed::Indexed;
use crate::readied::Readied;
use inc_base::Bytes;
use std::rc::Rc;

/// A text and its reading.
#[derive(Drop)]
pub struct ReadText {
    pub bytes: Bytes,
    pub reading: Rc<Readied>,
    pub ghost is: { ∥ IsReading bytes reading.value ∥₁ },
}

/// The bytes of an index, and the index.
#[derive(Drop)]
pub struct ReadIndex {
    pub bytes: Bytes,
    pub index: Rc<Indexed>,
    pub ghost is: { ∥ Some index.value ≡ index_in bytes ∥₁ },
}
