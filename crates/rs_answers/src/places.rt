//! The bytes of lists of places.

ghost use Rattle.std.specs.Prelude.{◌≡◌, IfOk};
ghost use Rattle.inc_wire.specs.Readings.{IsReadAs};
ghost use Rattle.rs_answers.specs.Fits.{FitsPlaces};
ghost use Rattle.rs_answers.specs.Forms.{places_form};

use inc_base::{Bytes, List, Memory};
use inc_wire::{put_all, read_whole};
use rs_forms::PlaceForm;
use rs_tree::Place;
use std::alloc::Global;

/// The bytes of places, in their order. `Memory` where there is none for them. (docs/FORMATS.md, "Queries")
pub fn places_bytes(places: &List<Place>) -> Result<Bytes, Memory>
    ensures bytes { IfOk result (λ bytes. bytes ≡ places_form places.now) }
    ensures range { IfOk result (λ bytes. FitsPlaces places.now) }
{
    let mut bytes = Bytes::new(places.allocator());
    put_all::<PlaceForm>(&mut bytes, places.as_slice())?;
    Ok(bytes)
}

/// Places, from their bytes, as `places_bytes` gives them. None exactly where no places have these bytes. `Memory` where there is none
/// for them. (docs/FORMATS.md, "Queries")
pub fn read_places(alloc: Global, bytes: &[u8]) -> Result<Option<List<Place>>, Memory>
    ensures { IfOk result (IsReadAs FitsPlaces places_form bytes.now) }
{
    read_whole::<List<PlaceForm>>(alloc, bytes)
}
