//! The bytes of an item's place.

ghost use Rattle.rs_forms.specs.Fits.{FitsPlace};
ghost use Rattle.rs_forms.specs.Forms.{place_form};

use inc_base::{Bytes, Memory};
use inc_wire::{Cursor, Field, Read, put_text};
use rs_tree::Place;
use std::alloc::Global;

/// The form of an item's place: its module and its name, each a text.
pub struct PlaceForm;

impl Read for PlaceForm {
    type Value = Place;

    ghost form = { place_form };

    ghost fits = { FitsPlace };

    fn take(alloc: Global, from: &mut Cursor) -> Result<Option<Place>, Memory> {
        let Some(module) = Bytes::take(alloc, from)? else {
            return Ok(None);
        };
        let Some(name) = Bytes::take(alloc, from)? else {
            return Ok(None);
        };
        Ok(Some(Place { module, name }))
    }
}

impl Field for PlaceForm {
    type Value = Place;

    ghost form = { place_form };

    ghost fits = { FitsPlace };

    fn put(place: &Place, to: &mut Bytes) -> Result<(), Memory> {
        put_text(to, place.module.as_slice())?;
        put_text(to, place.name.as_slice())
    }
}
