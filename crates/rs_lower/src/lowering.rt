ghost use Rattle.std.specs.Prelude.{◌≡◌, IfOk, slice_get};
ghost use Rattle.std.specs.Option.{option_copied, option_map};
ghost use Rattle.rs_tree.specs.declared.answers.Const.{Const};
ghost use Rattle.rs_tree.specs.declared.place.Place.{Place};
ghost use Rattle.rs_lookup.specs.Places.{place_name};
ghost use Rattle.rs_lower.specs.Meanings.{const_at, const_places};
ghost use Rattle.rs_types.specs.Types.{sig_at};

use inc_base::{List, Memory};
use rs_lookup::Places;
use rs_tree::{Const, Place, Sig};
use rs_types::Sigs;
use std::alloc::Global;
use std::marker::Model;

/// The signatures of items and the values of constants, made ready for look-ups. Contracts see it as the two lists, of whose equal
/// places the first counts (docs/FORMATS.md, "Lowering").
#[derive(Drop)]
pub struct Lowering<'a> {
    sigs: Sigs<'a>,
    consts: &'a [(Place, Const)],
    places: Places<'a>,
}

impl<'a> Model for Lowering<'a> {
    ghost use Rattle.std.specs.Prelude.{◌≡◌};
    ghost use Rattle.rs_lower.specs.Meanings.{Ready, const_places};

    ghost Value = { Ready };

    ghost view = { λ l. record { sigs = l.sigs; consts = l.consts.now } };

    ghost invariant = { λ l. l.places ≡ const_places l.consts.now };
}

impl<'a> Lowering<'a> {
    /// These signatures and values, in n log n. `Memory` where there is none for the maps.
    pub fn new(
        sigs: &'a List<(Place, Sig)>,
        consts: &'a List<(Place, Const)>,
    ) -> Result<Lowering<'a>, Memory>
        ensures { IfOk result (λ l. l ≡ record { sigs = sigs.now; consts = consts.now }) }
    {
        let alloc = sigs.allocator();
        let consts = consts.as_slice();
        let sigs = Sigs::new(alloc, sigs.as_slice())?;
        let places = places_of(alloc, consts)?;
        Ok(Lowering {
            sigs,
            consts,
            places,
        })
    }

    /// The signature of an item.
    pub(crate) fn sig(&self, place: &'a Place) -> Option<&'a Sig>
        ensures { option_copied result ≡ sig_at (place_name place.now) self.now.sigs }
    {
        self.sigs
            .find((place.module.as_slice(), place.name.as_slice()))
    }

    /// The value of a constant.
    pub(crate) fn constant(&self, place: &'a Place) -> Option<&'a Const>
        ensures { option_copied result ≡ const_at (place_name place.now) self.now.consts }
    {
        match self
            .places
            .find((place.module.as_slice(), place.name.as_slice()))
        {
            None => None,
            Some(at) => self.at(at),
        }
    }

    fn at(&self, at: usize) -> Option<&'a Const>
        ensures { option_copied result ≡ option_map (λ (e : Place × Const). e.1) (slice_get self.now.consts at) }
    {
        match self.consts.get(at) {
            None => None,
            Some((_, value)) => Some(value),
        }
    }
}

fn places_of(alloc: Global, consts: &[(Place, Const)]) -> Result<Places<'_>, Memory>
    ensures { IfOk result (λ p. p ≡ const_places consts.now) }
{
    let mut keys = Vec::with_capacity(alloc, consts.len())?;
    for (place, _) in consts {
        keys.push((place.module.as_slice(), place.name.as_slice()))?;
    }
    Places::new(alloc, keys)
}
