ghost use Rattle.std.specs.Prelude.{◌≡◌};
ghost use Rattle.std.specs.Option.{option_copied};
ghost use Rattle.rs_lookup.specs.Places.{place_name};
ghost use Rattle.rs_lower.specs.Meanings.{const_at};
ghost use Rattle.rs_types.specs.Types.{sig_at};

use crate::lowering::Lowering;
use rs_tree::{Const, Place, Sig};
use std::marker::Model;

/// What is known of the items that paths lead to, whether the function gives a value, and whether its level folds.
#[derive(Drop)]
pub(crate) struct Known<'a, 'b> {
    ready: &'b Lowering<'a>,
    gives: bool,
    folds: bool,
}

impl<'a, 'b> Model for Known<'a, 'b> {
    ghost use Rattle.rs_lower.specs.Meanings.{Meanings};

    ghost Value = { Meanings };

    ghost view = { λ k. record { sigs = k.ready.now.sigs; consts = k.ready.now.consts; gives = k.gives; folds = k.folds } };
}

impl<'a, 'b> Known<'a, 'b> {
    pub(crate) fn new(ready: &'b Lowering<'a>, gives: bool, folds: bool) -> Known<'a, 'b>
        ensures { result ≡ record { sigs = ready.now.sigs; consts = ready.now.consts; gives = gives; folds = folds } }
    {
        Known {
            ready,
            gives,
            folds,
        }
    }

    /// The signature of an item.
    pub(crate) fn sig(&self, place: &'a Place) -> Option<&'a Sig>
        ensures { option_copied result ≡ sig_at (place_name place.now) self.now.sigs }
    {
        self.ready.sig(place)
    }

    /// The value of a constant.
    pub(crate) fn constant(&self, place: &'a Place) -> Option<&'a Const>
        ensures { option_copied result ≡ const_at (place_name place.now) self.now.consts }
    {
        self.ready.constant(place)
    }

    pub(crate) fn gives(&self) -> bool
        ensures { result ≡ self.now.gives }
    {
        self.gives
    }

    pub(crate) fn folds(&self) -> bool
        ensures { result ≡ self.now.folds }
    {
        self.folds
    }
}
