//! Values that stand in bytes one after the other.

ghost use Rattle.std.specs.Prelude.{◌≡◌, ◌++◌, ◌<◌, ◌^◌, ℕ, List, length, OnOk};
ghost use Rattle.inc_wire.specs.Fits.{FitsList};
ghost use Rattle.inc_wire.specs.Forms.{list_form};

use crate::put::put_number;
use inc_base::{Bytes, Memory};

/// How values of a type are written in their forms. The type that has the trait names the form, as in `Read`.
pub trait Field {
    /// The type of the values.
    type Value;

    /// The bytes of a value.
    ghost form: { Self.Value → List ℕ };

    /// What is so of each value that is written, as that its numbers are in their ranges.
    ghost fits: { Self.Value → Type 0 };

    /// Appends the value's bytes. `Memory` where there is no room for all of them; a front of them may then
    /// stand.
    fn put(value: &Self::Value, to: &mut Bytes) -> Result<(), Memory>
        ensures bytes { OnOk result (to.new ≡ to.old ++ form value.now) }
        ensures range { OnOk result (fits value.now) };
}

/// Appends a list: how many elements, in four bytes, and each. `Memory` where there is no room for all of
/// it; a front of its bytes may then stand. (docs/FORMATS.md, "Fields")
pub fn put_all<T: Field>(to: &mut Bytes, items: &[T::Value]) -> Result<(), Memory>
    requires { length items.now < 2 ^ 32 }
    ensures bytes { OnOk result (to.new ≡ to.old ++ list_form T.form items.now) }
    ensures range { OnOk result (FitsList T.fits items.now) }
{
    put_number(to, 4, items.len() as u64)?;
    for item in items {
        T::put(item, to)?;
    }
    Ok(())
}
