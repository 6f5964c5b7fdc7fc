//! Values that are read off bytes.

ghost use Rattle.std.specs.Prelude.{ℕ, List, IfOk};
ghost use Rattle.inc_wire.specs.Forms.{list_form};
ghost use Rattle.inc_wire.specs.Fits.{FitsList};
ghost use Rattle.inc_wire.specs.Readings.{IsReadAs, Takes};

use crate::cursor::Cursor;
use crate::front::take_u32;
use inc_base::{List, Memory};
use std::alloc::Global;

/// How values of a type are read back from their forms. The type that has the trait names the form, and is
/// often the values' own: a crate that stands above another's type names a form of that in a type of its own.
pub trait Read {
    /// The type of the values.
    type Value: Drop;

    /// The bytes of a value.
    ghost form: { Self.Value → List ℕ };

    /// The value is in the ranges of its type.
    ghost fits: { Self.Value → Type 0 };

    /// Takes a value off the front of the bytes, or answers None exactly where no value's form begins
    /// them. `Memory` where there is none for the value.
    fn take(alloc: Global, from: &mut Cursor) -> Result<Option<Self::Value>, Memory>
        ensures { IfOk result (Takes fits form from.old from.new) };
}

/// Takes a list: how many elements, in four bytes, and each, or answers None exactly where no such list is
/// next. The count asks for no memory by itself. `Memory` where there is none for the list.
pub fn take_list<T: Read>(
    alloc: Global,
    from: &mut Cursor,
) -> Result<Option<List<T::Value>>, Memory>
    ensures { IfOk result (Takes (FitsList T.fits) (list_form T.form) from.old from.new) }
{
    let Some(count) = take_u32(from) else {
        return Ok(None);
    };
    let mut items = List::new(alloc);
    'each: while items.len() < count as usize {
        let Some(item) = T::take(alloc, from)? else {
            return Ok(None);
        };
        items.push(item)?;
    }
    Ok(Some(items))
}

/// IsReadAs a value whose form the bytes are, from the first to the last, or answers None exactly where no
/// value has them.
pub fn read_whole<T: Read>(alloc: Global, bytes: &[u8]) -> Result<Option<T::Value>, Memory>
    ensures { IfOk result (IsReadAs T.fits T.form bytes.now) }
{
    let mut from = Cursor::new(bytes);
    let Some(value) = T::take(alloc, &mut from)? else {
        return Ok(None);
    };
    if from.left() > 0 {
        return Ok(None);
    }
    Ok(Some(value))
}
