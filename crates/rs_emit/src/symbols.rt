ghost use Rattle.std.specs.Prelude.{◌≡◌, IfOk};
ghost use Rattle.rs_emit.specs.Symbols.{symbol_of, unit_text, symbol_in, is_copied, is_main};

use inc_base::{Bytes, Memory};
use rs_tree::Place;
use std::alloc::Global;

/// The symbol of a function, or of its copy in a unit (docs/FORMATS.md, "Symbols").
pub(crate) fn symbol_in(
    alloc: Global,
    unit: &[u8],
    copied: bool,
    place: &Place,
) -> Result<Bytes, Memory>
    ensures { IfOk result (λ s. s ≡ symbol_in unit.now copied place.now) }
{
    let mut symbol = symbol_of(alloc, place)?;
    if copied {
        symbol.append(b"@")?;
        symbol.append(unit_text(unit))?;
    }
    Ok(symbol)
}

fn symbol_of(alloc: Global, place: &Place) -> Result<Bytes, Memory>
    ensures { IfOk result (λ s. s ≡ symbol_of place.now) }
{
    if place.module.is_empty() {
        return Bytes::of(alloc, place.name.as_slice());
    }
    let mut symbol = Bytes::of(alloc, place.module.as_slice())?;
    symbol.append(b"::")?;
    symbol.append(place.name.as_slice())?;
    Ok(symbol)
}

/// The text of a unit.
pub(crate) fn unit_text(unit: &[u8]) -> &[u8]
    ensures { result.now ≡ unit_text unit.now }
{
    if unit.is_empty() { b"crate" } else { unit }
}

/// Whether each unit that calls a function has a copy of its own.
pub(crate) fn is_copied(inline: bool, place: &Place) -> bool
    ensures { result ≡ is_copied inline place.now }
{
    inline && !is_main(place)
}

fn is_main(place: &Place) -> bool
    ensures { result ≡ is_main place.now }
{
    place.module.is_empty() && place.name.as_slice() == b"main".as_slice()
}
