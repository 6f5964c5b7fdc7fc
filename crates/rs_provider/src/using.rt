//! What a function's form needs to know of an item that it names.

ghost use Rattle.std.specs.Prelude.{◌≡◌, None, IfOk, option_and_then};
ghost use Rattle.std.specs.Option.{option_map};
ghost use Rattle.rs_plans.specs.Plans.{constant_use, is_constant_at, is_public_at, typ_of, use_in};
ghost use Rattle.rs_plans.specs.Readings.{const_in, sig_in};

use crate::indexed::Indexed;
use crate::reading::{const_in, sig_in};
use inc_base::{Bytes, List, Memory};
use rs_tree::{Const, Place, Sig, Typ};
use std::alloc::Global;

/// A signature, and the value of a constant.
pub type Use = (Sig, Option<Const>);

/// What a value says of an item: the value of a constant of the index, the signature of another.
pub(crate) fn use_in(index: &Indexed, at: &Place, value: &Bytes) -> Result<Option<Use>, Memory>
    ensures { IfOk result (λ o. o ≡ use_in index.now at.now value.now) }
{
    if is_constant_at(index, at) {
        constant_in(is_public_at(index, at), value)
    } else {
        function_in(value)
    }
}

fn constant_in(public: bool, value: &Bytes) -> Result<Option<Use>, Memory>
    ensures { IfOk result (λ o. o ≡ option_and_then (constant_use public) (const_in value.now)) }
{
    match const_in(value)? {
        None => Ok(None),
        Some(constant) => Ok(constant_use(value.allocator(), public, constant)),
    }
}

fn function_in(value: &Bytes) -> Result<Option<Use>, Memory>
    ensures { IfOk result (λ o. o ≡ option_map (λ sig. (sig, None)) (sig_in value.now)) }
{
    match sig_in(value)? {
        None => Ok(None),
        Some(sig) => Ok(Some((sig, None))),
    }
}

fn constant_use(alloc: Global, public: bool, value: Const) -> Option<Use>
    ensures { result ≡ constant_use public value }
{
    match typ_of(value) {
        None => None,
        Some(gives) => Some((
            Sig {
                kind: 0,
                public,
                params: List::new(alloc),
                gives,
            },
            Some(value),
        )),
    }
}

fn typ_of(value: Const) -> Option<Typ>
    ensures { result ≡ typ_of value }
{
    match value {
        Const::Int(_) => Some(Typ::Int),
        Const::Bool(_) => Some(Typ::Bool),
        Const::Cycle => None,
        Const::Overflow => None,
        Const::DivZero => None,
        Const::Bad => None,
    }
}

/// Whether the item at a place is a constant, by the index.
pub(crate) fn is_constant_at(index: &Indexed, at: &Place) -> bool
    ensures { result ≡ is_constant_at index.now at.now }
{
    match index.item(at) {
        None => false,
        Some(item) => item.kind == 0,
    }
}

fn is_public_at(index: &Indexed, at: &Place) -> bool
    ensures { result ≡ is_public_at index.now at.now }
{
    match index.item(at) {
        None => false,
        Some(item) => item.public,
    }
}
