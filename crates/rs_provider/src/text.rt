//! What a text gives: its index or its fault, and its items.

ghost use Rattle.std.specs.Prelude.{◌≡◌, [], IfOk};
ghost use Rattle.rs_lookup.specs.Places.{place_name};
ghost use Rattle.rs_plans.specs.Plans.{fault_at, index_by, index_fault, item_value};
ghost use Rattle.rs_queries.specs.Reading.{what_was_read};
ghost use Rattle.rs_text.specs.Text.{text_of};

use crate::desk::Desk;
use crate::readied::Readied;
use inc_base::{Bytes, Copied, Memory};
use rs_forms::{fault_bytes, index_bytes, item_bytes};
use rs_names::index;
use rs_queries::Reading;
use rs_text::TextFault;
use rs_tree::{At, IndexFault, Place};
use std::alloc::Global;

/// The index of a text, or its fault.
pub(crate) fn index_value(desk: &Desk, text: &Bytes) -> Result<Bytes, Memory>
    ensures { IfOk result (λ v. v ≡ index_by (text_of text.now)) }
{
    let read = desk.text(text)?;
    index_read(text.allocator(), read.as_ref().reading())
}

fn index_read(alloc: Global, reading: &Reading) -> Result<Bytes, Memory>
    ensures { IfOk result (λ v. v ≡ index_by (what_was_read reading.now)) }
{
    match reading {
        Reading::Tree(tree) => {
            let index = index(tree)?;
            index_bytes(&index)
        }
        Reading::Fault(fault) => {
            let fault = index_fault(alloc, fault)?;
            fault_bytes(&fault)
        }
    }
}

fn index_fault(alloc: Global, fault: &TextFault) -> Result<IndexFault, Memory>
    ensures { IfOk result (λ f. f ≡ index_fault fault.now) }
{
    match fault {
        TextFault::Byte(at) => Ok(fault_of(alloc, *at, rs_tree::TextFault::Byte)),
        TextFault::Nesting(at) => Ok(fault_of(alloc, *at, rs_tree::TextFault::Nesting)),
        TextFault::Syntax(at) => Ok(fault_of(alloc, *at, rs_tree::TextFault::Syntax)),
        TextFault::Twice(at, name) => Ok(IndexFault {
            at: *at,
            code: rs_tree::TextFault::Twice,
            name: name.copy()?,
        }),
        TextFault::Memory => Ok(fault_of(
            alloc,
            At { line: 0, column: 0 },
            rs_tree::TextFault::Byte,
        )),
    }
}

fn fault_of(alloc: Global, at: At, code: rs_tree::TextFault) -> IndexFault
    ensures { result ≡ record { at = at; code = code; name = [] } }
{
    IndexFault {
        at,
        code,
        name: Bytes::new(alloc),
    }
}

/// The item at a place of a text, and nothing where there is none.
pub(crate) fn item_value(desk: &Desk, at: &Place, text: &Bytes) -> Result<Bytes, Memory>
    ensures { IfOk result (λ v. v ≡ item_value (place_name at.now) (text_of text.now)) }
{
    let read = desk.text(text)?;
    item_found(text.allocator(), at, read.as_ref())
}

#[tactic(auto, using(crate::proofs::Placing::value_read))]
fn item_found(alloc: Global, at: &Place, reading: &Readied) -> Result<Bytes, Memory>
    ensures { IfOk result (λ v. v ≡ item_value (place_name at.now) (what_was_read reading.now)) }
{
    match reading.item(at) {
        Some(item) => item_bytes(item),
        None => Ok(Bytes::new(alloc)),
    }
}
