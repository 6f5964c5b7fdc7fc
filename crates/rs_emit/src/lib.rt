//! The object of a unit: from the intermediate forms of its members to bytes that a linker takes.
//!
//! A label's offset is the sum of the lengths before its place, and a call has four zero bytes and a
//! relocation. `inc_base`, `inc_wire`, `rs_tree` and `rs_object` stand below. Open `specs/Objects.antt`
//! first, which says what the object of a unit is, and then `specs/Code.antt` and `specs/Symbols.antt`.
#![tactic(auto)]

mod code;
mod laws;
mod relocs;
mod starts;
mod symbols;
mod unit;

pub use laws::code_is_right;
pub use unit::emit;
