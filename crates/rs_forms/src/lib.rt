//! The bytes of what the passes of the compiler hand on, written and read back.
//!
//! `inc_wire` stands below with fields and readers, `rs_tree` with the types. Each form has a writer, which says
//! that the value is in its type's ranges, and a reader, which answers the one value whose form bytes are. A type
//! named `..Form` is a form, for what holds such a value. Open `specs/Forms.antt` first, then `specs/Fits.antt`.
#![tactic(auto)]

mod fault;
mod index;
mod ir;
mod item;
mod laws;
mod place;
mod sig;

pub use fault::{FaultForm, fault_bytes, read_fault};
pub use index::{IndexForm, IndexItemForm, index_bytes, read_index};
pub use ir::{InstrForm, IrForm, ir_bytes, read_ir};
pub use item::{TokenForm, item_bytes, read_item};
pub use laws::{forms_are_answered, forms_are_read_back, forms_differ};
pub use place::PlaceForm;
pub use sig::{SigForm, TypForm, read_sig, sig_bytes};
