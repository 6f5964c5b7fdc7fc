//! The bytes of what is found of items: values of constants, diagnostics, and lists of places, written and read back.
//!
//! They are values of queries, as the forms of `rs_forms` are (docs/FORMATS.md, "Queries"). `inc_wire` stands below with fields and
//! readers. Each form has a writer, which says that the value is in its type's ranges, and a reader, which answers the one value whose
//! form bytes are. Open `specs/Forms.antt` first.
#![tactic(auto)]

mod constant;
mod diags;
mod laws;
mod places;

pub use constant::{ConstForm, const_bytes, read_const};
pub use diags::{DiagForm, diags_bytes, read_diags};
pub use laws::{answers_are_answered, answers_are_read_back, answers_differ};
pub use places::{places_bytes, read_places};
