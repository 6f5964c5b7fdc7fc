//! The linker: from the objects of a program's units to its image.
//!
//! Functions are numbered in the order of their objects, and the number of each relocation's symbol goes to
//! its place. `inc_base`, `inc_wire` and `rs_object` stand below. Open `specs/Linked.antt` first, which says
//! what linking gives, and then `specs/Image.antt`.
#![tactic(auto)]

mod code;
mod fault;
mod image;
mod linking;
mod numbers;

pub use fault::LinkFault;
pub use linking::link;
