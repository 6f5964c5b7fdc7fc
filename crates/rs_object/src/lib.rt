//! Objects: the functions of a unit, ready to be linked, and their bytes.
//!
//! Below it stand `inc_base` and `inc_wire`. What is emitted is an object, and a linker makes an image of
//! several. Open `specs/Forms.antt` first, which says which bytes an object has, and
//! `specs/Grammar.antt`, which says where relocations may stand.
#![tactic(auto)]

mod grammar;
mod laws;
mod object;
mod reading;
mod writing;

pub use grammar::is_in_grammar;
pub use laws::objects_differ;
pub use object::{Func, Object};
pub use reading::decode_object;
pub use writing::encode_object;
