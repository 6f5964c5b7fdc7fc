//! The files of a session: made of a graph and the values kept of it, read back, and compared.
//!
//! Below it stand `inc_base`, `inc_wire`, `inc_graph` and `rs_object`. Open `specs/Saved.antt` first, which says what
//! stands in the files, then `specs/Starts.antt`, which says what they are read as, and `specs/Plans.antt`.
#![tactic(auto)]

mod change;
mod front;
mod judge;
mod kept;
mod laws;
mod load;
mod named;
mod names;
mod part;
mod saved;
mod start;
mod walk;

pub use change::{Change, plan};
pub use front::{Front, read_front};
pub use laws::{files_are_read_back, plans_turn_old_into_wanted};
pub use load::read_files;
pub use named::{FileSet, Named};
pub use names::{cache_name, graph_name, object_name, products_name};
pub use part::Part;
pub use saved::{demanded, files_of};
pub use start::Start;
