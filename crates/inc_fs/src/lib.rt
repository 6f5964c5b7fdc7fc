//! The directory of sessions: its steps, and a model of it in memory.
//!
//! A session asks for an `Op` and gets a `Reply`; what the outside decides of it is a `Chance`. `Fs`
//! answers by the table and ends sessions. `inc_base` stands below. Open `specs/State.antt` and then
//! `specs/Step.antt` first: the table is read aloud there, a row for each kind of step, and
//! `specs/Kinds.antt` has the kinds of replies of each row.
#![tactic(auto)]

mod drawn;
mod entries;
mod fs;
mod kinds;
pub mod laws;
mod op;
mod state;
mod table;

pub use fs::Fs;
pub use kinds::is_kind_of;
pub use op::{Chance, Op, Reply};
pub use state::{Entry, File, Handle, Lock};
pub use table::Table;
