//! The names of session directories and of their lock files.
//!
//! A session has a moment and a random part. Its lock file, its working directory and its finalised
//! directory are entries of the crate's directory, named after them. `inc_base` stands below. Open
//! `specs/Entries.antt` first: it says which text each entry has, and which session is newer.
#![tactic(auto)]

mod entry;
mod laws;
mod order;
mod read;
mod session;
mod write;

pub use entry::Entry;
pub use laws::entries_differ;
pub use order::{names_are_ordered, newer};
pub use read::read_entry;
pub use session::SessionName;
pub use write::{crate_dir, entry_text};
