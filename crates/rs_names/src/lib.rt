//! Names: the index of a text, and what each path of an item leads to.
//!
//! Modules and items are found through a map made once from the index, locals through the scope. `rs_tree` and
//! `rs_lookup` stand below, and what checks and lowers above. Open `specs/Indexed.antt` for the index and
//! `specs/Resolved.antt` for the rules of resolution.
#![tactic(auto)]

mod items;
mod laws;
mod listing;
mod locals;
mod paths;
mod resolve;

pub use items::Names;
pub use laws::answers_are_paths;
pub use listing::index;
pub use resolve::{resolve_in, resolve_item};
