//! Look-ups by name: the first of equal places, and the innermost local of a name.
//!
//! Both go through ordered maps, whose keys are slices of the text's bytes. `rs_tree` stands below, and what
//! resolves, checks and lowers above. Open `specs/Places.antt` and `specs/Env.antt` for what a look-up answers.
#![tactic(auto)]

mod keys;
mod order;
mod places;
mod scope;

pub use keys::places_of_items;
pub use order::Order;
pub use places::{Key, Places};
pub use scope::Scope;
