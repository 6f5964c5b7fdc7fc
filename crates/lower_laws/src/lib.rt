//! What the folding of constant expressions keeps, as laws.
//!
//! `rs_lower` stands below, and nothing above. Open `specs/Seen.antt` first, and then `src/laws.rt`.
#![tactic(auto)]

mod laws;

pub use laws::{
    folding_keeps_values, folding_needs_no_more, level_0_folds_nothing, values_are_folded,
};
