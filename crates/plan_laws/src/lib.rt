//! What the queries of a text give, as laws: the values that the definitions of the clean build say.
//!
//! The plans of `rs_plans` and the clean build of `rs_queries` stand below. Open `specs/Texts.antt` first, and then `src/laws.rt`.
#![tactic(auto)]

mod assembly;
mod laws;
mod outcomes;

pub use assembly::{
    assembled_builds_are_clean, builds_by_queries_are_clean, constants_have_values,
    roots_are_valued,
};
pub use laws::{
    calls_are_valued, dead_functions_are_valued, forms_need_named_items, indexes_are_valued,
    items_are_valued, members_are_valued, signatures_are_valued, wrongs_need_named_items,
};
pub use outcomes::{
    constants_are_valued, constants_need_named_ones, diagnostics_are_valued, forms_are_valued,
    objects_are_valued,
};
