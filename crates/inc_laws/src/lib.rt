//! What every legal history of a directory keeps.
//!
//! `inc_fs`, `inc_names`, `inc_wire` and `inc_proto` stand below. The ten invariants are said in
//! `specs/Invariants.antt`, which a reader should open first, over the readings of `specs/Readings.antt`;
//! `specs/Laws.antt` has what each event keeps. Each law is the contract of a call that does nothing;
//! `names_once`, `loaded_is_whole` and `newest_stands` answer for a ground.
#![tactic(auto)]

mod ahead;
mod counts;
mod events;
mod expects;
mod invariants;
mod loads;
mod published;
mod stands;
mod steps;

pub use counts::names_once;
pub use events::{
    beginnings_keep_laws, leavings_keep_laws, legal_histories_keep_laws, the_start_keeps_laws,
};
pub use expects::{
    drawn_names_are_new, given_handles_are_new, held_directories_are_found,
    listings_have_one_final, loads_are_one, own_files_are_found, own_steps_are_answered_in_kind,
    own_work_is_undisturbed, whole_loads_are_published,
};
pub use invariants::{events_leave_alone, the_invariants_hold};
pub use loads::loaded_is_whole;
pub use published::{drawn_pairs_differ, newest_entries_stand, published_entries_are_sessions};
pub use stands::newest_stands;
pub use steps::{
    appends_keep_laws, closes_keep_laws, directories_made_keep_laws, directories_removed_keep_laws,
    draws_keep_laws, files_created_keep_laws, files_unlinked_keep_laws, links_keep_laws,
    listings_keep_laws, lock_files_made_keep_laws, lock_files_opened_keep_laws,
    lock_files_removed_keep_laws, locks_tried_keep_laws, looks_keep_laws, reads_keep_laws,
    renames_keep_laws,
};
