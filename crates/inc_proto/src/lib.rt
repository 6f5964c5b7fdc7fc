//! The history of a directory: what sessions did, in one order, what it says of each of them, and what a
//! session may do.
//!
//! `inc_base`, `inc_fs`, `inc_names` and `inc_wire` stand below. An `Event` is the beginning of a session,
//! one of its steps with the reply, or its leaving. A `Ground` is a directory in memory with its legal
//! history, and a `View` is what one session sees of it. Open `specs/Events.antt` first, for what a history
//! says of a session, then `specs/Permits.antt`, for what a session may do, and `specs/Legal.antt`.
#![tactic(auto)]

mod clear;
mod content;
mod enrolled;
mod entries;
mod event;
mod forward;
mod ground;
mod holds;
mod index;
mod laws;
mod legal_laws;
mod may;
mod own;
mod own_dir;
mod permits;
mod published;
mod sought;
mod standing;
mod told;
mod view;

pub use content::Content;
pub use event::{Event, History};
pub use ground::Ground;
pub use laws::{
    growing_keeps_possible, growing_tells_steps, histories_lead_on, own_events_tell_all,
    sessions_begin_first,
};
pub use legal_laws::{legal_histories_lead_on, others_change_no_view, own_steps_bring_forward};
pub use own::{Known, OwnLock};
pub use view::View;
