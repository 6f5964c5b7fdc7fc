//! The clean build of a text: its diagnostics, its units, and, where nothing is wrong, its objects and its image; the limits of
//! texts.
//!
//! A text is read by `rs_text`, its paths resolved by `rs_names`, its items checked by `rs_check` with the values of `rs_const`,
//! its calls followed by `rs_reach`, its lines put in order by `rs_lines`; then its functions are lowered by `rs_lower`, gathered by
//! `rs_units`, emitted by `rs_emit` and linked by `rs_link`. Open `specs/Built.antt`, then `specs/Diagnosed.antt` and
//! `specs/Known.antt`.
#![tactic(auto)]

mod answered;
mod checked;
mod cleaning;
mod compiled;
mod compiling;
mod dead;
mod diagnosis;
mod fault;
mod forms;
mod known;
mod laws;
mod limit;
mod objects;
mod output;
mod own;
mod reading;

pub use cleaning::{clean, clean_read};
pub use compiled::{Built, CleanBuild, Compiled};
pub use compiling::{compile, compile_fault, compile_read};
pub use diagnosis::diagnose;
pub use laws::{texts_have_one_build, texts_have_one_diagnosis};
pub use limit::{Limit, over_limit, read_within};
pub use own::tell_main;
pub use reading::{Reading, read};
