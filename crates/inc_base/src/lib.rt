//! The data that every layer passes on, and the outside that it is read from and written to.
//!
//! Lists whose length fits a `u32`, labels and names, compilers and jobs, the meter of emitted units,
//! and the traits of a source and a sink, with one of each in memory and one over std. Nothing of the
//! repository stands below. Open `Source` and `Sink` in `outside` first, and `specs/Texts.antt` for
//! what a label is.
#![tactic(auto)]

mod base36;
mod bytes;
mod copied;
mod job;
mod label;
mod list;
mod mem;
mod memory;
mod meter;
mod outside;
mod read;
mod roomy;
mod short;
mod stdio;

pub use base36::{from36, from36_wide, to36, to36_wide};
pub use bytes::Bytes;
pub use copied::Copied;
pub use job::{Compiler, Job, VERSION};
pub use label::{Label, Name};
pub use list::{List, MOST};
pub use mem::{MemSink, MemSource};
pub use memory::Memory;
pub use meter::{Meter, rises_add_up};
pub use outside::{Failed, Sink, Source, write_all};
pub use read::{ReadFault, read_to};
pub use roomy::Roomy;
pub use stdio::{StdSink, StdSource};
