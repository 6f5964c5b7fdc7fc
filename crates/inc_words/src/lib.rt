//! The words of a command: what they ask for, and the places that they name.
//!
//! `inc_base` stands below. `read_words` tells what a top call has to do, and `places` what whoever makes the call has to open; both
//! accept exactly the words of one definition. Open `specs/Words.antt` first.
#![tactic(auto)]

mod options;
mod words;

pub use words::{Command, OpenPlaces, places, read_words};
