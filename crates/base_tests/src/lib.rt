//! Tests of the crates that hold the data of every layer: their texts and bytes, and the directory in memory.
//!
//! They show what no clause says: worked bytes and names, and that calls answer well where there is memory.
//! `fs` asks the directory and a plain program over lists the same. The crates tested stand below, and no
//! other. Open `base` first.
#![tactic(auto)]

#[cfg(test)]
mod base;
#[cfg(test)]
mod fs;
#[cfg(test)]
mod names;
#[cfg(test)]
mod wire;
