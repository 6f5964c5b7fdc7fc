//! Tests of the trees, of their byte forms and of tokens.
//!
//! They show what no clause says: the bytes of one value of each form, read back, bytes that no value has, the
//! kinds of some texts, and that what may fail for want of memory succeeds where there is enough.
#![tactic(auto)]

#[cfg(test)]
mod forms;
#[cfg(test)]
mod function;
#[cfg(test)]
mod trees;
