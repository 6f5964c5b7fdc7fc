//! Tests of the top call on a folder of the system.
//!
//! They show what no contract of the real directory says: what its steps do to files. All but `incc` stands
//! below. Open `two_builds_leave_two_finished_sessions` in `tests`.
#![tactic(auto)]

#[cfg(test)]
mod tests;
