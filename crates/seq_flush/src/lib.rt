//! The two-pass flush of a process as typed states: a turn of the wrong state doesn't compile.
#![tactic(auto)]

mod flush;
mod laws;
mod stages;

pub use flush::Flush;
pub use laws::{states_survive, turns_are_counted, turns_know, writing_what_is_left};
pub use seq_status::Step;
pub use stages::{Close, Closed, First, Mark, Second};

#[cfg(test)]
mod tests;
