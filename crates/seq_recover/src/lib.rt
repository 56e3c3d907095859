//! The recovery of a process, turn by turn, as typed states: a turn of the wrong state doesn't compile.
#![tactic(auto)]

mod claiming;
mod closing;
mod copying;
mod laws;
mod locks;
mod recovery;
mod words;

pub use laws::states_survive;
pub use recovery::{Claimed, Closing, Copying, Locks, Recovered, Recovery};
pub use seq_status::Step;

#[cfg(test)]
mod tests;
