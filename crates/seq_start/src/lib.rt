//! The memories of a machine at its start.
#![tactic(auto)]

mod memories;

pub use memories::start_memories;
