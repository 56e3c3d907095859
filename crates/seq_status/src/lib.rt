//! The status word of a process: how it stands, and which processor holds it.
#![tactic(auto)]

mod laws;
mod status;
mod step;

pub use laws::{statuses_are_read_back, words_are_written_back};
pub use status::{Holder, Status, of_word, to_word};
pub use step::Step;

#[cfg(test)]
mod tests;
