//! The pair of register sets of a processor. Both halves take each instruction, and a half that was struck shows where their
//! pcs or effects differ.
#![tactic(auto)]

mod halves;
#[cfg(test)]
mod tests;

pub use halves::{Pair, Turn};
pub use seq_words::Half;
