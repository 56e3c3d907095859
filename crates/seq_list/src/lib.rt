//! The listing of an image: the text of each instruction.
#![tactic(auto)]

mod digits;
mod laws;
mod listing;
mod text;

pub use laws::{operands_are_read, words_are_said};
pub use listing::list;

#[cfg(test)]
mod tests;
