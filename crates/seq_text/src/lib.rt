//! What every text format is made of: lines, words and numbers.
#![tactic(auto)]

mod cutting;
mod lines;
mod numbers;
mod words;

pub use cutting::cut_at;
pub use lines::next_line;
pub use numbers::{TOO_LARGE, is_below, number};
pub use words::first_word;

#[cfg(test)]
mod tests;
