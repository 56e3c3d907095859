//! Memory elements: their state, blocks and words.
#![tactic(auto)]

mod element;

pub use element::{Memories, MemoryElement, State};

#[cfg(test)]
mod tests;
