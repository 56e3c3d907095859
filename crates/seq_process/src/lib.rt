//! A process that runs on a processor, and its context between two checkpoints.
#![tactic(auto)]

mod contexts;
mod laws;
mod running;

pub use contexts::{load, next_cursor, save};
pub use laws::saved_is_inside;
pub use running::Running;

#[cfg(test)]
mod tests;
