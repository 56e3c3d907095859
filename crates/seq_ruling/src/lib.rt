//! The status words that rule, who awaits recovery, and what a machine check names.
#![tactic(auto)]

mod checks;
mod statuses;

pub use checks::check;
pub use statuses::{awaiting, awaits, is_deserted, live, ruling};

#[cfg(test)]
mod tests;
