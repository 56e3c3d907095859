//! What the program prints: the report of a run, and the single lines of all else.
#![tactic(auto)]

mod laws;
mod lines;
mod put;
mod reports;
mod status;

pub use laws::{reports_tell_status, texts_end_lines};
pub use lines::{assembled, single};
pub use reports::report;
pub use status::{Status, is_reported, is_single, number};

#[cfg(test)]
mod tests;
