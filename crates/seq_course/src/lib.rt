//! The course of a schedule: its events, made of the machine one after the other, up to the first that ends the run.
#![tactic(auto)]

mod course;
mod ending;
mod laws;
mod making;
mod troubles;

pub use course::run;
pub use ending::Ending;
pub use laws::{courses_are_right, courses_check_uncovered, finishes_are_done};
pub use troubles::troubles_are_allowed;
