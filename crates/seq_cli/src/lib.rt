//! The top call of the program: what the words and the files ask for, the run, what is printed, and the status with which it ends.
#![tactic(auto)]

mod answer;
mod command;
mod files;
mod images;
mod laws;
mod opening;
mod parts;
mod printing;
mod running;
mod status;
mod top;

pub use laws::one_opening;
pub use printing::print_usage;
pub use seq_report::{Status, number};
pub use top::{add_line, sequoia};

#[cfg(test)]
mod tests;
