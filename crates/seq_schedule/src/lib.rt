//! Schedules of a machine's events, as a text says them.
#![tactic(auto)]

mod forms;
mod known;
mod laws;
mod limits;
mod lines;
mod needed;
mod numbers;
mod outs;
mod reading;
mod rules;
mod script;
mod tables;
mod tally;

pub use forms::{Form, Gate, is_taken};
pub use laws::{gate_keeps_texts, items_are_there, texts_are_faultless, turns_are_counted};
pub use limits::{MOST_LINES, MOST_TIMES, MOST_TURNS};
pub use lines::{Said, read_line};
pub use outs::OutState;
pub use reading::{parse, read};
pub use rules::turns_in;
pub use script::{Item, Script};
