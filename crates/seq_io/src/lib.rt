//! I/O elements, the ports of lines, and the duties between them.
#![tactic(auto)]

mod duties;
mod element;
mod laws;
mod lines;
mod turns;

pub use element::{IoElement, IoNote, PortState};
pub use laws::machines_are_wired;
pub use turns::turn;
