//! How many entries the history of a schedule's course has at most: the room for them, and the law that they fit.
#![tactic(auto)]

mod laws;
mod room;

pub use laws::histories_fit;
pub use room::entries_for;
