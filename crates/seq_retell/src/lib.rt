//! What the report of a run is made from: the entries of its history, which are kept while it is made; the input that has arrived; and
//! the flat machine, which takes the steps of the history anew.
#![tactic(auto)]

mod again;
mod kept;
mod shown;

pub use again::retell;
pub use kept::Kept;
pub use shown::inputs_shown;

#[cfg(test)]
mod tests;
