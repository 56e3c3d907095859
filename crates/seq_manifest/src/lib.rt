//! Descriptions of machines, as a text says them.
#![tactic(auto)]

mod draft;
mod ending;
mod heading;
mod laws;
mod lists;
mod parts;
mod reading;
mod statement;

pub use draft::Draft;
pub use laws::one_draft;
pub use reading::read;

#[cfg(test)]
mod tests;
