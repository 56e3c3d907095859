//! The copying of a memory that was repaired, unit by unit, and the gate before it.
#![tactic(auto)]

mod copying;
mod gating;
mod laws;

pub use copying::copy_unit;
pub use gating::gate;
pub use laws::copied_units_survive;

#[cfg(test)]
mod tests;
