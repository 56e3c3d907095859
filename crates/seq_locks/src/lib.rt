//! Claims and releases of a word that stands in two copies, as typed states: a turn of the wrong state doesn't compile.
#![tactic(auto)]

mod claim;
mod release;
mod stages;

pub use claim::{Claim, Claimed};
pub use release::Release;
pub use stages::{Free, Held, Primary, Shadow};

#[cfg(test)]
mod tests;
