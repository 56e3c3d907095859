//! The address map: which extent, and which byte of it, an address names.
#![tactic(auto)]

mod address_map;

pub use address_map::map;

#[cfg(test)]
mod tests;
