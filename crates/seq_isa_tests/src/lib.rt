//! Words from outside, decoded and encoded.
#![tactic(auto)]

#[cfg(test)]
mod tests;
