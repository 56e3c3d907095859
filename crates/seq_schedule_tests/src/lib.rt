//! Schedules with what is read of them, and which elements are out, worked by hand.
#![tactic(auto)]

#[cfg(test)]
mod outs_tests;
#[cfg(test)]
mod tests;
