//! Turns and kernel calls of a process on two memories, and what each comes to.
#![tactic(auto)]

#[cfg(test)]
mod step_tests;
#[cfg(test)]
mod tests;
