//! Scenes of the machine: machines in small, and what each of their turns comes to.
#![tactic(auto)]

#[cfg(test)]
mod programs;
#[cfg(test)]
mod stage;
#[cfg(test)]
mod strike_tests;
#[cfg(test)]
mod tests;
