//! The table of kernel calls on the flat machine, and programs that run there to their end.
#![tactic(auto)]

#[cfg(test)]
mod tests;
