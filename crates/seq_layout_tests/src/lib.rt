//! What a layout answers, the context of a process in its blocks, and copies that are written, lost and copied back.
#![tactic(auto)]

#[cfg(test)]
mod bench;
#[cfg(test)]
mod context_tests;
#[cfg(test)]
mod copies_tests;
#[cfg(test)]
mod layout_tests;
