//! Turns of I/O elements, and what each leaves of the memories, the ports and the lines.
#![tactic(auto)]

#[cfg(test)]
mod bench;
#[cfg(test)]
mod course_tests;
#[cfg(test)]
mod tests;
