//! What the shelves, lines, chronicles and sinks answer, in memory and over real files.
#![tactic(auto)]

#[cfg(test)]
mod adapters;
#[cfg(test)]
mod chronicle;
#[cfg(test)]
mod line;
#[cfg(test)]
mod shelf;
#[cfg(test)]
mod sink;
