//! The assembler: from a source to an image.
#![tactic(auto)]

mod emitting;
mod labels;
mod laws;
mod lengths;
mod line;
mod pieces;
mod reading;
mod rules;
mod survey;

pub use laws::one_image;
pub use reading::assemble;

#[cfg(test)]
mod tests;
