//! From an image to its listing, and back: the law of the assembler and the lister together.
#![tactic(auto)]

mod laws;

pub use laws::listings_assemble;
