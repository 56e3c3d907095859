//! The law of listings and sources, as the contract of a function that does nothing.
ghost use Rattle.seq_roundtrip.specs.Texts.{ListingsAssemble};

/// The texts of a listing's lines, as a source, violate no rule of the assembler, and make the image's bytes.
pub fn listings_assemble()
    ensures { ListingsAssemble }
{}
