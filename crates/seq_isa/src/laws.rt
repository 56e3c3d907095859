//! Laws of the listing and of the meaning, over every word and every instruction, each as the contract of a function.
ghost use Rattle.std.specs.Prelude.{◌≡◌, ℕ, ◌<◌, ◌^◌, IsSome, IsNone, Some, None};
ghost use Rattle.seq_isa.specs.InRange.{InRange};
ghost use Rattle.seq_isa.specs.Decoded.{decode_of};
ghost use Rattle.seq_isa.specs.Laws.{OneInstruction, ExactlyOneWord, DecodesListing, StaysAligned};

use crate::{Instr, decode, encode};

/// Each word stands for at most one instruction.
#[tactic(auto, using(crate::proofs::Agreed::one_instruction))]
pub fn one_instruction_a_word()
    ensures { OneInstruction }
{}

/// Each instruction in range has exactly one word of 32 bits.
#[tactic(auto, using(crate::proofs::Words::exactly_one_word))]
pub fn one_word_an_instruction()
    ensures { ExactlyOneWord }
{}

/// The listing and the function that decodes are one.
#[tactic(auto, using(crate::proofs::Agreed::listing_is_function))]
pub fn listing_is_function()
    ensures { DecodesListing }
{}

/// After an instruction at a pc that is a multiple of four, pc is one again.
#[tactic(auto, using(crate::proofs::Alignment::outcome_aligned))]
pub fn pc_stays_aligned()
    ensures { StaysAligned }
{}

/// Encodes an instruction and decodes its word, which gives the instruction again.
#[tactic(auto, using(crate::proofs::Agreed::decode_of_StandsFor))]
pub fn decode_encoded(instr: &Instr) -> Option<Instr>
    ensures again { InRange instr.now → result ≡ Some instr.now }
    ensures none { (InRange instr.now → ⊥) → result ≡ None }
{
    decode(encode(instr)?)
}

/// Decodes a word and encodes its instruction, which gives the word again.
#[tactic(auto, using(crate::proofs::Words::one_word))]
pub fn encode_decoded(word: u32) -> Option<u32>
    ensures again { IsSome (decode_of word) → result ≡ Some word }
    ensures none { IsNone (decode_of word) → result ≡ None }
{
    encode(&decode(word)?)
}
