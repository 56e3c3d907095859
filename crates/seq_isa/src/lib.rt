//! The instructions of RV32IM: their words, by the manual's listing, and in `specs/Meaning.antt` what each one does.
#![tactic(auto)]

mod decoding;
mod encoding;
mod fields;
mod instr;
mod laws;
mod opcodes;

pub use decoding::decode;
pub use encoding::encode;
pub use fields::{rs1, rs2};
pub use instr::Instr;
pub use laws::{
    decode_encoded, encode_decoded, listing_is_function, one_instruction_a_word,
    one_word_an_instruction, pc_stays_aligned,
};
