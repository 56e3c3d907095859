//! The table that assembler and lister share: the names of instructions with the forms of their operands, the names of
//! registers, and the ranges of operands.
#![tactic(auto)]

mod laws;
mod names;
mod ranges;
mod registers;
mod statement;
mod table;

pub use laws::{
    names_are_exact, printed_numbers_are_read, printed_registers_are_read, printed_texts_are_plain,
    ranges_are_exact, registers_are_exact, statements_are_exact,
};
pub use names::{
    BranchName, ImmediateName, IndirectName, Mnemonic, PlainName, RegisterName, ShiftName,
    StoreName, UpperName,
};
pub use ranges::{amount, branch_offset, immediate, jump_offset, upper};
pub use registers::{register, register_name};
pub use statement::Statement;

#[cfg(test)]
mod tests;
