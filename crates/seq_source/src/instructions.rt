// The instructions.
ghost use Rattle.std.specs.Prelude.{◌≡◌, ◌<◌, ◌^◌, IfSome};
ghost use Rattle.std.specs.Option.{option_map};
ghost use Rattle.seq_isa.specs.InRange.{IsImmediate, IsOffset};
ghost use Rattle.seq_mnemonics.specs.Registers.{register_of};
ghost use Rattle.seq_source.specs.Numbers.{immediate_of, offset_of, below};
ghost use Rattle.seq_source.specs.Operands.{operands_in};
ghost use Rattle.seq_source.specs.Forms.{with_two, with_three, alone_said};
ghost use Rattle.seq_source.specs.Instructions.{closed, displacement_of, base_of, registers_said, immediate_said, shift_said, indirect_said, store_said, branch_said, jump_said, upper_said, instruction_said};
ghost use Rattle.seq_source.specs.Said.{HasWord};

use crate::cutting::first_place;
use crate::directives::alone;
use crate::items::{Item, Said};
use crate::names::is_label;
use crate::numbers::number_written;
use crate::operands::{three_operands, two_operands};
use seq_mnemonics::{
    BranchName, ImmediateName, IndirectName, Mnemonic, PlainName, RegisterName, ShiftName,
    Statement, StoreName, UpperName, amount, branch_offset, immediate, jump_offset, register,
    upper,
};

fn immediate_of(number: i64) -> Option<i32>
    ensures value { result ≡ immediate_of number }
    ensures fits { IfSome result (λ imm. IsImmediate imm) }
{
    immediate(number)
}

/// A number as the offset of a branch: even, from -4096 to 4094.
pub fn branch_offset_of(number: i64) -> Option<i32>
    ensures value { result ≡ offset_of 4096 number }
    ensures fits { IfSome result (λ offset. IsOffset 4096 offset) }
{
    branch_offset(number)
}

/// A number as the offset of `jal`: even, from -1048576 to 1048574.
pub fn jump_offset_of(number: i64) -> Option<i32>
    ensures value { result ≡ offset_of 1048576 number }
    ensures fits { IfSome result (λ offset. IsOffset 1048576 offset) }
{
    jump_offset(number)
}

fn amount_of(number: i64) -> Option<u8>
    ensures value { result ≡ below 32 number }
    ensures fits { IfSome result (λ amount. amount < 32) }
{
    amount(number)
}

fn upper_of(number: i64) -> Option<u32>
    ensures value { result ≡ below (2 ^ 20) number }
    ensures fits { IfSome result (λ imm. imm < 2 ^ 20) }
{
    upper(number)
}

#[tactic(auto, using(crate::proofs::Ranges::register_small))]
fn register_of(word: &[u8]) -> Option<u8>
    ensures value { result ≡ register_of word.now }
    ensures small { IfSome result (λ n. n < 32) }
{
    register(word)
}

#[tactic(auto, unfolding(crate::specs::Instructions::closed))]
fn closed(behind: &[u8]) -> Option<&[u8]>
    ensures { option_map (λ name. name.now) result ≡ closed behind.now }
{
    if !behind.is_empty() && behind[behind.len() - 1] == b')' {
        Some(&behind[..behind.len() - 1])
    } else {
        None
    }
}

// The number before the parentheses.
#[tactic(auto, unfolding(crate::specs::Instructions::displacement_of))]
fn displacement(operand: &[u8]) -> Option<i64>
    ensures { result ≡ displacement_of operand.now }
{
    number_written(&operand[..first_place(b'(', operand)])
}

// The register between the parentheses.
#[tactic(auto, unfolding(crate::specs::Instructions::base_of))]
fn base(operand: &[u8]) -> Option<u8>
    ensures value { result ≡ base_of operand.now }
    ensures small { IfSome result (λ n. n < 32) }
{
    let at = first_place(b'(', operand);
    if at == operand.len() {
        return None;
    }
    match closed(&operand[at + 1..]) {
        None => None,
        Some(name) => register_of(name),
    }
}

#[tactic(auto, unfolding(crate::specs::Instructions::registers_said), using(crate::proofs::Arities::three_none, crate::proofs::Fits::registers_fit))]
fn registers_said(name: RegisterName, text: &[u8]) -> Said
    ensures value { result ≡ with_three (registers_said name) (operands_in text.now) }
    ensures word { HasWord result }
{
    let Some((a, b, c)) = three_operands(text) else {
        return Said::BadOperands;
    };
    let Some(rd) = register_of(a) else {
        return Said::BadOperands;
    };
    let Some(rs1) = register_of(b) else {
        return Said::BadOperands;
    };
    let Some(rs2) = register_of(c) else {
        return Said::BadOperands;
    };
    Said::Says(Item::Instruction(Statement::Registers { name, rd, rs1, rs2 }))
}

#[tactic(auto, unfolding(crate::specs::Instructions::immediate_said), using(crate::proofs::Arities::three_none, crate::proofs::Fits::immediate_fits))]
fn immediate_said(name: ImmediateName, text: &[u8]) -> Said
    ensures value { result ≡ with_three (immediate_said name) (operands_in text.now) }
    ensures word { HasWord result }
{
    let Some((a, b, c)) = three_operands(text) else {
        return Said::BadOperands;
    };
    let Some(rd) = register_of(a) else {
        return Said::BadOperands;
    };
    let Some(rs1) = register_of(b) else {
        return Said::BadOperands;
    };
    let Some(number) = number_written(c) else {
        return Said::BadOperands;
    };
    match immediate_of(number) {
        None => Said::OutOfRange,
        Some(imm) => Said::Says(Item::Instruction(Statement::Immediate { name, rd, rs1, imm })),
    }
}

#[tactic(auto, unfolding(crate::specs::Instructions::shift_said), using(crate::proofs::Arities::three_none, crate::proofs::Fits::shift_fits))]
fn shift_said(name: ShiftName, text: &[u8]) -> Said
    ensures value { result ≡ with_three (shift_said name) (operands_in text.now) }
    ensures word { HasWord result }
{
    let Some((a, b, c)) = three_operands(text) else {
        return Said::BadOperands;
    };
    let Some(rd) = register_of(a) else {
        return Said::BadOperands;
    };
    let Some(rs1) = register_of(b) else {
        return Said::BadOperands;
    };
    let Some(number) = number_written(c) else {
        return Said::BadOperands;
    };
    match amount_of(number) {
        None => Said::OutOfRange,
        Some(amount) => Said::Says(Item::Instruction(Statement::Shift {
            name,
            rd,
            rs1,
            amount,
        })),
    }
}

#[tactic(auto, unfolding(crate::specs::Instructions::indirect_said), using(crate::proofs::Arities::two_none, crate::proofs::Fits::indirect_fits))]
fn indirect_said(name: IndirectName, text: &[u8]) -> Said
    ensures value { result ≡ with_two (indirect_said name) (operands_in text.now) }
    ensures word { HasWord result }
{
    let Some((a, b)) = two_operands(text) else {
        return Said::BadOperands;
    };
    let Some(rd) = register_of(a) else {
        return Said::BadOperands;
    };
    let Some(number) = displacement(b) else {
        return Said::BadOperands;
    };
    let Some(rs1) = base(b) else {
        return Said::BadOperands;
    };
    match immediate_of(number) {
        None => Said::OutOfRange,
        Some(imm) => Said::Says(Item::Instruction(Statement::Indirect { name, rd, rs1, imm })),
    }
}

#[tactic(auto, unfolding(crate::specs::Instructions::store_said), using(crate::proofs::Arities::two_none, crate::proofs::Fits::store_fits))]
fn store_said(name: StoreName, text: &[u8]) -> Said
    ensures value { result ≡ with_two (store_said name) (operands_in text.now) }
    ensures word { HasWord result }
{
    let Some((a, b)) = two_operands(text) else {
        return Said::BadOperands;
    };
    let Some(rs2) = register_of(a) else {
        return Said::BadOperands;
    };
    let Some(number) = displacement(b) else {
        return Said::BadOperands;
    };
    let Some(rs1) = base(b) else {
        return Said::BadOperands;
    };
    match immediate_of(number) {
        None => Said::OutOfRange,
        Some(imm) => Said::Says(Item::Instruction(Statement::Store {
            name,
            rs1,
            rs2,
            imm,
        })),
    }
}

#[tactic(auto, unfolding(crate::specs::Instructions::branch_said), using(crate::proofs::Arities::three_none, crate::proofs::Fits::branch_fits))]
fn branch_said(name: BranchName, text: &[u8]) -> Said
    ensures value { result ≡ with_three (branch_said name) (operands_in text.now) }
    ensures word { HasWord result }
{
    let Some((a, b, c)) = three_operands(text) else {
        return Said::BadOperands;
    };
    let Some(rs1) = register_of(a) else {
        return Said::BadOperands;
    };
    let Some(rs2) = register_of(b) else {
        return Said::BadOperands;
    };
    if is_label(c) {
        return Said::Says(Item::Branch { name, rs1, rs2 });
    }
    let Some(number) = number_written(c) else {
        return Said::BadOperands;
    };
    match branch_offset_of(number) {
        None => Said::OutOfRange,
        Some(offset) => Said::Says(Item::Instruction(Statement::Branch {
            name,
            rs1,
            rs2,
            offset,
        })),
    }
}

#[tactic(auto, unfolding(crate::specs::Instructions::jump_said), using(crate::proofs::Arities::two_none, crate::proofs::Fits::jump_fits))]
fn jump_said(text: &[u8]) -> Said
    ensures value { result ≡ with_two jump_said (operands_in text.now) }
    ensures word { HasWord result }
{
    let Some((a, b)) = two_operands(text) else {
        return Said::BadOperands;
    };
    let Some(rd) = register_of(a) else {
        return Said::BadOperands;
    };
    if is_label(b) {
        return Said::Says(Item::Jump { rd });
    }
    let Some(number) = number_written(b) else {
        return Said::BadOperands;
    };
    match jump_offset_of(number) {
        None => Said::OutOfRange,
        Some(offset) => Said::Says(Item::Instruction(Statement::Jump { rd, offset })),
    }
}

#[tactic(auto, unfolding(crate::specs::Instructions::upper_said), using(crate::proofs::Arities::two_none, crate::proofs::Fits::upper_fits))]
fn upper_said(name: UpperName, text: &[u8]) -> Said
    ensures value { result ≡ with_two (upper_said name) (operands_in text.now) }
    ensures word { HasWord result }
{
    let Some((a, b)) = two_operands(text) else {
        return Said::BadOperands;
    };
    let Some(rd) = register_of(a) else {
        return Said::BadOperands;
    };
    let Some(number) = number_written(b) else {
        return Said::BadOperands;
    };
    match upper_of(number) {
        None => Said::OutOfRange,
        Some(imm) => Said::Says(Item::Instruction(Statement::Upper { name, rd, imm })),
    }
}

#[tactic(auto, using(crate::proofs::Fits::plain_fits))]
fn plain_said(name: PlainName, text: &[u8]) -> Said
    ensures value { result ≡ alone_said (Item.Instruction (Statement.Plain name)) text.now }
    ensures word { HasWord result }
{
    alone(Item::Instruction(Statement::Plain(name)), text)
}

/// What an instruction with these operands says.
#[tactic(auto, unfolding(crate::specs::Instructions::instruction_said))]
pub fn instruction_said(mnemonic: Mnemonic, text: &[u8]) -> Said
    ensures value { result ≡ instruction_said mnemonic text.now }
    ensures word { HasWord result }
{
    match mnemonic {
        Mnemonic::Registers(name) => registers_said(name, text),
        Mnemonic::Immediate(name) => immediate_said(name, text),
        Mnemonic::Shift(name) => shift_said(name, text),
        Mnemonic::Indirect(name) => indirect_said(name, text),
        Mnemonic::Store(name) => store_said(name, text),
        Mnemonic::Branch(name) => branch_said(name, text),
        Mnemonic::Jump => jump_said(text),
        Mnemonic::Upper(name) => upper_said(name, text),
        Mnemonic::Plain(name) => plain_said(name, text),
    }
}
