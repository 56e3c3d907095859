//! From instructions to words.
ghost use Rattle.std.specs.Prelude.{◌≡◌, ℕ, ◌+◌, ◌-◌, ◌*◌, ◌/◌, ◌%◌, ◌^◌, ◌<◌, ◌≤◌, pos, negsuc, neg_ℤ, ◌≤ℤ◌, ◌↔◌, IfSome, IsSome, None};
ghost use Rattle.seq_isa.specs.Table.{StandsFor, IsR, IsI, IsS, IsB, IsU, IsJ, sign_extended};
ghost use Rattle.seq_isa.specs.InRange.{InRange, IsOffset, IsImmediate};
ghost use Rattle.seq_isa.specs.Laws.{IsOnlyWord};

use crate::Instr;
use crate::fields::{Fields, joined};
use crate::opcodes::{AUIPC, BRANCH, JAL, JALR, LOAD, LUI, OP, OP_IMM, STORE};

/// The word of a row in the R format, if the registers are in range.
fn r_word(opcode: u8, funct3: u8, funct7: u8, rd: u8, rs1: u8, rs2: u8) -> Option<u32>
    requires opcode { opcode < 128 }
    requires funct3 { funct3 < 8 }
    requires funct7 { funct7 < 128 }
    ensures some { IfSome result (λ w. IsR w opcode funct3 funct7 rd rs1 rs2) }
    ensures none { result ≡ None → (rd < 32) → (rs1 < 32) → (rs2 < 32) → ⊥ }
{
    if rd < 32 && rs1 < 32 && rs2 < 32 {
        Some(joined(Fields {
            opcode,
            rd,
            funct3,
            rs1,
            rs2,
            funct7,
        }))
    } else {
        None
    }
}

/// The 12 bits of an immediate, if it is in range.
fn immediate_bits(imm: i32) -> Option<u32>
    ensures some { IfSome result (λ n. (n < 4096) × (imm ≡ sign_extended 12 n)) }
    ensures none { result ≡ None → neg_ℤ (pos 2048) ≤ℤ imm → imm ≤ℤ pos 2047 → ⊥ }
{
    if imm >= -2048 && imm < 2048 {
        Some(if imm < 0 {
            (imm + 4096) as u32
        } else {
            imm as u32
        })
    } else {
        None
    }
}

/// The word of a row in the I format, if the registers and the immediate are in range.
fn i_word(opcode: u8, funct3: u8, rd: u8, rs1: u8, imm: i32) -> Option<u32>
    requires opcode { opcode < 128 }
    requires funct3 { funct3 < 8 }
    ensures some { IfSome result (λ w. IsI w opcode funct3 rd rs1 imm) }
    ensures none { result ≡ None → (rd < 32) → (rs1 < 32) → IsImmediate imm → ⊥ }
{
    let bits = immediate_bits(imm)?;
    if rd < 32 && rs1 < 32 {
        Some(joined(Fields {
            opcode,
            rd,
            funct3,
            rs1,
            rs2: (bits & 31) as u8,
            funct7: (bits >> 5) as u8,
        }))
    } else {
        None
    }
}

/// The 13 bits of the offset of a branch, if it is even and in range.
fn branch_bits(offset: i32) -> Option<u32>
    ensures some { IfSome result (λ n. (n < 8192) × (n % 2 ≡ 0) × (offset ≡ sign_extended 13 n)) }
    ensures none { result ≡ None → IsOffset 4096 offset → ⊥ }
{
    if offset >= -4096 && offset < 4096 {
        let bits = if offset < 0 {
            (offset + 8192) as u32
        } else {
            offset as u32
        };
        if bits % 2 == 0 { Some(bits) } else { None }
    } else {
        None
    }
}

/// The 21 bits of the offset of a jump, if it is even and in range.
fn jump_bits(offset: i32) -> Option<u32>
    ensures some { IfSome result (λ n. (n < 2097152) × (n % 2 ≡ 0) × (offset ≡ sign_extended 21 n)) }
    ensures none { result ≡ None → IsOffset 1048576 offset → ⊥ }
{
    if offset >= -1048576 && offset < 1048576 {
        let bits = if offset < 0 {
            (offset + 2097152) as u32
        } else {
            offset as u32
        };
        if bits % 2 == 0 { Some(bits) } else { None }
    } else {
        None
    }
}

/// The word of a row in the S format, if the registers and the immediate are in range.
fn s_word(opcode: u8, funct3: u8, rs1: u8, rs2: u8, imm: i32) -> Option<u32>
    requires opcode { opcode < 128 }
    requires funct3 { funct3 < 8 }
    ensures some { IfSome result (λ w. IsS w opcode funct3 rs1 rs2 imm) }
    ensures none { result ≡ None → (rs1 < 32) → (rs2 < 32) → IsImmediate imm → ⊥ }
{
    let bits = immediate_bits(imm)?;
    if rs1 < 32 && rs2 < 32 {
        Some(joined(Fields {
            opcode,
            rd: (bits & 31) as u8,
            funct3,
            rs1,
            rs2,
            funct7: (bits >> 5) as u8,
        }))
    } else {
        None
    }
}

/// The word of a row in the B format, if the registers and the offset are in range.
fn b_word(opcode: u8, funct3: u8, rs1: u8, rs2: u8, offset: i32) -> Option<u32>
    requires opcode { opcode < 128 }
    requires funct3 { funct3 < 8 }
    ensures some { IfSome result (λ w. IsB w opcode funct3 rs1 rs2 offset) }
    ensures none { result ≡ None → (rs1 < 32) → (rs2 < 32) → IsOffset 4096 offset → ⊥ }
{
    let bits = branch_bits(offset)?;
    if rs1 < 32 && rs2 < 32 {
        Some(joined(Fields {
            opcode,
            rd: (((bits >> 1) & 15) << 1 | (bits >> 11) & 1) as u8,
            funct3,
            rs1,
            rs2,
            funct7: ((bits >> 5) & 63 | (bits >> 12) << 6) as u8,
        }))
    } else {
        None
    }
}

/// The word of a row in the U format, if the register and the upper immediate are in range.
fn u_word(opcode: u8, rd: u8, imm: u32) -> Option<u32>
    requires opcode { opcode < 128 }
    ensures some { IfSome result (λ w. IsU w opcode rd imm) }
    ensures none { result ≡ None → (rd < 32) → (imm < 1048576) → ⊥ }
{
    if rd < 32 && imm < 1 << 20 {
        Some(opcode as u32 | (rd as u32) << 7 | imm << 12)
    } else {
        None
    }
}

/// The word of a row in the J format, if the register and the offset are in range.
fn j_word(opcode: u8, rd: u8, offset: i32) -> Option<u32>
    requires opcode { opcode < 128 }
    ensures some { IfSome result (λ w. IsJ w opcode rd offset) }
    ensures none { result ≡ None → (rd < 32) → IsOffset 1048576 offset → ⊥ }
{
    let bits = jump_bits(offset)?;
    if rd < 32 {
        Some(joined(Fields {
            opcode,
            rd,
            funct3: ((bits >> 12) & 7) as u8,
            rs1: ((bits >> 15) & 31) as u8,
            rs2: (((bits >> 1) & 15) << 1 | (bits >> 11) & 1) as u8,
            funct7: ((bits >> 5) & 63 | (bits >> 20) << 6) as u8,
        }))
    } else {
        None
    }
}

/// The word of `instr`, if its fields are in range.
fn word(instr: &Instr) -> Option<u32>
    ensures some { IfSome result (λ w. StandsFor w instr.now) }
    ensures small { IfSome result (λ w. w < 2 ^ 32) }
    ensures none { result ≡ None → InRange instr.now → ⊥ }
{
    match *instr {
        Instr::Lui { rd, imm } => u_word(LUI, rd, imm),
        Instr::Auipc { rd, imm } => u_word(AUIPC, rd, imm),
        Instr::Jal { rd, offset } => j_word(JAL, rd, offset),
        Instr::Jalr { rd, rs1, imm } => i_word(JALR, 0b000, rd, rs1, imm),
        Instr::Beq { rs1, rs2, offset } => b_word(BRANCH, 0b000, rs1, rs2, offset),
        Instr::Bne { rs1, rs2, offset } => b_word(BRANCH, 0b001, rs1, rs2, offset),
        Instr::Blt { rs1, rs2, offset } => b_word(BRANCH, 0b100, rs1, rs2, offset),
        Instr::Bge { rs1, rs2, offset } => b_word(BRANCH, 0b101, rs1, rs2, offset),
        Instr::Bltu { rs1, rs2, offset } => b_word(BRANCH, 0b110, rs1, rs2, offset),
        Instr::Bgeu { rs1, rs2, offset } => b_word(BRANCH, 0b111, rs1, rs2, offset),
        Instr::Lb { rd, rs1, imm } => i_word(LOAD, 0b000, rd, rs1, imm),
        Instr::Lh { rd, rs1, imm } => i_word(LOAD, 0b001, rd, rs1, imm),
        Instr::Lw { rd, rs1, imm } => i_word(LOAD, 0b010, rd, rs1, imm),
        Instr::Lbu { rd, rs1, imm } => i_word(LOAD, 0b100, rd, rs1, imm),
        Instr::Lhu { rd, rs1, imm } => i_word(LOAD, 0b101, rd, rs1, imm),
        Instr::Sb { rs1, rs2, imm } => s_word(STORE, 0b000, rs1, rs2, imm),
        Instr::Sh { rs1, rs2, imm } => s_word(STORE, 0b001, rs1, rs2, imm),
        Instr::Sw { rs1, rs2, imm } => s_word(STORE, 0b010, rs1, rs2, imm),
        Instr::Addi { rd, rs1, imm } => i_word(OP_IMM, 0b000, rd, rs1, imm),
        Instr::Slti { rd, rs1, imm } => i_word(OP_IMM, 0b010, rd, rs1, imm),
        Instr::Sltiu { rd, rs1, imm } => i_word(OP_IMM, 0b011, rd, rs1, imm),
        Instr::Xori { rd, rs1, imm } => i_word(OP_IMM, 0b100, rd, rs1, imm),
        Instr::Ori { rd, rs1, imm } => i_word(OP_IMM, 0b110, rd, rs1, imm),
        Instr::Andi { rd, rs1, imm } => i_word(OP_IMM, 0b111, rd, rs1, imm),
        Instr::Slli { rd, rs1, amount } => r_word(OP_IMM, 0b001, 0b0000000, rd, rs1, amount),
        Instr::Srli { rd, rs1, amount } => r_word(OP_IMM, 0b101, 0b0000000, rd, rs1, amount),
        Instr::Srai { rd, rs1, amount } => r_word(OP_IMM, 0b101, 0b0100000, rd, rs1, amount),
        Instr::Add { rd, rs1, rs2 } => r_word(OP, 0b000, 0b0000000, rd, rs1, rs2),
        Instr::Sub { rd, rs1, rs2 } => r_word(OP, 0b000, 0b0100000, rd, rs1, rs2),
        Instr::Sll { rd, rs1, rs2 } => r_word(OP, 0b001, 0b0000000, rd, rs1, rs2),
        Instr::Slt { rd, rs1, rs2 } => r_word(OP, 0b010, 0b0000000, rd, rs1, rs2),
        Instr::Sltu { rd, rs1, rs2 } => r_word(OP, 0b011, 0b0000000, rd, rs1, rs2),
        Instr::Xor { rd, rs1, rs2 } => r_word(OP, 0b100, 0b0000000, rd, rs1, rs2),
        Instr::Srl { rd, rs1, rs2 } => r_word(OP, 0b101, 0b0000000, rd, rs1, rs2),
        Instr::Sra { rd, rs1, rs2 } => r_word(OP, 0b101, 0b0100000, rd, rs1, rs2),
        Instr::Or { rd, rs1, rs2 } => r_word(OP, 0b110, 0b0000000, rd, rs1, rs2),
        Instr::And { rd, rs1, rs2 } => r_word(OP, 0b111, 0b0000000, rd, rs1, rs2),
        Instr::Mul { rd, rs1, rs2 } => r_word(OP, 0b000, 0b0000001, rd, rs1, rs2),
        Instr::Mulh { rd, rs1, rs2 } => r_word(OP, 0b001, 0b0000001, rd, rs1, rs2),
        Instr::Mulhsu { rd, rs1, rs2 } => r_word(OP, 0b010, 0b0000001, rd, rs1, rs2),
        Instr::Mulhu { rd, rs1, rs2 } => r_word(OP, 0b011, 0b0000001, rd, rs1, rs2),
        Instr::Div { rd, rs1, rs2 } => r_word(OP, 0b100, 0b0000001, rd, rs1, rs2),
        Instr::Divu { rd, rs1, rs2 } => r_word(OP, 0b101, 0b0000001, rd, rs1, rs2),
        Instr::Rem { rd, rs1, rs2 } => r_word(OP, 0b110, 0b0000001, rd, rs1, rs2),
        Instr::Remu { rd, rs1, rs2 } => r_word(OP, 0b111, 0b0000001, rd, rs1, rs2),
        Instr::Fence { word } => (word & 127 == 0b0001111 && (word >> 12) & 7 == 0b000).then_some(
            word,
        ),
        Instr::Ecall => Some(0x0000_0073),
        Instr::Ebreak => Some(0x0010_0073),
    }
}

/// The word that stands for `instr`, or None where a register, an immediate, an offset or an amount is out of its range, or
/// the word in `Fence` is no fence.
#[tactic(auto, using(crate::proofs::Words::encodes_in_range, crate::proofs::Words::only_word))]
pub fn encode(instr: &Instr) -> Option<u32>
    ensures word { IfSome result (λ w. IsOnlyWord w instr.now) }
    ensures in_range { IsSome result ↔ InRange instr.now }
{
    word(instr)
}
