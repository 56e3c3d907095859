//! From words to instructions.
ghost use Rattle.std.specs.Prelude.{◌≡◌, ℕ, ◌+◌, ◌*◌, ◌/◌, ◌%◌, ◌^◌, ◌<◌, ◌≤◌, ◌↔◌, IfSome, IsNone, Some, None, ◌==◌, ◌||◌, if◌then◌else◌};
ghost use Rattle.seq_isa.specs.Table.{StandsFor, rd_of, funct3_of, rs1_of, rs2_of, funct7_of, sign_extended, i_immediate, s_immediate, b_immediate, j_immediate};
ghost use Rattle.seq_isa.specs.InRange.{InRange};
ghost use Rattle.seq_isa.specs.Decoded.{branch_of, load_of, store_of, immediate_of, shift_of, base_of, alternate_of, multiply_of, register_of, system_of, decode_of};

use crate::Instr;
use crate::fields::{funct3, funct7, opcode, rd, rs1, rs2};
use crate::opcodes::{AUIPC, BRANCH, JAL, JALR, LOAD, LUI, MISC_MEM, OP, OP_IMM, STORE, SYSTEM};

#[inline(always)]
fn sign_extend_12(bits: u32) -> i32
    requires { bits < 4096 }
    ensures { result ≡ sign_extended 12 bits }
{
    if bits < 2048 {
        bits as i32
    } else {
        bits as i32 - 4096
    }
}

#[inline(always)]
fn sign_extend_13(bits: u32) -> i32
    requires { bits < 8192 }
    ensures { result ≡ sign_extended 13 bits }
{
    if bits < 4096 {
        bits as i32
    } else {
        bits as i32 - 8192
    }
}

#[inline(always)]
fn sign_extend_21(bits: u32) -> i32
    requires { bits < 2097152 }
    ensures { result ≡ sign_extended 21 bits }
{
    if bits < 1048576 {
        bits as i32
    } else {
        bits as i32 - 2097152
    }
}

#[inline(always)]
fn i_immediate(word: u32) -> i32
    ensures { result ≡ i_immediate word }
{
    sign_extend_12(word >> 20)
}

#[inline(always)]
fn s_immediate(word: u32) -> i32
    ensures { result ≡ s_immediate word }
{
    sign_extend_12((word >> 7) & 31 | (word >> 25) << 5)
}

#[inline(always)]
fn b_immediate(word: u32) -> i32
    ensures { result ≡ b_immediate word }
{
    let low = ((word >> 8) & 15) << 1;
    let middle = ((word >> 25) & 63) << 5;
    let high = ((word >> 7) & 1) << 11;
    sign_extend_13(low | middle | high | (word >> 31) << 12)
}

#[inline(always)]
fn j_immediate(word: u32) -> i32
    ensures { result ≡ j_immediate word }
{
    let low = ((word >> 21) & 1023) << 1;
    let middle = ((word >> 20) & 1) << 11;
    let high = ((word >> 12) & 255) << 12;
    sign_extend_21(low | middle | high | (word >> 31) << 20)
}

#[tactic(auto, unfolding(crate::specs::Decoded::branch_of))]
#[inline(always)]
fn branch(funct3: u8, rs1: u8, rs2: u8, offset: i32) -> Option<Instr>
    ensures { result ≡ branch_of funct3 rs1 rs2 offset }
{
    match funct3 {
        0b000 => Some(Instr::Beq { rs1, rs2, offset }),
        0b001 => Some(Instr::Bne { rs1, rs2, offset }),
        0b100 => Some(Instr::Blt { rs1, rs2, offset }),
        0b101 => Some(Instr::Bge { rs1, rs2, offset }),
        0b110 => Some(Instr::Bltu { rs1, rs2, offset }),
        0b111 => Some(Instr::Bgeu { rs1, rs2, offset }),
        _ => None,
    }
}

#[tactic(auto, unfolding(crate::specs::Decoded::load_of))]
#[inline(always)]
fn load(funct3: u8, rd: u8, rs1: u8, imm: i32) -> Option<Instr>
    ensures { result ≡ load_of funct3 rd rs1 imm }
{
    match funct3 {
        0b000 => Some(Instr::Lb { rd, rs1, imm }),
        0b001 => Some(Instr::Lh { rd, rs1, imm }),
        0b010 => Some(Instr::Lw { rd, rs1, imm }),
        0b100 => Some(Instr::Lbu { rd, rs1, imm }),
        0b101 => Some(Instr::Lhu { rd, rs1, imm }),
        _ => None,
    }
}

#[tactic(auto, unfolding(crate::specs::Decoded::store_of))]
#[inline(always)]
fn store(funct3: u8, rs1: u8, rs2: u8, imm: i32) -> Option<Instr>
    ensures { result ≡ store_of funct3 rs1 rs2 imm }
{
    match funct3 {
        0b000 => Some(Instr::Sb { rs1, rs2, imm }),
        0b001 => Some(Instr::Sh { rs1, rs2, imm }),
        0b010 => Some(Instr::Sw { rs1, rs2, imm }),
        _ => None,
    }
}

#[tactic(auto, unfolding(crate::specs::Decoded::immediate_of))]
#[inline(always)]
fn immediate(funct3: u8, rd: u8, rs1: u8, imm: i32) -> Option<Instr>
    ensures { result ≡ immediate_of funct3 rd rs1 imm }
{
    match funct3 {
        0b000 => Some(Instr::Addi { rd, rs1, imm }),
        0b010 => Some(Instr::Slti { rd, rs1, imm }),
        0b011 => Some(Instr::Sltiu { rd, rs1, imm }),
        0b100 => Some(Instr::Xori { rd, rs1, imm }),
        0b110 => Some(Instr::Ori { rd, rs1, imm }),
        0b111 => Some(Instr::Andi { rd, rs1, imm }),
        _ => None,
    }
}

#[tactic(auto, unfolding(crate::specs::Decoded::shift_of))]
#[inline(always)]
fn shift(funct3: u8, funct7: u8, rd: u8, rs1: u8, amount: u8) -> Option<Instr>
    ensures { result ≡ shift_of funct3 funct7 rd rs1 amount }
{
    match (funct7, funct3) {
        (0b0000000, 0b001) => Some(Instr::Slli { rd, rs1, amount }),
        (0b0000000, 0b101) => Some(Instr::Srli { rd, rs1, amount }),
        (0b0100000, 0b101) => Some(Instr::Srai { rd, rs1, amount }),
        _ => None,
    }
}

#[tactic(auto, unfolding(crate::specs::Decoded::base_of))]
#[inline(always)]
fn base(funct3: u8, rd: u8, rs1: u8, rs2: u8) -> Option<Instr>
    ensures { result ≡ base_of funct3 rd rs1 rs2 }
{
    match funct3 {
        0b000 => Some(Instr::Add { rd, rs1, rs2 }),
        0b001 => Some(Instr::Sll { rd, rs1, rs2 }),
        0b010 => Some(Instr::Slt { rd, rs1, rs2 }),
        0b011 => Some(Instr::Sltu { rd, rs1, rs2 }),
        0b100 => Some(Instr::Xor { rd, rs1, rs2 }),
        0b101 => Some(Instr::Srl { rd, rs1, rs2 }),
        0b110 => Some(Instr::Or { rd, rs1, rs2 }),
        0b111 => Some(Instr::And { rd, rs1, rs2 }),
        _ => None,
    }
}

#[tactic(auto, unfolding(crate::specs::Decoded::alternate_of))]
#[inline(always)]
fn alternate(funct3: u8, rd: u8, rs1: u8, rs2: u8) -> Option<Instr>
    ensures { result ≡ alternate_of funct3 rd rs1 rs2 }
{
    match funct3 {
        0b000 => Some(Instr::Sub { rd, rs1, rs2 }),
        0b101 => Some(Instr::Sra { rd, rs1, rs2 }),
        _ => None,
    }
}

#[tactic(auto, unfolding(crate::specs::Decoded::multiply_of))]
#[inline(always)]
fn multiply(funct3: u8, rd: u8, rs1: u8, rs2: u8) -> Option<Instr>
    ensures { result ≡ multiply_of funct3 rd rs1 rs2 }
{
    match funct3 {
        0b000 => Some(Instr::Mul { rd, rs1, rs2 }),
        0b001 => Some(Instr::Mulh { rd, rs1, rs2 }),
        0b010 => Some(Instr::Mulhsu { rd, rs1, rs2 }),
        0b011 => Some(Instr::Mulhu { rd, rs1, rs2 }),
        0b100 => Some(Instr::Div { rd, rs1, rs2 }),
        0b101 => Some(Instr::Divu { rd, rs1, rs2 }),
        0b110 => Some(Instr::Rem { rd, rs1, rs2 }),
        0b111 => Some(Instr::Remu { rd, rs1, rs2 }),
        _ => None,
    }
}

#[tactic(auto, unfolding(crate::specs::Decoded::register_of))]
#[inline(always)]
fn register(funct3: u8, funct7: u8, rd: u8, rs1: u8, rs2: u8) -> Option<Instr>
    ensures { result ≡ register_of funct3 funct7 rd rs1 rs2 }
{
    match funct7 {
        0b0000000 => base(funct3, rd, rs1, rs2),
        0b0100000 => alternate(funct3, rd, rs1, rs2),
        0b0000001 => multiply(funct3, rd, rs1, rs2),
        _ => None,
    }
}

#[tactic(auto, unfolding(crate::specs::Decoded::system_of))]
#[inline(always)]
fn system(word: u32) -> Option<Instr>
    ensures { result ≡ system_of word }
{
    match word {
        0x0000_0073 => Some(Instr::Ecall),
        0x0010_0073 => Some(Instr::Ebreak),
        _ => None,
    }
}

// An operation on a register and an immediate: a shift, or another.
#[inline(always)]
fn with_immediate(word: u32) -> Option<Instr>
    ensures { result ≡ (if (funct3_of word == 0b001) || (funct3_of word == 0b101) then shift_of (funct3_of word) (funct7_of word) (rd_of word) (rs1_of word) (rs2_of word) else immediate_of (funct3_of word) (rd_of word) (rs1_of word) (i_immediate word)) }
{
    match funct3(word) {
        funct3 @ (0b001 | 0b101) => shift(funct3, funct7(word), rd(word), rs1(word), rs2(word)),
        funct3 => immediate(funct3, rd(word), rs1(word), i_immediate(word)),
    }
}

#[tactic(auto, unfolding(crate::specs::Decoded::decode_of))]
#[inline(always)]
fn row(word: u32) -> Option<Instr>
    ensures { result ≡ decode_of word }
{
    match opcode(word) {
        LUI => Some(Instr::Lui {
            rd: rd(word),
            imm: word >> 12,
        }),
        AUIPC => Some(Instr::Auipc {
            rd: rd(word),
            imm: word >> 12,
        }),
        JAL => Some(Instr::Jal {
            rd: rd(word),
            offset: j_immediate(word),
        }),
        JALR if funct3(word) == 0b000 => Some(Instr::Jalr {
            rd: rd(word),
            rs1: rs1(word),
            imm: i_immediate(word),
        }),
        BRANCH => branch(funct3(word), rs1(word), rs2(word), b_immediate(word)),
        LOAD => load(funct3(word), rd(word), rs1(word), i_immediate(word)),
        STORE => store(funct3(word), rs1(word), rs2(word), s_immediate(word)),
        OP_IMM => with_immediate(word),
        OP => register(funct3(word), funct7(word), rd(word), rs1(word), rs2(word)),
        MISC_MEM if funct3(word) == 0b000 => Some(Instr::Fence { word }),
        SYSTEM => system(word),
        _ => None,
    }
}

/// The instruction that `word` stands for, or None where it stands for none.
#[tactic(auto, using(crate::proofs::Agreed::found_from_decode_of, crate::proofs::Agreed::none_from_decode_of))]
#[inline(always)]
pub fn decode(word: u32) -> Option<Instr>
    ensures value { result ≡ decode_of word }
    ensures found { IfSome result (StandsFor word) }
    ensures in_range { IfSome result InRange }
    ensures none { IsNone result ↔ ((i : _) → StandsFor word i → ⊥) }
{
    row(word)
}
