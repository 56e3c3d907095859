//! Words from outside: those of another assembler, and the numbers of words that the listing leaves to each row.
ghost use Rattle.std.specs.Prelude.{◌<◌};

use seq_isa::{
    Instr, decode, decode_encoded, encode, encode_decoded, listing_is_function,
    one_instruction_a_word, one_word_an_instruction, pc_stays_aligned,
};
use std::test::Fail;

/// The words that LLVM assembles for each row at the low end of its ranges, with the text of the instruction.
const LOW: [(u32, &str); 48] = [
    (0x0000_0037, "Lui { rd: 0, imm: 0 }"),
    (0x0000_0017, "Auipc { rd: 0, imm: 0 }"),
    (0x8000_006f, "Jal { rd: 0, offset: -1048576 }"),
    (0x8000_0067, "Jalr { rd: 0, rs1: 0, imm: -2048 }"),
    (0x8000_0063, "Beq { rs1: 0, rs2: 0, offset: -4096 }"),
    (0x8000_1063, "Bne { rs1: 0, rs2: 0, offset: -4096 }"),
    (0x8000_4063, "Blt { rs1: 0, rs2: 0, offset: -4096 }"),
    (0x8000_5063, "Bge { rs1: 0, rs2: 0, offset: -4096 }"),
    (0x8000_6063, "Bltu { rs1: 0, rs2: 0, offset: -4096 }"),
    (0x8000_7063, "Bgeu { rs1: 0, rs2: 0, offset: -4096 }"),
    (0x8000_0003, "Lb { rd: 0, rs1: 0, imm: -2048 }"),
    (0x8000_1003, "Lh { rd: 0, rs1: 0, imm: -2048 }"),
    (0x8000_2003, "Lw { rd: 0, rs1: 0, imm: -2048 }"),
    (0x8000_4003, "Lbu { rd: 0, rs1: 0, imm: -2048 }"),
    (0x8000_5003, "Lhu { rd: 0, rs1: 0, imm: -2048 }"),
    (0x8000_0023, "Sb { rs1: 0, rs2: 0, imm: -2048 }"),
    (0x8000_1023, "Sh { rs1: 0, rs2: 0, imm: -2048 }"),
    (0x8000_2023, "Sw { rs1: 0, rs2: 0, imm: -2048 }"),
    (0x8000_0013, "Addi { rd: 0, rs1: 0, imm: -2048 }"),
    (0x8000_2013, "Slti { rd: 0, rs1: 0, imm: -2048 }"),
    (0x8000_3013, "Sltiu { rd: 0, rs1: 0, imm: -2048 }"),
    (0x8000_4013, "Xori { rd: 0, rs1: 0, imm: -2048 }"),
    (0x8000_6013, "Ori { rd: 0, rs1: 0, imm: -2048 }"),
    (0x8000_7013, "Andi { rd: 0, rs1: 0, imm: -2048 }"),
    (0x0000_1013, "Slli { rd: 0, rs1: 0, amount: 0 }"),
    (0x0000_5013, "Srli { rd: 0, rs1: 0, amount: 0 }"),
    (0x4000_5013, "Srai { rd: 0, rs1: 0, amount: 0 }"),
    (0x0000_0033, "Add { rd: 0, rs1: 0, rs2: 0 }"),
    (0x4000_0033, "Sub { rd: 0, rs1: 0, rs2: 0 }"),
    (0x0000_1033, "Sll { rd: 0, rs1: 0, rs2: 0 }"),
    (0x0000_2033, "Slt { rd: 0, rs1: 0, rs2: 0 }"),
    (0x0000_3033, "Sltu { rd: 0, rs1: 0, rs2: 0 }"),
    (0x0000_4033, "Xor { rd: 0, rs1: 0, rs2: 0 }"),
    (0x0000_5033, "Srl { rd: 0, rs1: 0, rs2: 0 }"),
    (0x4000_5033, "Sra { rd: 0, rs1: 0, rs2: 0 }"),
    (0x0000_6033, "Or { rd: 0, rs1: 0, rs2: 0 }"),
    (0x0000_7033, "And { rd: 0, rs1: 0, rs2: 0 }"),
    (0x0200_0033, "Mul { rd: 0, rs1: 0, rs2: 0 }"),
    (0x0200_1033, "Mulh { rd: 0, rs1: 0, rs2: 0 }"),
    (0x0200_2033, "Mulhsu { rd: 0, rs1: 0, rs2: 0 }"),
    (0x0200_3033, "Mulhu { rd: 0, rs1: 0, rs2: 0 }"),
    (0x0200_4033, "Div { rd: 0, rs1: 0, rs2: 0 }"),
    (0x0200_5033, "Divu { rd: 0, rs1: 0, rs2: 0 }"),
    (0x0200_6033, "Rem { rd: 0, rs1: 0, rs2: 0 }"),
    (0x0200_7033, "Remu { rd: 0, rs1: 0, rs2: 0 }"),
    (0x0000_0073, "Ecall"),
    (0x0010_0073, "Ebreak"),
    (0x0000_000f, "Fence { word: 15 }"),
];

/// The same with fields that tell the places of the bits apart.
const MIDDLE: [(u32, &str); 46] = [
    (0x1234_50b7, "Lui { rd: 1, imm: 74565 }"),
    (0x1234_5097, "Auipc { rd: 1, imm: 74565 }"),
    (0x5a66_d0ef, "Jal { rd: 1, offset: 447910 }"),
    (0x4e51_00e7, "Jalr { rd: 1, rs1: 2, imm: 1253 }"),
    (0x2a31_05e3, "Beq { rs1: 2, rs2: 3, offset: 2730 }"),
    (0x2a31_15e3, "Bne { rs1: 2, rs2: 3, offset: 2730 }"),
    (0x2a31_45e3, "Blt { rs1: 2, rs2: 3, offset: 2730 }"),
    (0x2a31_55e3, "Bge { rs1: 2, rs2: 3, offset: 2730 }"),
    (0x2a31_65e3, "Bltu { rs1: 2, rs2: 3, offset: 2730 }"),
    (0x2a31_75e3, "Bgeu { rs1: 2, rs2: 3, offset: 2730 }"),
    (0x4e51_0083, "Lb { rd: 1, rs1: 2, imm: 1253 }"),
    (0x4e51_1083, "Lh { rd: 1, rs1: 2, imm: 1253 }"),
    (0x4e51_2083, "Lw { rd: 1, rs1: 2, imm: 1253 }"),
    (0x4e51_4083, "Lbu { rd: 1, rs1: 2, imm: 1253 }"),
    (0x4e51_5083, "Lhu { rd: 1, rs1: 2, imm: 1253 }"),
    (0x4e31_02a3, "Sb { rs1: 2, rs2: 3, imm: 1253 }"),
    (0x4e31_12a3, "Sh { rs1: 2, rs2: 3, imm: 1253 }"),
    (0x4e31_22a3, "Sw { rs1: 2, rs2: 3, imm: 1253 }"),
    (0x4e51_0093, "Addi { rd: 1, rs1: 2, imm: 1253 }"),
    (0x4e51_2093, "Slti { rd: 1, rs1: 2, imm: 1253 }"),
    (0x4e51_3093, "Sltiu { rd: 1, rs1: 2, imm: 1253 }"),
    (0x4e51_4093, "Xori { rd: 1, rs1: 2, imm: 1253 }"),
    (0x4e51_6093, "Ori { rd: 1, rs1: 2, imm: 1253 }"),
    (0x4e51_7093, "Andi { rd: 1, rs1: 2, imm: 1253 }"),
    (0x0151_1093, "Slli { rd: 1, rs1: 2, amount: 21 }"),
    (0x0151_5093, "Srli { rd: 1, rs1: 2, amount: 21 }"),
    (0x4151_5093, "Srai { rd: 1, rs1: 2, amount: 21 }"),
    (0x0031_00b3, "Add { rd: 1, rs1: 2, rs2: 3 }"),
    (0x4031_00b3, "Sub { rd: 1, rs1: 2, rs2: 3 }"),
    (0x0031_10b3, "Sll { rd: 1, rs1: 2, rs2: 3 }"),
    (0x0031_20b3, "Slt { rd: 1, rs1: 2, rs2: 3 }"),
    (0x0031_30b3, "Sltu { rd: 1, rs1: 2, rs2: 3 }"),
    (0x0031_40b3, "Xor { rd: 1, rs1: 2, rs2: 3 }"),
    (0x0031_50b3, "Srl { rd: 1, rs1: 2, rs2: 3 }"),
    (0x4031_50b3, "Sra { rd: 1, rs1: 2, rs2: 3 }"),
    (0x0031_60b3, "Or { rd: 1, rs1: 2, rs2: 3 }"),
    (0x0031_70b3, "And { rd: 1, rs1: 2, rs2: 3 }"),
    (0x0231_00b3, "Mul { rd: 1, rs1: 2, rs2: 3 }"),
    (0x0231_10b3, "Mulh { rd: 1, rs1: 2, rs2: 3 }"),
    (0x0231_20b3, "Mulhsu { rd: 1, rs1: 2, rs2: 3 }"),
    (0x0231_30b3, "Mulhu { rd: 1, rs1: 2, rs2: 3 }"),
    (0x0231_40b3, "Div { rd: 1, rs1: 2, rs2: 3 }"),
    (0x0231_50b3, "Divu { rd: 1, rs1: 2, rs2: 3 }"),
    (0x0231_60b3, "Rem { rd: 1, rs1: 2, rs2: 3 }"),
    (0x0231_70b3, "Remu { rd: 1, rs1: 2, rs2: 3 }"),
    (0x0ff0_000f, "Fence { word: 267386895 }"),
];

/// The same at the high end.
const HIGH: [(u32, &str); 46] = [
    (0xffff_ffb7, "Lui { rd: 31, imm: 1048575 }"),
    (0xffff_ff97, "Auipc { rd: 31, imm: 1048575 }"),
    (0x7fff_ffef, "Jal { rd: 31, offset: 1048574 }"),
    (0x7fff_8fe7, "Jalr { rd: 31, rs1: 31, imm: 2047 }"),
    (0x7fff_8fe3, "Beq { rs1: 31, rs2: 31, offset: 4094 }"),
    (0x7fff_9fe3, "Bne { rs1: 31, rs2: 31, offset: 4094 }"),
    (0x7fff_cfe3, "Blt { rs1: 31, rs2: 31, offset: 4094 }"),
    (0x7fff_dfe3, "Bge { rs1: 31, rs2: 31, offset: 4094 }"),
    (0x7fff_efe3, "Bltu { rs1: 31, rs2: 31, offset: 4094 }"),
    (0x7fff_ffe3, "Bgeu { rs1: 31, rs2: 31, offset: 4094 }"),
    (0x7fff_8f83, "Lb { rd: 31, rs1: 31, imm: 2047 }"),
    (0x7fff_9f83, "Lh { rd: 31, rs1: 31, imm: 2047 }"),
    (0x7fff_af83, "Lw { rd: 31, rs1: 31, imm: 2047 }"),
    (0x7fff_cf83, "Lbu { rd: 31, rs1: 31, imm: 2047 }"),
    (0x7fff_df83, "Lhu { rd: 31, rs1: 31, imm: 2047 }"),
    (0x7fff_8fa3, "Sb { rs1: 31, rs2: 31, imm: 2047 }"),
    (0x7fff_9fa3, "Sh { rs1: 31, rs2: 31, imm: 2047 }"),
    (0x7fff_afa3, "Sw { rs1: 31, rs2: 31, imm: 2047 }"),
    (0x7fff_8f93, "Addi { rd: 31, rs1: 31, imm: 2047 }"),
    (0x7fff_af93, "Slti { rd: 31, rs1: 31, imm: 2047 }"),
    (0x7fff_bf93, "Sltiu { rd: 31, rs1: 31, imm: 2047 }"),
    (0x7fff_cf93, "Xori { rd: 31, rs1: 31, imm: 2047 }"),
    (0x7fff_ef93, "Ori { rd: 31, rs1: 31, imm: 2047 }"),
    (0x7fff_ff93, "Andi { rd: 31, rs1: 31, imm: 2047 }"),
    (0x01ff_9f93, "Slli { rd: 31, rs1: 31, amount: 31 }"),
    (0x01ff_df93, "Srli { rd: 31, rs1: 31, amount: 31 }"),
    (0x41ff_df93, "Srai { rd: 31, rs1: 31, amount: 31 }"),
    (0x01ff_8fb3, "Add { rd: 31, rs1: 31, rs2: 31 }"),
    (0x41ff_8fb3, "Sub { rd: 31, rs1: 31, rs2: 31 }"),
    (0x01ff_9fb3, "Sll { rd: 31, rs1: 31, rs2: 31 }"),
    (0x01ff_afb3, "Slt { rd: 31, rs1: 31, rs2: 31 }"),
    (0x01ff_bfb3, "Sltu { rd: 31, rs1: 31, rs2: 31 }"),
    (0x01ff_cfb3, "Xor { rd: 31, rs1: 31, rs2: 31 }"),
    (0x01ff_dfb3, "Srl { rd: 31, rs1: 31, rs2: 31 }"),
    (0x41ff_dfb3, "Sra { rd: 31, rs1: 31, rs2: 31 }"),
    (0x01ff_efb3, "Or { rd: 31, rs1: 31, rs2: 31 }"),
    (0x01ff_ffb3, "And { rd: 31, rs1: 31, rs2: 31 }"),
    (0x03ff_8fb3, "Mul { rd: 31, rs1: 31, rs2: 31 }"),
    (0x03ff_9fb3, "Mulh { rd: 31, rs1: 31, rs2: 31 }"),
    (0x03ff_afb3, "Mulhsu { rd: 31, rs1: 31, rs2: 31 }"),
    (0x03ff_bfb3, "Mulhu { rd: 31, rs1: 31, rs2: 31 }"),
    (0x03ff_cfb3, "Div { rd: 31, rs1: 31, rs2: 31 }"),
    (0x03ff_dfb3, "Divu { rd: 31, rs1: 31, rs2: 31 }"),
    (0x03ff_efb3, "Rem { rd: 31, rs1: 31, rs2: 31 }"),
    (0x03ff_ffb3, "Remu { rd: 31, rs1: 31, rs2: 31 }"),
    (0xffff_8f8f, "Fence { word: 4294938511 }"),
];

/// Instructions with one field just out of its range.
const OUT_OF_RANGE: [Instr; 14] = [
    Instr::Lui { rd: 32, imm: 0 },
    Instr::Auipc {
        rd: 0,
        imm: 0x10_0000,
    },
    Instr::Jal { rd: 0, offset: 1 },
    Instr::Jal {
        rd: 0,
        offset: 1048576,
    },
    Instr::Jal {
        rd: 0,
        offset: -1048578,
    },
    Instr::Jalr {
        rd: 0,
        rs1: 32,
        imm: 0,
    },
    Instr::Addi {
        rd: 0,
        rs1: 0,
        imm: 2048,
    },
    Instr::Lw {
        rd: 0,
        rs1: 0,
        imm: -2049,
    },
    Instr::Sb {
        rs1: 0,
        rs2: 32,
        imm: 0,
    },
    Instr::Beq {
        rs1: 0,
        rs2: 0,
        offset: 4096,
    },
    Instr::Bge {
        rs1: 0,
        rs2: 0,
        offset: -4098,
    },
    Instr::Slli {
        rd: 0,
        rs1: 0,
        amount: 32,
    },
    Instr::Remu {
        rd: 0,
        rs1: 0,
        rs2: 32,
    },
    Instr::Fence { word: 0x0000_100f },
];

/// Words that stand for no instruction: among them MRET, FENCE.I, and rows of RV64I.
const ILLEGAL: [u32; 15] = [
    0xffff_ffff,
    0x0000_0000,
    0x0000_0001,
    0x0020_0073,
    0x0010_00f3,
    0x3020_0073,
    0x0000_100f,
    0x0000_2063,
    0x0000_3003,
    0x0000_3023,
    0x4000_1013,
    0x0200_5013,
    0x4000_7033,
    0x0400_0033,
    0x0000_1067,
];

/// The place of an instruction's row in the listing.
fn row_of(instr: Instr) -> usize
    ensures { result < 48 }
{
    match instr {
        Instr::Lui { .. } => 0,
        Instr::Auipc { .. } => 1,
        Instr::Jal { .. } => 2,
        Instr::Jalr { .. } => 3,
        Instr::Beq { .. } => 4,
        Instr::Bne { .. } => 5,
        Instr::Blt { .. } => 6,
        Instr::Bge { .. } => 7,
        Instr::Bltu { .. } => 8,
        Instr::Bgeu { .. } => 9,
        Instr::Lb { .. } => 10,
        Instr::Lh { .. } => 11,
        Instr::Lw { .. } => 12,
        Instr::Lbu { .. } => 13,
        Instr::Lhu { .. } => 14,
        Instr::Sb { .. } => 15,
        Instr::Sh { .. } => 16,
        Instr::Sw { .. } => 17,
        Instr::Addi { .. } => 18,
        Instr::Slti { .. } => 19,
        Instr::Sltiu { .. } => 20,
        Instr::Xori { .. } => 21,
        Instr::Ori { .. } => 22,
        Instr::Andi { .. } => 23,
        Instr::Slli { .. } => 24,
        Instr::Srli { .. } => 25,
        Instr::Srai { .. } => 26,
        Instr::Add { .. } => 27,
        Instr::Sub { .. } => 28,
        Instr::Sll { .. } => 29,
        Instr::Slt { .. } => 30,
        Instr::Sltu { .. } => 31,
        Instr::Xor { .. } => 32,
        Instr::Srl { .. } => 33,
        Instr::Sra { .. } => 34,
        Instr::Or { .. } => 35,
        Instr::And { .. } => 36,
        Instr::Mul { .. } => 37,
        Instr::Mulh { .. } => 38,
        Instr::Mulhsu { .. } => 39,
        Instr::Mulhu { .. } => 40,
        Instr::Div { .. } => 41,
        Instr::Divu { .. } => 42,
        Instr::Rem { .. } => 43,
        Instr::Remu { .. } => 44,
        Instr::Fence { .. } => 45,
        Instr::Ecall => 46,
        Instr::Ebreak => 47,
    }
}

/// How many of the words with all values of opcode, funct3 and funct7, and zeros elsewhere, the listing leaves to each row: a row
/// that fixes only the opcode has 1024, one that fixes funct3 too 128, and one that fixes funct7 too 1. EBREAK has bit 20.
const WORDS_OF_ROW: [u32; 48] = [
    1024, 1024, 1024, 128, 128, 128, 128, 128, 128, 128, 128, 128, 128, 128, 128, 128, 128, 128,
    128, 128, 128, 128, 128, 128, 1, 1, 1, 1, 1, 1, 1, 1, 1, 1, 1, 1, 1, 1, 1, 1, 1, 1, 1, 1, 1,
    128, 1, 0,
];

#[test]
fn words_of_another_assembler(rt: HostRuntime) -> Result<(), Fail> {
    for table in [LOW.as_slice(), MIDDLE.as_slice(), HIGH.as_slice()] {
        for (word, text) in table {
            let instr = decode(*word).ok_or("no instruction")?;
            let shown = format!(in rt.alloc(); "{instr:?}")?;
            assert_eq!(rt; shown.as_str(), *text, "{word:#010x}");
            assert_eq!(rt; encode(&instr), Some(*word), "{text}");
            assert_eq!(rt; decode_encoded(&instr), Some(instr));
            assert_eq!(rt; encode_decoded(*word), Some(*word));
        }
    }
    for instr in &OUT_OF_RANGE {
        assert_eq!(rt; encode(instr), None, "{instr:?}");
    }
    for word in &ILLEGAL {
        assert_eq!(rt; decode(*word), None, "{word:#010x}");
    }
    listing_is_function();
    one_instruction_a_word();
    one_word_an_instruction();
    pc_stays_aligned();
    Ok(())
}

#[test]
fn words_of_each_row(rt: HostRuntime) {
    let mut counts = [0u32; 48];
    for opcode in 0..128u32 {
        for funct3 in 0..8u32 {
            for funct7 in 0..128u32 {
                if let Some(instr) = decode(opcode | funct3 << 12 | funct7 << 25) {
                    let row = row_of(instr);
                    counts[row] = counts[row].wrapping_add(1);
                }
            }
        }
    }
    assert_eq!(rt; counts, WORDS_OF_ROW);
}
