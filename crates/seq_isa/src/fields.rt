//! The fields that the formats of a word share.
ghost use Rattle.std.specs.Prelude.{◌≡◌, ℕ, ◌+◌, ◌*◌, ◌/◌, ◌%◌, ◌^◌, ◌<◌, ◌≤◌};
ghost use Rattle.seq_isa.specs.Table.{opcode_of, rd_of, funct3_of, rs1_of, rs2_of, funct7_of};

/// The fields of a word in the R format, from the lowest bit on: 7, 5, 3, 5, 5 and 7 bits.
#[derive(Clone, Copy)]
pub struct Fields {
    pub opcode: u8,
    pub rd: u8,
    pub funct3: u8,
    pub rs1: u8,
    pub rs2: u8,
    pub funct7: u8,
}

/// The major opcode, of a word in a format that has it.
#[inline(always)]
pub fn opcode(word: u32) -> u8
    ensures { result ≡ opcode_of word }
{
    (word & 127) as u8
}

/// The register that is written, of a word in a format that has it.
#[inline(always)]
pub fn rd(word: u32) -> u8
    ensures { result ≡ rd_of word }
{
    ((word >> 7) & 31) as u8
}

/// The minor opcode of three bits, of a word in a format that has it.
#[inline(always)]
pub fn funct3(word: u32) -> u8
    ensures { result ≡ funct3_of word }
{
    ((word >> 12) & 7) as u8
}

/// The first register that is read, of a word in a format that has it.
#[inline(always)]
pub fn rs1(word: u32) -> u8
    ensures value { result ≡ rs1_of word }
    ensures bound { result < 32 }
{
    ((word >> 15) & 31) as u8
}

/// The second register that is read, of a word in a format that has it.
#[inline(always)]
pub fn rs2(word: u32) -> u8
    ensures value { result ≡ rs2_of word }
    ensures bound { result < 32 }
{
    ((word >> 20) & 31) as u8
}

/// The minor opcode of seven bits, of a word in a format that has it.
#[inline(always)]
pub fn funct7(word: u32) -> u8
    ensures { result ≡ funct7_of word }
{
    (word >> 25) as u8
}

/// The word with these fields.
pub fn joined(fields: Fields) -> u32
    requires opcode { fields.opcode < 128 }
    requires rd { fields.rd < 32 }
    requires funct3 { fields.funct3 < 8 }
    requires rs1 { fields.rs1 < 32 }
    requires rs2 { fields.rs2 < 32 }
    requires funct7 { fields.funct7 < 128 }
    ensures value { result ≡ fields.opcode + 128 * fields.rd + 4096 * fields.funct3 + 32768 * fields.rs1
        + 1048576 * fields.rs2 + 33554432 * fields.funct7 }
    ensures opcode { opcode_of result ≡ fields.opcode }
    ensures rd { rd_of result ≡ fields.rd }
    ensures funct3 { funct3_of result ≡ fields.funct3 }
    ensures rs1 { rs1_of result ≡ fields.rs1 }
    ensures rs2 { rs2_of result ≡ fields.rs2 }
    ensures funct7 { funct7_of result ≡ fields.funct7 }
{
    fields.opcode as u32
        | (fields.rd as u32) << 7
        | (fields.funct3 as u32) << 12
        | (fields.rs1 as u32) << 15
        | (fields.rs2 as u32) << 20
        | (fields.funct7 as u32) << 25
}
