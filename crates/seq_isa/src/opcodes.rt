//! The major opcodes, under the names of the manual's opcode map.

pub const LOAD: u8 = 0b0000011;

pub const MISC_MEM: u8 = 0b0001111;

pub const OP_IMM: u8 = 0b0010011;

pub const AUIPC: u8 = 0b0010111;

pub const STORE: u8 = 0b0100011;

pub const OP: u8 = 0b0110011;

pub const LUI: u8 = 0b0110111;

pub const BRANCH: u8 = 0b1100011;

pub const JALR: u8 = 0b1100111;

pub const JAL: u8 = 0b1101111;

pub const SYSTEM: u8 = 0b1110011;
