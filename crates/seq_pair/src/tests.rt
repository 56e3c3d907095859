//! A half that is struck, at each kind of instruction.
ghost use Rattle.std.specs.Prelude.{◌≡◌, ◌≤◌, ◌%◌};

use crate::{Half, Pair, Turn};
use seq_isa::{Instr, encode};
use seq_rv32::ByteMemory;
use seq_words::{Items, Regs};
use std::alloc::Global;
use std::test::Fail;

/// Each kind of instruction, with the two registers that it reads and the one that it writes; 0 stands for none.
const KINDS: [(Instr, u8, u8, u8); 14] = [
    (Instr::Lui { rd: 5, imm: 1 }, 0, 0, 5),
    (Instr::Auipc { rd: 5, imm: 1 }, 0, 0, 5),
    (Instr::Jal { rd: 5, offset: 8 }, 0, 0, 5),
    (
        Instr::Jalr {
            rd: 5,
            rs1: 6,
            imm: 0,
        },
        6,
        0,
        5,
    ),
    (
        Instr::Beq {
            rs1: 6,
            rs2: 7,
            offset: 8,
        },
        6,
        7,
        0,
    ),
    (
        Instr::Lw {
            rd: 5,
            rs1: 6,
            imm: 0,
        },
        6,
        0,
        5,
    ),
    (
        Instr::Lb {
            rd: 31,
            rs1: 30,
            imm: 0,
        },
        30,
        0,
        31,
    ),
    (
        Instr::Sw {
            rs1: 6,
            rs2: 7,
            imm: 0,
        },
        6,
        7,
        0,
    ),
    (
        Instr::Addi {
            rd: 5,
            rs1: 6,
            imm: 1,
        },
        6,
        0,
        5,
    ),
    (
        Instr::Add {
            rd: 1,
            rs1: 30,
            rs2: 31,
        },
        30,
        31,
        1,
    ),
    (
        Instr::Mul {
            rd: 0,
            rs1: 6,
            rs2: 7,
        },
        0,
        0,
        0,
    ),
    (Instr::Fence { word: 0x0000_000f }, 0, 0, 0),
    (Instr::Ecall, 0, 0, 0),
    (Instr::Ebreak, 0, 0, 0),
];

/// A memory of 64 bytes: a word, and bytes that all differ.
fn memory_of(alloc: Global, word: u32) -> Result<ByteMemory, Fail> {
    let mut bytes = Items::new(alloc);
    for byte in word.to_le_bytes() {
        bytes.push(byte)?;
    }
    for place in 4..64u8 {
        bytes.push(place)?;
    }
    Ok(ByteMemory::new(bytes))
}

/// A turn at address 0, with 16 in each register but x0, after a strike of one bit of a register.
fn turn_struck(memory: &mut ByteMemory, half: Half, reg: u8) -> (Turn, Option<Regs>)
    requires low { 1 ≤ reg }
    requires high { reg ≤ 32 }
{
    let mut x = [16; 32];
    x[0] = 0;
    let mut pair = Pair::load(&Regs { x, pc: 0 });
    pair.strike(half, reg, 4);
    let turn = pair.turn(memory);
    (turn, pair.context())
}

#[test]
fn struck_halves(rt: HostRuntime) -> Result<(), Fail> {
    for (instr, first, second, written) in KINDS {
        let word = encode(&instr).ok_or("out of range")?;
        for half in [Half::A, Half::B] {
            for reg in 1..33u8 {
                let mut memory = memory_of(rt.alloc(), word)?;
                let (turn, context) = turn_struck(&mut memory, half, reg);
                let differs = reg == 32 || reg == first || reg == second;
                let equal = !differs && reg == written;
                let found = (matches!(turn, Turn::Diverged), context.is_some());
                assert_eq!(rt; found, (differs, equal), "{instr:?} {half:?} {reg}");
            }
        }
    }
    Ok(())
}
