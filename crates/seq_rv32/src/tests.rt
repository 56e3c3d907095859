//! The instructions of each row at their edges. The expected values are the manual's.
ghost use Rattle.std.specs.Prelude.{◌≡◌, ℕ, ◌%◌, length};

use crate::{Admit, ByteMemory, Effect, Port, Regs, apply, exec, plan};
use seq_words::Items;
use std::test::Fail;

/// Words that LLVM assembles of instructions that write x3, with what x1 and x2 hold, and what x3 gets.
const VALUES: [(u32, u32, u32, u32); 133] = [
    (0x0020_81b3, 0x0000_0000, 0xffff_ffff, 0xffff_ffff), // add x3, x1, x2
    (0x0020_81b3, 0x7fff_ffff, 0x0000_0001, 0x8000_0000), // add x3, x1, x2
    (0x0020_81b3, 0x8000_0000, 0xffff_ffff, 0x7fff_ffff), // add x3, x1, x2
    (0x0020_81b3, 0x0000_0005, 0xffff_fffd, 0x0000_0002), // add x3, x1, x2
    (0x4020_81b3, 0x0000_0000, 0xffff_ffff, 0x0000_0001), // sub x3, x1, x2
    (0x4020_81b3, 0x7fff_ffff, 0x0000_0001, 0x7fff_fffe), // sub x3, x1, x2
    (0x4020_81b3, 0x8000_0000, 0xffff_ffff, 0x8000_0001), // sub x3, x1, x2
    (0x4020_81b3, 0x0000_0005, 0xffff_fffd, 0x0000_0008), // sub x3, x1, x2
    (0x0020_91b3, 0x8000_0001, 0x0000_0000, 0x8000_0001), // sll x3, x1, x2
    (0x0020_91b3, 0x8000_0001, 0x0000_001f, 0x8000_0000), // sll x3, x1, x2
    (0x0020_91b3, 0xf000_0000, 0x0000_0024, 0x0000_0000), // sll x3, x1, x2
    (0x0020_91b3, 0x7fff_ffff, 0xffff_ffe4, 0xffff_fff0), // sll x3, x1, x2
    (0x0020_a1b3, 0x0000_0000, 0xffff_ffff, 0x0000_0000), // slt x3, x1, x2
    (0x0020_a1b3, 0x7fff_ffff, 0x0000_0001, 0x0000_0000), // slt x3, x1, x2
    (0x0020_a1b3, 0x8000_0000, 0xffff_ffff, 0x0000_0001), // slt x3, x1, x2
    (0x0020_a1b3, 0x0000_0005, 0xffff_fffd, 0x0000_0000), // slt x3, x1, x2
    (0x0020_b1b3, 0x0000_0000, 0xffff_ffff, 0x0000_0001), // sltu x3, x1, x2
    (0x0020_b1b3, 0x7fff_ffff, 0x0000_0001, 0x0000_0000), // sltu x3, x1, x2
    (0x0020_b1b3, 0x8000_0000, 0xffff_ffff, 0x0000_0001), // sltu x3, x1, x2
    (0x0020_b1b3, 0x0000_0005, 0xffff_fffd, 0x0000_0001), // sltu x3, x1, x2
    (0x0020_c1b3, 0x0000_0000, 0xffff_ffff, 0xffff_ffff), // xor x3, x1, x2
    (0x0020_c1b3, 0x7fff_ffff, 0x0000_0001, 0x7fff_fffe), // xor x3, x1, x2
    (0x0020_c1b3, 0x8000_0000, 0xffff_ffff, 0x7fff_ffff), // xor x3, x1, x2
    (0x0020_c1b3, 0x0000_0005, 0xffff_fffd, 0xffff_fff8), // xor x3, x1, x2
    (0x0020_d1b3, 0x8000_0001, 0x0000_0000, 0x8000_0001), // srl x3, x1, x2
    (0x0020_d1b3, 0x8000_0001, 0x0000_001f, 0x0000_0001), // srl x3, x1, x2
    (0x0020_d1b3, 0xf000_0000, 0x0000_0024, 0x0f00_0000), // srl x3, x1, x2
    (0x0020_d1b3, 0x7fff_ffff, 0xffff_ffe4, 0x07ff_ffff), // srl x3, x1, x2
    (0x4020_d1b3, 0x8000_0001, 0x0000_0000, 0x8000_0001), // sra x3, x1, x2
    (0x4020_d1b3, 0x8000_0001, 0x0000_001f, 0xffff_ffff), // sra x3, x1, x2
    (0x4020_d1b3, 0xf000_0000, 0x0000_0024, 0xff00_0000), // sra x3, x1, x2
    (0x4020_d1b3, 0x7fff_ffff, 0xffff_ffe4, 0x07ff_ffff), // sra x3, x1, x2
    (0x0020_e1b3, 0x0000_0000, 0xffff_ffff, 0xffff_ffff), // or x3, x1, x2
    (0x0020_e1b3, 0x7fff_ffff, 0x0000_0001, 0x7fff_ffff), // or x3, x1, x2
    (0x0020_e1b3, 0x8000_0000, 0xffff_ffff, 0xffff_ffff), // or x3, x1, x2
    (0x0020_e1b3, 0x0000_0005, 0xffff_fffd, 0xffff_fffd), // or x3, x1, x2
    (0x0020_f1b3, 0x0000_0000, 0xffff_ffff, 0x0000_0000), // and x3, x1, x2
    (0x0020_f1b3, 0x7fff_ffff, 0x0000_0001, 0x0000_0001), // and x3, x1, x2
    (0x0020_f1b3, 0x8000_0000, 0xffff_ffff, 0x8000_0000), // and x3, x1, x2
    (0x0020_f1b3, 0x0000_0005, 0xffff_fffd, 0x0000_0005), // and x3, x1, x2
    (0x0220_81b3, 0x8000_0000, 0x8000_0000, 0x0000_0000), // mul x3, x1, x2
    (0x0220_81b3, 0xffff_ffff, 0xffff_ffff, 0x0000_0001), // mul x3, x1, x2
    (0x0220_81b3, 0x8000_0000, 0xffff_ffff, 0x8000_0000), // mul x3, x1, x2
    (0x0220_81b3, 0x7fff_ffff, 0x8000_0001, 0xffff_ffff), // mul x3, x1, x2
    (0x0220_81b3, 0x1234_5678, 0x9abc_def0, 0x242d_2080), // mul x3, x1, x2
    (0x0220_91b3, 0x8000_0000, 0x8000_0000, 0x4000_0000), // mulh x3, x1, x2
    (0x0220_91b3, 0xffff_ffff, 0xffff_ffff, 0x0000_0000), // mulh x3, x1, x2
    (0x0220_91b3, 0x8000_0000, 0xffff_ffff, 0x0000_0000), // mulh x3, x1, x2
    (0x0220_91b3, 0x7fff_ffff, 0x8000_0001, 0xc000_0000), // mulh x3, x1, x2
    (0x0220_91b3, 0x1234_5678, 0x9abc_def0, 0xf8cc_93d6), // mulh x3, x1, x2
    (0x0220_a1b3, 0x8000_0000, 0x8000_0000, 0xc000_0000), // mulhsu x3, x1, x2
    (0x0220_a1b3, 0xffff_ffff, 0xffff_ffff, 0xffff_ffff), // mulhsu x3, x1, x2
    (0x0220_a1b3, 0x8000_0000, 0xffff_ffff, 0x8000_0000), // mulhsu x3, x1, x2
    (0x0220_a1b3, 0x7fff_ffff, 0x8000_0001, 0x3fff_ffff), // mulhsu x3, x1, x2
    (0x0220_a1b3, 0x1234_5678, 0x9abc_def0, 0x0b00_ea4e), // mulhsu x3, x1, x2
    (0x0220_b1b3, 0x8000_0000, 0x8000_0000, 0x4000_0000), // mulhu x3, x1, x2
    (0x0220_b1b3, 0xffff_ffff, 0xffff_ffff, 0xffff_fffe), // mulhu x3, x1, x2
    (0x0220_b1b3, 0x8000_0000, 0xffff_ffff, 0x7fff_ffff), // mulhu x3, x1, x2
    (0x0220_b1b3, 0x7fff_ffff, 0x8000_0001, 0x3fff_ffff), // mulhu x3, x1, x2
    (0x0220_b1b3, 0x1234_5678, 0x9abc_def0, 0x0b00_ea4e), // mulhu x3, x1, x2
    (0x0220_c1b3, 0x8000_0000, 0xffff_ffff, 0x8000_0000), // div x3, x1, x2
    (0x0220_c1b3, 0x0000_0007, 0x0000_0000, 0xffff_ffff), // div x3, x1, x2
    (0x0220_c1b3, 0x8000_0000, 0x0000_0000, 0xffff_ffff), // div x3, x1, x2
    (0x0220_c1b3, 0xffff_fff9, 0x0000_0002, 0xffff_fffd), // div x3, x1, x2
    (0x0220_c1b3, 0x0000_0007, 0xffff_fffe, 0xffff_fffd), // div x3, x1, x2
    (0x0220_c1b3, 0xffff_ffff, 0x8000_0000, 0x0000_0000), // div x3, x1, x2
    (0x0220_d1b3, 0x8000_0000, 0xffff_ffff, 0x0000_0000), // divu x3, x1, x2
    (0x0220_d1b3, 0x0000_0007, 0x0000_0000, 0xffff_ffff), // divu x3, x1, x2
    (0x0220_d1b3, 0x8000_0000, 0x0000_0000, 0xffff_ffff), // divu x3, x1, x2
    (0x0220_d1b3, 0xffff_fff9, 0x0000_0002, 0x7fff_fffc), // divu x3, x1, x2
    (0x0220_d1b3, 0x0000_0007, 0xffff_fffe, 0x0000_0000), // divu x3, x1, x2
    (0x0220_d1b3, 0xffff_ffff, 0x8000_0000, 0x0000_0001), // divu x3, x1, x2
    (0x0220_e1b3, 0x8000_0000, 0xffff_ffff, 0x0000_0000), // rem x3, x1, x2
    (0x0220_e1b3, 0x0000_0007, 0x0000_0000, 0x0000_0007), // rem x3, x1, x2
    (0x0220_e1b3, 0x8000_0000, 0x0000_0000, 0x8000_0000), // rem x3, x1, x2
    (0x0220_e1b3, 0xffff_fff9, 0x0000_0002, 0xffff_ffff), // rem x3, x1, x2
    (0x0220_e1b3, 0x0000_0007, 0xffff_fffe, 0x0000_0001), // rem x3, x1, x2
    (0x0220_e1b3, 0xffff_ffff, 0x8000_0000, 0xffff_ffff), // rem x3, x1, x2
    (0x0220_f1b3, 0x8000_0000, 0xffff_ffff, 0x8000_0000), // remu x3, x1, x2
    (0x0220_f1b3, 0x0000_0007, 0x0000_0000, 0x0000_0007), // remu x3, x1, x2
    (0x0220_f1b3, 0x8000_0000, 0x0000_0000, 0x8000_0000), // remu x3, x1, x2
    (0x0220_f1b3, 0xffff_fff9, 0x0000_0002, 0x0000_0001), // remu x3, x1, x2
    (0x0220_f1b3, 0x0000_0007, 0xffff_fffe, 0x0000_0007), // remu x3, x1, x2
    (0x0220_f1b3, 0xffff_ffff, 0x8000_0000, 0x7fff_ffff), // remu x3, x1, x2
    (0xfff0_8193, 0x0000_0000, 0x0000_0000, 0xffff_ffff), // addi x3, x1, -1
    (0x8000_8193, 0x8000_0000, 0x0000_0000, 0x7fff_f800), // addi x3, x1, -2048
    (0x7ff0_8193, 0xffff_ffff, 0x0000_0000, 0x0000_07fe), // addi x3, x1, 2047
    (0x8000_8193, 0xffff_f800, 0x0000_0000, 0xffff_f000), // addi x3, x1, -2048
    (0xfff0_a193, 0x0000_0000, 0x0000_0000, 0x0000_0000), // slti x3, x1, -1
    (0x8000_a193, 0x8000_0000, 0x0000_0000, 0x0000_0001), // slti x3, x1, -2048
    (0x7ff0_a193, 0xffff_ffff, 0x0000_0000, 0x0000_0001), // slti x3, x1, 2047
    (0x8000_a193, 0xffff_f800, 0x0000_0000, 0x0000_0000), // slti x3, x1, -2048
    (0xfff0_b193, 0x0000_0000, 0x0000_0000, 0x0000_0001), // sltiu x3, x1, -1
    (0x8000_b193, 0x8000_0000, 0x0000_0000, 0x0000_0001), // sltiu x3, x1, -2048
    (0x7ff0_b193, 0xffff_ffff, 0x0000_0000, 0x0000_0000), // sltiu x3, x1, 2047
    (0x8000_b193, 0xffff_f800, 0x0000_0000, 0x0000_0000), // sltiu x3, x1, -2048
    (0xfff0_c193, 0x0000_0000, 0x0000_0000, 0xffff_ffff), // xori x3, x1, -1
    (0x8000_c193, 0x8000_0000, 0x0000_0000, 0x7fff_f800), // xori x3, x1, -2048
    (0x7ff0_c193, 0xffff_ffff, 0x0000_0000, 0xffff_f800), // xori x3, x1, 2047
    (0x8000_c193, 0xffff_f800, 0x0000_0000, 0x0000_0000), // xori x3, x1, -2048
    (0xfff0_e193, 0x0000_0000, 0x0000_0000, 0xffff_ffff), // ori x3, x1, -1
    (0x8000_e193, 0x8000_0000, 0x0000_0000, 0xffff_f800), // ori x3, x1, -2048
    (0x7ff0_e193, 0xffff_ffff, 0x0000_0000, 0xffff_ffff), // ori x3, x1, 2047
    (0x8000_e193, 0xffff_f800, 0x0000_0000, 0xffff_f800), // ori x3, x1, -2048
    (0xfff0_f193, 0x0000_0000, 0x0000_0000, 0x0000_0000), // andi x3, x1, -1
    (0x8000_f193, 0x8000_0000, 0x0000_0000, 0x8000_0000), // andi x3, x1, -2048
    (0x7ff0_f193, 0xffff_ffff, 0x0000_0000, 0x0000_07ff), // andi x3, x1, 2047
    (0x8000_f193, 0xffff_f800, 0x0000_0000, 0xffff_f800), // andi x3, x1, -2048
    (0x0000_9193, 0x8000_0001, 0x0000_0000, 0x8000_0001), // slli x3, x1, 0
    (0x01f0_9193, 0x8000_0001, 0x0000_0000, 0x8000_0000), // slli x3, x1, 31
    (0x0040_9193, 0xf000_0000, 0x0000_0000, 0x0000_0000), // slli x3, x1, 4
    (0x0000_d193, 0x8000_0001, 0x0000_0000, 0x8000_0001), // srli x3, x1, 0
    (0x01f0_d193, 0x8000_0001, 0x0000_0000, 0x0000_0001), // srli x3, x1, 31
    (0x0040_d193, 0xf000_0000, 0x0000_0000, 0x0f00_0000), // srli x3, x1, 4
    (0x4000_d193, 0x8000_0001, 0x0000_0000, 0x8000_0001), // srai x3, x1, 0
    (0x41f0_d193, 0x8000_0001, 0x0000_0000, 0xffff_ffff), // srai x3, x1, 31
    (0x4040_d193, 0xf000_0000, 0x0000_0000, 0xff00_0000), // srai x3, x1, 4
    (0xffff_f1b7, 0x0000_0000, 0x0000_0000, 0xffff_f000), // lui x3, 0xfffff
    (0xffff_f197, 0x0000_0000, 0x0000_0000, 0xffff_f010), // auipc x3, 0xfffff
    (0x0000_1197, 0x0000_0000, 0x0000_0000, 0x0000_1010), // auipc x3, 1
    (0xffc0_8183, 0x0000_0024, 0x0000_0000, 0xffff_ff80), // lb x3, -4(x1)
    (0xffc0_8183, 0x0000_0025, 0x0000_0000, 0x0000_007f), // lb x3, -4(x1)
    (0xffc0_c183, 0x0000_0024, 0x0000_0000, 0x0000_0080), // lbu x3, -4(x1)
    (0xffc0_c183, 0x0000_0026, 0x0000_0000, 0x0000_00ff), // lbu x3, -4(x1)
    (0xffc0_9183, 0x0000_0024, 0x0000_0000, 0x0000_7f80), // lh x3, -4(x1)
    (0xffc0_9183, 0x0000_0028, 0x0000_0000, 0xffff_fffe), // lh x3, -4(x1)
    (0xffc0_d183, 0x0000_0028, 0x0000_0000, 0x0000_fffe), // lhu x3, -4(x1)
    (0xffc0_d183, 0x0000_002a, 0x0000_0000, 0x0000_8000), // lhu x3, -4(x1)
    (0xffc0_9183, 0x0000_002a, 0x0000_0000, 0xffff_8000), // lh x3, -4(x1)
    (0xffc0_a183, 0x0000_0024, 0x0000_0000, 0x01ff_7f80), // lw x3, -4(x1)
    (0xffc0_a183, 0x0000_0028, 0x0000_0000, 0x8000_fffe), // lw x3, -4(x1)
    (0xffc0_8183, 0x0000_0043, 0x0000_0000, 0x0000_0000), // lb x3, -4(x1)
    (0xffc0_a183, 0x0000_0040, 0x0000_0000, 0x0000_0000), // lw x3, -4(x1)
];

/// Words of jumps, branches and instructions that write no register, with what x1 and x2 hold, the register that is written with
/// its value, and the next pc.
const MOVES: [(u32, u32, u32, Option<(u8, u32)>, u32); 33] = [
    (0xfe20_8ae3, 0x0000_0001, 0x0000_0001, None, 4), // beq x1, x2, -12
    (0xfe20_8ae3, 0x0000_0001, 0x0000_0002, None, 20), // beq x1, x2, -12
    (0x0020_8363, 0x0000_0001, 0x0000_0002, None, 20), // beq x1, x2, 6
    (0xfe20_9ae3, 0x0000_0001, 0x0000_0002, None, 4), // bne x1, x2, -12
    (0xfe20_9ae3, 0x0000_0001, 0x0000_0001, None, 20), // bne x1, x2, -12
    (0x0020_9363, 0x0000_0001, 0x0000_0001, None, 20), // bne x1, x2, 6
    (0xfe20_cae3, 0xffff_ffff, 0x0000_0001, None, 4), // blt x1, x2, -12
    (0xfe20_cae3, 0x0000_0001, 0xffff_ffff, None, 20), // blt x1, x2, -12
    (0x0020_c363, 0x0000_0001, 0xffff_ffff, None, 20), // blt x1, x2, 6
    (0xfe20_cae3, 0x0000_0001, 0x0000_0001, None, 20), // blt x1, x2, -12
    (0x0020_c363, 0x0000_0001, 0x0000_0001, None, 20), // blt x1, x2, 6
    (0xfe20_dae3, 0x0000_0001, 0xffff_ffff, None, 4), // bge x1, x2, -12
    (0xfe20_dae3, 0x0000_0001, 0x0000_0001, None, 4), // bge x1, x2, -12
    (0xfe20_dae3, 0xffff_ffff, 0x0000_0001, None, 20), // bge x1, x2, -12
    (0x0020_d363, 0xffff_ffff, 0x0000_0001, None, 20), // bge x1, x2, 6
    (0xfe20_eae3, 0x0000_0001, 0xffff_ffff, None, 4), // bltu x1, x2, -12
    (0xfe20_eae3, 0xffff_ffff, 0x0000_0001, None, 20), // bltu x1, x2, -12
    (0x0020_e363, 0xffff_ffff, 0x0000_0001, None, 20), // bltu x1, x2, 6
    (0xfe20_eae3, 0x0000_0001, 0x0000_0001, None, 20), // bltu x1, x2, -12
    (0x0020_e363, 0x0000_0001, 0x0000_0001, None, 20), // bltu x1, x2, 6
    (0xfe20_fae3, 0xffff_ffff, 0x0000_0001, None, 4), // bgeu x1, x2, -12
    (0xfe20_fae3, 0x0000_0001, 0x0000_0001, None, 4), // bgeu x1, x2, -12
    (0xfe20_fae3, 0x0000_0001, 0xffff_ffff, None, 20), // bgeu x1, x2, -12
    (0x0020_f363, 0x0000_0001, 0xffff_ffff, None, 20), // bgeu x1, x2, 6
    (0x0180_01ef, 0x0000_0000, 0x0000_0000, Some((3, 20)), 40), // jal x3, 24
    (0xffdf_f06f, 0x0000_0000, 0x0000_0000, None, 12), // jal x0, -4
    (
        0xfedf_f1ef,
        0x0000_0000,
        0x0000_0000,
        Some((3, 20)),
        0xffff_fffc,
    ), // jal x3, -20
    (0x0050_80e7, 0x0000_0024, 0x0000_0000, Some((1, 20)), 40), // jalr x1, 5(x1)
    (0xfff0_8067, 0x0000_0001, 0x0000_0000, None, 0), // jalr x0, -1(x1)
    (0x0020_81e7, 0xffff_fffe, 0x0000_0000, Some((3, 20)), 0), // jalr x3, 2(x1)
    (0x0010_8013, 0x0000_0006, 0x0000_0000, None, 20), // addi x0, x1, 1
    (0x0000_a003, 0x0000_0020, 0x0000_0000, None, 20), // lw x0, 0(x1)
    (0x0ff0_000f, 0x0000_0000, 0x0000_0000, None, 20), // fence
];

/// Words of stores, with what x1 and x2 hold, and the address, the width and the value that are stored.
const STORES: [(u32, u32, u32, (u32, u8, u32)); 3] = [
    (0x0020_80a3, 0x0000_0020, 0xaabb_ccdd, (33, 1, 0xdd)), // sb x2, 1(x1)
    (0x0020_9023, 0x0000_0024, 0xaabb_ccdd, (36, 2, 0xccdd)), // sh x2, 0(x1)
    (0x0020_a023, 0x0000_003c, 0xaabb_ccdd, (60, 4, 0xaabb_ccdd)), // sw x2, 0(x1)
];

/// Words of instructions that trap, with what x1 and x2 hold, and the cause.
const TRAPS: [(u32, u32, u32, u8); 23] = [
    (0x0020_8363, 0x0000_0001, 0x0000_0001, 0), // beq x1, x2, 6
    (0x0020_9363, 0x0000_0001, 0x0000_0002, 0), // bne x1, x2, 6
    (0x0020_c363, 0xffff_ffff, 0x0000_0001, 0), // blt x1, x2, 6
    (0x0020_d363, 0x0000_0001, 0xffff_ffff, 0), // bge x1, x2, 6
    (0x0020_d363, 0x0000_0001, 0x0000_0001, 0), // bge x1, x2, 6
    (0x0020_e363, 0x0000_0001, 0xffff_ffff, 0), // bltu x1, x2, 6
    (0x0020_f363, 0xffff_ffff, 0x0000_0001, 0), // bgeu x1, x2, 6
    (0x0020_f363, 0x0000_0001, 0x0000_0001, 0), // bgeu x1, x2, 6
    (0x0020_01ef, 0x0000_0000, 0x0000_0000, 0), // jal x3, 2
    (0x0000_81e7, 0x0000_0006, 0x0000_0000, 0), // jalr x3, 0(x1)
    (0x0000_81e7, 0x0000_0007, 0x0000_0000, 0), // jalr x3, 0(x1)
    (0x0000_8003, 0x0000_0040, 0x0000_0000, 5), // lb x0, 0(x1)
    (0x0000_9183, 0x0000_0021, 0x0000_0000, 4), // lh x3, 0(x1)
    (0x0000_d183, 0x0000_1001, 0x0000_0000, 4), // lhu x3, 0(x1)
    (0x0000_a183, 0x0000_0022, 0x0000_0000, 4), // lw x3, 0(x1)
    (0x0000_a183, 0x0000_0040, 0x0000_0000, 5), // lw x3, 0(x1)
    (0xfff0_c183, 0x0000_0000, 0x0000_0000, 5), // lbu x3, -1(x1)
    (0x0020_8023, 0x0000_0040, 0x0000_0000, 7), // sb x2, 0(x1)
    (0x0020_9023, 0x0000_1001, 0x0000_0000, 6), // sh x2, 0(x1)
    (0x0020_9023, 0x0000_0040, 0x0000_0000, 7), // sh x2, 0(x1)
    (0x0020_a023, 0x0000_003e, 0x0000_0000, 6), // sw x2, 0(x1)
    (0xfe20_ae23, 0x0000_0000, 0x0000_0000, 7), // sw x2, -4(x1)
    (0x0010_0073, 0x0000_0000, 0x0000_0000, 3), // ebreak
];

/// The bytes of the memory, but for the word at the place of pc.
const BYTES: [u8; 64] = [
    0x00, 0x00, 0x00, 0x00, 0x00, 0x00, 0x00, 0x00, 0x00, 0x00, 0x00, 0x00, 0x00, 0x00, 0x00, 0x00,
    0x00, 0x00, 0x00, 0x00, 0x00, 0x00, 0x00, 0x00, 0x00, 0x00, 0x00, 0x00, 0x00, 0x00, 0x00, 0x00,
    0x80, 0x7f, 0xff, 0x01, 0xfe, 0xff, 0x00, 0x80, 0x00, 0x00, 0x00, 0x00, 0x00, 0x00, 0x00, 0x00,
    0x00, 0x00, 0x00, 0x00, 0x00, 0x00, 0x00, 0x00, 0x00, 0x00, 0x00, 0x00, 0x00, 0x00, 0x00, 0x00,
];

/// The place of the instruction.
const PC: u32 = 16;

/// Registers that all hold 0 but for x1 and x2, with pc at the instruction.
fn registers(first: u32, second: u32) -> Regs
    ensures { result.pc ≡ 16 }
{
    let mut x = [0; 32];
    x[1] = first;
    x[2] = second;
    Regs { x, pc: PC }
}

/// The memory with a word at pc.
fn memory(rt: &HostRuntime, word: u32) -> Result<ByteMemory, Fail> {
    let mut bytes = BYTES.to_vec(rt.alloc())?;
    bytes[16..20].copy_from_slice(&word.to_le_bytes());
    Ok(ByteMemory::new(Items::from_vec(bytes)))
}

/// The effect of an instruction that stores nothing.
fn moves(wrote: Option<(u8, u32)>, next: u32) -> Effect {
    Effect::Next {
        wrote,
        stored: None,
        next,
    }
}

#[test]
fn values_of_each_row(rt: HostRuntime) -> Result<(), Fail> {
    for (word, first, second, value) in &VALUES {
        let mut port = memory(&rt, *word)?;
        let mut regs = registers(*first, *second);
        let effect = exec(&mut regs, &mut port);
        assert_eq!(rt;
            effect,
            moves(Some((3, *value)), PC + 4),
            "{word:#010x} at {first:#x}, {second:#x}"
        );
        assert_eq!(rt; regs.x[3], *value);
        assert_eq!(rt; regs.pc, PC + 4);
    }
    Ok(())
}

#[test]
fn effects_of_each_row(rt: HostRuntime) -> Result<(), Fail> {
    for (word, first, second, wrote, next) in &MOVES {
        let effect = plan(&registers(*first, *second), &memory(&rt, *word)?);
        assert_eq!(rt;
            effect,
            moves(*wrote, *next),
            "{word:#010x} at {first:#x}, {second:#x}"
        );
    }
    for (word, first, second, stored) in &STORES {
        let effect = plan(&registers(*first, *second), &memory(&rt, *word)?);
        let wanted = Effect::Next {
            wrote: None,
            stored: Some(*stored),
            next: PC + 4,
        };
        assert_eq!(rt; effect, wanted, "{word:#010x} at {first:#x}, {second:#x}");
    }
    for (word, first, second, cause) in &TRAPS {
        let effect = plan(&registers(*first, *second), &memory(&rt, *word)?);
        assert_eq!(rt;
            effect,
            Effect::Trap(*cause),
            "{word:#010x} at {first:#x}, {second:#x}"
        );
    }
    Ok(())
}

#[test]
fn stores_calls_and_traps(rt: HostRuntime) -> Result<(), Fail> {
    // sh x2, 0(x1)
    let mut port = memory(&rt, 0x0020_9023)?;
    let mut regs = registers(32, 0xaabb_ccdd);
    let _effect = exec(&mut regs, &mut port);
    assert_eq!(rt; port.load(32, 4), Some(0x01ff_ccdd));

    assert_eq!(rt;
        plan(&registers(0, 0), &memory(&rt, 0x0000_0073)?),
        Effect::Call
    );
    let mut past = Regs { x: [0; 32], pc: 64 };
    assert_eq!(rt; plan(&past, &port), Effect::Trap(1));
    apply(&mut past, &Effect::Trap(1));
    assert_eq!(rt; past.pc, 64);
    assert_eq!(rt; port.admit(64, 1), Admit::Outside);
    if port.admit(16, 4) == Admit::Fits {
        port.store(16, 4, 0xffff_ffff);
    }
    assert_eq!(rt; plan(&registers(0, 0), &port), Effect::Trap(2));
    Ok(())
}
