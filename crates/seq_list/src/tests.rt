//! Listings worked by hand. The words are those of another assembler.
ghost use Rattle.std.specs.Prelude.{IfOk};
ghost use Rattle.seq_loader.specs.Image.{IsImage};

use super::*;
use seq_loader::{Image, read_image};
use seq_words::Bytes;
use std::alloc::Global;
use std::test::Fail;

// Each name, with operands that tell the places apart.
const NAMES: [(u32, &str); 48] = [
    (0x1234_50b7, "lui x1, 0x12345"),
    (0x1234_5097, "auipc x1, 0x12345"),
    (0x5a66_d0ef, "jal x1, 447910"),
    (0x4e51_00e7, "jalr x1, 1253(x2)"),
    (0x2a31_05e3, "beq x2, x3, 2730"),
    (0x2a31_15e3, "bne x2, x3, 2730"),
    (0x2a31_45e3, "blt x2, x3, 2730"),
    (0x2a31_55e3, "bge x2, x3, 2730"),
    (0x2a31_65e3, "bltu x2, x3, 2730"),
    (0x2a31_75e3, "bgeu x2, x3, 2730"),
    (0x4e51_0083, "lb x1, 1253(x2)"),
    (0x4e51_1083, "lh x1, 1253(x2)"),
    (0x4e51_2083, "lw x1, 1253(x2)"),
    (0x4e51_4083, "lbu x1, 1253(x2)"),
    (0x4e51_5083, "lhu x1, 1253(x2)"),
    (0x4e31_02a3, "sb x3, 1253(x2)"),
    (0x4e31_12a3, "sh x3, 1253(x2)"),
    (0x4e31_22a3, "sw x3, 1253(x2)"),
    (0x4e51_0093, "addi x1, x2, 1253"),
    (0x4e51_2093, "slti x1, x2, 1253"),
    (0x4e51_3093, "sltiu x1, x2, 1253"),
    (0x4e51_4093, "xori x1, x2, 1253"),
    (0x4e51_6093, "ori x1, x2, 1253"),
    (0x4e51_7093, "andi x1, x2, 1253"),
    (0x0151_1093, "slli x1, x2, 21"),
    (0x0151_5093, "srli x1, x2, 21"),
    (0x4151_5093, "srai x1, x2, 21"),
    (0x0031_00b3, "add x1, x2, x3"),
    (0x4031_00b3, "sub x1, x2, x3"),
    (0x0031_10b3, "sll x1, x2, x3"),
    (0x0031_20b3, "slt x1, x2, x3"),
    (0x0031_30b3, "sltu x1, x2, x3"),
    (0x0031_40b3, "xor x1, x2, x3"),
    (0x0031_50b3, "srl x1, x2, x3"),
    (0x4031_50b3, "sra x1, x2, x3"),
    (0x0031_60b3, "or x1, x2, x3"),
    (0x0031_70b3, "and x1, x2, x3"),
    (0x0231_00b3, "mul x1, x2, x3"),
    (0x0231_10b3, "mulh x1, x2, x3"),
    (0x0231_20b3, "mulhsu x1, x2, x3"),
    (0x0231_30b3, "mulhu x1, x2, x3"),
    (0x0231_40b3, "div x1, x2, x3"),
    (0x0231_50b3, "divu x1, x2, x3"),
    (0x0231_60b3, "rem x1, x2, x3"),
    (0x0231_70b3, "remu x1, x2, x3"),
    (0x0ff0_000f, "fence"),
    (0x0000_0073, "ecall"),
    (0x0010_0073, "ebreak"),
];

// The ends of the ranges.
const ENDS: [(u32, &str); 28] = [
    (0x0000_0037, "lui x0, 0x0"),
    (0x0000_10b7, "lui x1, 0x1"),
    (0x0001_00b7, "lui x1, 0x10"),
    (0x0010_00b7, "lui x1, 0x100"),
    (0x0100_00b7, "lui x1, 0x1000"),
    (0xabcd_e0b7, "lui x1, 0xabcde"),
    (0xffff_ffb7, "lui x31, 0xfffff"),
    (0x0000_0017, "auipc x0, 0x0"),
    (0xffff_ff97, "auipc x31, 0xfffff"),
    (0x8000_006f, "jal x0, -1048576"),
    (0xffdf_f06f, "jal x0, -4"),
    (0x7fff_ffef, "jal x31, 1048574"),
    (0x8000_0067, "jalr x0, -2048(x0)"),
    (0x7fff_8fe7, "jalr x31, 2047(x31)"),
    (0x8000_0063, "beq x0, x0, -4096"),
    (0x0020_8463, "beq x1, x2, 8"),
    (0x7fff_8fe3, "beq x31, x31, 4094"),
    (0x8000_3013, "sltiu x0, x0, -2048"),
    (0xfff1_0093, "addi x1, x2, -1"),
    (0x0000_0013, "addi x0, x0, 0"),
    (0x7fff_8f93, "addi x31, x31, 2047"),
    (0x8000_2003, "lw x0, -2048(x0)"),
    (0x8000_2023, "sw x0, -2048(x0)"),
    (0x0054_a023, "sw x5, 0(x9)"),
    (0x0000_1013, "slli x0, x0, 0"),
    (0x01ff_9f93, "slli x31, x31, 31"),
    (0x41ff_df93, "srai x31, x31, 31"),
    (0x03ff_afb3, "mulhsu x31, x31, x31"),
];

// Words that are printed as words: those of no instruction, and each fence but one.
const WORDS: [(u32, &str); 12] = [
    (0x0000_0000, ".word 0x00000000"),
    (0xffff_ffff, ".word 0xffffffff"),
    (0x0000_000f, ".word 0x0000000f"),
    (0x0330_000f, ".word 0x0330000f"),
    (0x8330_000f, ".word 0x8330000f"),
    (0x0ff0_008f, ".word 0x0ff0008f"),
    (0x0ff0_800f, ".word 0x0ff0800f"),
    (0x0000_100f, ".word 0x0000100f"),
    (0x0020_0073, ".word 0x00200073"),
    (0x0000_00f3, ".word 0x000000f3"),
    (0x0200_1013, ".word 0x02001013"),
    (0xdead_beec, ".word 0xdeadbeec"),
];

// The image of these bytes, read from its file.
fn image(alloc: Global, bytes: &[u8]) -> Result<Image, Fail>
    ensures { IfOk result IsImage }
{
    let length = u32::try_from(bytes.len()).ok().ok_or("too long")?;
    let mut file = Bytes::copy_of(alloc, b"SQI1\0\0\x01\0")?;
    file.append(&length.to_le_bytes())?;
    file.append(&[0; 4])?;
    file.append(bytes)?;
    Ok(read_image(alloc, file.as_slice()).ok().ok_or("refused")?)
}

// The listing of these words, and the lines that they are to have.
fn listed(alloc: Global, rows: &[(u32, &str)]) -> Result<(Bytes, Bytes), Fail> {
    let mut bytes = Bytes::new(alloc);
    let mut wanted = Bytes::new(alloc);
    for (word, text) in rows {
        let at = bytes.as_slice().len();
        let line = format!(in alloc; "{at:08x} {word:08x} {text}\n")?;
        wanted.append(line.as_bytes())?;
        bytes.append(&word.to_le_bytes())?;
    }
    let image = image(alloc, bytes.as_slice())?;
    Ok((list(alloc, &image)?, wanted))
}

#[test]
fn each_name_has_its_text(rt: HostRuntime) -> Result<(), Fail> {
    let (text, wanted) = listed(rt.alloc(), &NAMES)?;
    assert_eq!(rt; text.as_slice(), wanted.as_slice());
    Ok(())
}

#[test]
fn ranges_end_as_they_are_printed(rt: HostRuntime) -> Result<(), Fail> {
    let (text, wanted) = listed(rt.alloc(), &ENDS)?;
    assert_eq!(rt; text.as_slice(), wanted.as_slice());
    Ok(())
}

#[test]
fn other_words_are_printed_as_words(rt: HostRuntime) -> Result<(), Fail> {
    let (text, wanted) = listed(rt.alloc(), &WORDS)?;
    assert_eq!(rt; text.as_slice(), wanted.as_slice());
    Ok(())
}

// Bytes with their listing: no byte, one to three of them, and more behind a word.
const LEFT_OVER: [(&[u8], &str); 6] = [
    (b"", ""),
    (b"\x41", "00000000 41 .byte 0x41\n"),
    (
        b"\x0a\xf0",
        "00000000 0a .byte 0x0a\n00000001 f0 .byte 0xf0\n",
    ),
    (
        b"\x13\0\0",
        "00000000 13 .byte 0x13\n00000001 00 .byte 0x00\n00000002 00 .byte 0x00\n",
    ),
    (
        b"\x93\x00\x50\x00\xff",
        "00000000 00500093 addi x1, x0, 5\n00000004 ff .byte 0xff\n",
    ),
    (
        b"\x73\0\0\0\xab\xcd\xef",
        "00000000 00000073 ecall\n00000004 ab .byte 0xab\n00000005 cd .byte 0xcd\n00000006 ef .byte 0xef\n",
    ),
];

#[test]
fn bytes_left_over_have_a_line_each(rt: HostRuntime) -> Result<(), Fail> {
    for (bytes, wanted) in LEFT_OVER {
        let image = image(rt.alloc(), bytes)?;
        let text = list(rt.alloc(), &image)?;
        assert_eq!(rt; text.as_slice(), wanted.as_bytes());
    }
    Ok(())
}

// A program that writes one byte.
const HELLO: [u8; 49] = [
    0x53, 0x51, 0x49, 0x31, 0x40, 0x00, 0x00, 0x00, 0x21, 0x00, 0x00, 0x00, 0x00, 0x00, 0x00, 0x00,
    0x13, 0x05, 0x00, 0x00, 0x93, 0x05, 0x00, 0x02, 0x13, 0x06, 0x10, 0x00, 0x93, 0x08, 0x40, 0x00,
    0x73, 0x00, 0x00, 0x00, 0x13, 0x05, 0x00, 0x00, 0x93, 0x08, 0x00, 0x00, 0x73, 0x00, 0x00, 0x00,
    0x41,
];

const HELLO_LISTED: &str = "00000000 00000513 addi x10, x0, 0
00000004 02000593 addi x11, x0, 32
00000008 00100613 addi x12, x0, 1
0000000c 00400893 addi x17, x0, 4
00000010 00000073 ecall
00000014 00000513 addi x10, x0, 0
00000018 00000893 addi x17, x0, 0
0000001c 00000073 ecall
00000020 41 .byte 0x41
";

#[test]
fn hello_is_listed(rt: HostRuntime) -> Result<(), Fail> {
    let image = read_image(rt.alloc(), &HELLO).ok().ok_or("refused")?;
    let text = list(rt.alloc(), &image)?;
    assert_eq!(rt; text.as_slice(), HELLO_LISTED.as_bytes());
    Ok(())
}

// The longest line on each word of the largest image: its text has the greatest length that room is taken for.
#[test]
fn the_largest_image_is_listed(rt: HostRuntime) -> Result<(), Fail> {
    let mut bytes = Bytes::new(rt.alloc());
    for _ in 0..16384 {
        bytes.append(&0x800f_bf93_u32.to_le_bytes())?;
    }
    let image = image(rt.alloc(), bytes.as_slice())?;
    let text = list(rt.alloc(), &image)?;
    assert_eq!(rt; text.as_slice().len(), 16384 * 40);
    let wanted = b"0000fffc 800fbf93 sltiu x31, x31, -2048\n".as_slice();
    assert!(rt; text.as_slice().ends_with(wanted));
    Ok(())
}
