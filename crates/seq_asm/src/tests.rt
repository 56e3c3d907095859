use super::*;
use seq_words::{Bytes, NoMemory, ReadError};
use std::alloc::Global;
use std::test::Fail;

// Their word is unknown: rule 50 at line 1.
const UNKNOWN_WORDS: [&[u8]; 18] = [
    b"foo",
    b".foo 1",
    b"ADDI x1, x0, 5",
    b"addi,x1, x0, 5",
    b"9a: ecall",
    b": ecall",
    b"a: b: ecall",
    b"label : ecall",
    b".wordx 1",
    b"a.b: ecall",
    b"mv x1, x2",
    b"lw(x1)",
    b"\recall",
    b"ecall\r",
    b".Word 1",
    b"_ x1",
    b"\r",
    b"ecall,",
];

// Their operands aren't of the word's form: rule 51 at line 1.
const BAD_OPERANDS: [&[u8]; 63] = [
    b"addi x1, x0",
    b"addi x1, x0, 5, 6",
    b"addi",
    b"addi x1, x0,",
    b"addi x1 , x0, 5",
    b"addi x32, x0, 5",
    b"addi x01, x0, 5",
    b"addi X1, x0, 5",
    b"addi a8, x0, 5",
    b"addi t7, x0, 5",
    b"addi s12, x0, 5",
    b"addi x1, x0, 05",
    b"addi x1, x0, -0x1",
    b"addi x1, x0, 0X1",
    b"addi x1, x0, 0x",
    b"addi x1, x0, 0xg",
    b"addi x1, x0, -",
    b"addi x1, x0, --1",
    b"addi x1, x0, -01",
    b"addi x1, x0, +1",
    b"addi x1, x0, 1 2",
    b"addi ,x1, x0, 5",
    b"addi x1, x0, 5,",
    b"ecall x1",
    b"ebreak 0",
    b"fence 1",
    b".align 4",
    b".word",
    b".word 1, 2",
    b".word x",
    b".entry 5",
    b".entry",
    b".entry a, b",
    b".size x",
    b".size 064",
    b"lw x5, 0 (x9)",
    b"lw x5, (x9)",
    b"lw x5, 0(x9",
    b"lw x5, 0x9)",
    b"lw x5, 0( x9)",
    b"lw x5, 0(x9))",
    b"lw x5, x9",
    b"lw x32, 0(x9)",
    b"sw x5, 0(x9), 1",
    b"jalr x1, x2, 0",
    b"jal x0",
    b"jal far",
    b"beq x1, x2, 1a",
    b"beq x1, x2, a-b",
    b"beq x1, far",
    b"lui x1, x2",
    b"lui x1",
    b"add x1, x2, 3",
    b"slli x1, x2, x3",
    b".space -01",
    b".byte 'a'",
    b"a: addi x1, x0, y",
    b"addi x32, x0, 9999",
    b"lw x5, 9999(x32)",
    b"ecall ,",
    b"addi x1,,5",
    b"lw x5, 0()",
    b"jalr x1, x2",
];

// A value is out of its range, or an offset is odd: rule 52 at line 1.
const OUT_OF_RANGE: [&[u8]; 29] = [
    b"addi x1, x0, 2048",
    b"addi x1, x0, -2049",
    b"addi x1, x0, 0x800",
    b"addi x1, x0, 99999999999999999999999",
    b"addi x1, x0, -99999999999999999999999",
    b"addi x1, x0, 0xffffffffffffffffffffffff",
    b"sltiu x1, x1, 4096",
    b"lw x1, 2048(x2)",
    b"sw x1, -2049(x2)",
    b"jalr x0, 4096(x1)",
    b"lui x1, 0x100000",
    b"lui x1, -1",
    b"auipc x1, 1048576",
    b"slli x1, x1, 32",
    b"srai x1, x1, -1",
    b"beq x1, x2, 4096",
    b"bne x1, x2, -4098",
    b"blt x1, x2, 3",
    b"bge x1, x2, -1",
    b"jal x0, 3",
    b"jal x0, 1048576",
    b"jal x0, -1048578",
    b".word 4294967296",
    b".word -2147483649",
    b".byte 256",
    b".byte -129",
    b".space -1",
    b".word 0x100000000",
    b"addi x1, x0, 18446744073709551616",
];

// Further sources, with place and rule worked out by hand.
const REFUSED: [(&[u8], u64, u16); 64] = [
    (b"ecall\n\nnop\n", 3, 50),
    (b"# c\n\tecall\nfoo # c\n", 3, 50),
    (b".byte 1 # 2\n.byte\n", 2, 51),
    (b"addi x1, x0, 2048\nfoo\n", 1, 52),
    (b"foo\naddi x1, x0, 2048\n", 1, 50),
    (b"a:\na:\n", 2, 53),
    (b"a: ecall\n a: ecall\n", 2, 53),
    (b"a:\nb:\nA:\na:\n", 4, 53),
    (b".entry a\n.entry a\na:\n", 2, 53),
    (b".size 64\n.size 64\n", 2, 53),
    (b".size 65\n.size 64\n", 2, 53),
    (b"a:\n.entry a\n.size 64\n.entry a\n", 4, 53),
    (b"a: foo\n", 1, 50),
    (b"a:\na: foo\n", 2, 50),
    (b"a:\na: addi x1, x0, 2048\n", 2, 52),
    (b".byte 1\necall\n", 2, 55),
    (b".byte 1\na: beq x0, x0, a\n", 2, 55),
    (b".space 2\njal x0, far\n", 2, 55),
    (b".byte 1\nfoo\n", 2, 50),
    (b"a: .byte 1\na: ecall\n", 2, 53),
    (b".space 65536\n.byte 1\n", 2, 55),
    (b".space 65537\n", 1, 55),
    (b".space 99999999999999999999\n", 1, 55),
    (b".space 65533\n.word 1\n", 2, 55),
    (b".space 65536\necall\n", 2, 55),
    (b".space 1099511627776\n", 1, 55),
    (b".space 65535\n.space 2\n", 2, 55),
    (b".size 33\n", 1, 55),
    (b".size 0\n", 1, 55),
    (b".size -32\n", 1, 55),
    (b".size 65568\n", 1, 55),
    (b".size 99999999999999999999\n", 1, 55),
    (b".size 31\n", 1, 55),
    (b".size 32\n.space 33\n", 1, 55),
    (b".space 40\n\n.size 32\n", 3, 55),
    (b"beq x0, x0, far\n.size 33\n", 2, 55),
    (b".size 33\necall x1\n", 2, 51),
    (b".size 33\n.entry far\n", 1, 55),
    (b".size 33\n.space 65537\n", 2, 55),
    (b"beq x1, x2, far\n", 1, 54),
    (b"jal x0, far\n", 1, 54),
    (b".entry main\n", 1, 54),
    (b"ecall\njal x0, a\njal x0, b\n", 2, 54),
    (b".entry a\njal x0, b\n", 1, 54),
    (b"jal x0, b\n.entry a\n", 1, 54),
    (b"beq x0, x0, addi\n", 1, 54),
    (b"jal x0, A\na:\n", 1, 54),
    (b"jal x0, x1\n", 1, 54),
    (b"a: jal x0, aa\naaa:\n", 1, 54),
    (b"beq x0, x0, far\n.space 4092\nfar:\n", 1, 52),
    (b"far:\n.space 4100\nbeq x0, x0, far\n", 3, 52),
    (b"beq x0, x0, odd\n.byte 1\nodd:\n", 1, 52),
    (b"jal x0, odd\n.byte 1\nodd:\n", 1, 52),
    (b"jal x0, far\nbeq x0, x0, odd\n.byte 1\nodd:\n", 1, 54),
    (b"beq x0, x0, odd\njal x0, far\n.byte 1\nodd:\n", 1, 52),
    (b".entry a\n.byte 1\na:\n", 1, 56),
    (b".entry end\n.size 32\n.space 32\nend:\n", 1, 56),
    (b".space 2\na: .entry a\n", 2, 56),
    (b"ecall\n.entry a\n.space 65532\na:\n", 2, 56),
    (b".entry a\n.byte 0\na:\n.align\njal x0, b\n", 5, 54),
    (b".entry a\n.byte 1\na:\n.size 33\n", 4, 55),
    (b".byte 1\naddi x1, x0, 2048\n", 2, 52),
    (b".entry a\n.entry 5\n", 2, 51),
    (b".space 18446744073709551616\n", 1, 55),
];

// Sources with their private size, entry and bytes, worked out by hand from the manual's formats.
const TAKEN: [(&[u8], u32, u32, &[u8]); 33] = [
    (b"addi x1, x0, 5", 1056, 0, b"\x93\x00\x50\x00"),
    (b"# nothing", 1024, 0, b""),
    (b"", 1024, 0, b""),
    (b"\n \t\n#\n", 1024, 0, b""),
    (b"ecall", 1056, 0, b"\x73\x00\x00\x00"),
    (
        b"ecall\r\nebreak\r\n",
        1056,
        0,
        b"\x73\x00\x00\x00\x73\x00\x10\x00",
    ),
    (b" \tecall \t# c", 1056, 0, b"\x73\x00\x00\x00"),
    (b"ecall#c", 1056, 0, b"\x73\x00\x00\x00"),
    (b"add: jal x0, add\n", 1056, 0, b"\x6f\x00\x00\x00"),
    (b"x1:jal\tx1,x1 ", 1056, 0, b"\xef\x00\x00\x00"),
    (
        b"addi x1, x0, -0\naddi x1,x0,2047\naddi x1,\tx0,  -2048\naddi x1, x0, 0x7ff\n",
        1056,
        0,
        b"\x93\x00\x00\x00\x93\x00\xf0\x7f\x93\x00\x00\x80\x93\x00\xf0\x7f",
    ),
    (b"fence\n", 1056, 0, b"\x0f\x00\xf0\x0f"),
    (
        b"addi sp, fp, -16\nadd zero, ra, t6\n",
        1056,
        0,
        b"\x13\x01\x04\xff\x33\x80\xf0\x01",
    ),
    (
        b".word -1\n.word 4294967295\n.word 0x0000000f\n.word -2147483648\n",
        1056,
        0,
        b"\xff\xff\xff\xff\xff\xff\xff\xff\x0f\x00\x00\x00\x00\x00\x00\x80",
    ),
    (
        b".byte -128\n.byte 255\n.byte 0xA\n",
        1056,
        0,
        b"\x80\xff\x0a",
    ),
    (
        b".align\n.byte 7\n.align\n.align\n.byte 8\n",
        1056,
        0,
        b"\x07\x00\x00\x00\x08",
    ),
    (
        b".byte 1\n.byte 2\n.byte 3\n.align\necall\n",
        1056,
        0,
        b"\x01\x02\x03\x00\x73\x00\x00\x00",
    ),
    (
        b".space 3\n.space 0\n.byte 9\n",
        1056,
        0,
        b"\x00\x00\x00\x09",
    ),
    (
        b".entry main\necall\nmain: ecall\n",
        1056,
        4,
        b"\x73\x00\x00\x00\x73\x00\x00\x00",
    ),
    (b".size 32\n", 32, 0, b""),
    (b".size 65536\n", 65536, 0, b""),
    (
        b".size 32\n.space 32\n",
        32,
        0,
        b"\x00\x00\x00\x00\x00\x00\x00\x00\x00\x00\x00\x00\x00\x00\x00\x00\x00\x00\x00\x00\x00\x00\x00\x00\x00\x00\x00\x00\x00\x00\x00\x00",
    ),
    (
        b".space 33\n",
        1088,
        0,
        b"\x00\x00\x00\x00\x00\x00\x00\x00\x00\x00\x00\x00\x00\x00\x00\x00\x00\x00\x00\x00\x00\x00\x00\x00\x00\x00\x00\x00\x00\x00\x00\x00\x00",
    ),
    (b".size 0x40\n", 64, 0, b""),
    (
        b"lui x9, 0xfffff\nauipc x0, 1048575\nlui x1, 0\n",
        1056,
        0,
        b"\xb7\xf4\xff\xff\x17\xf0\xff\xff\xb7\x00\x00\x00",
    ),
    (
        b"mul x5, x6, x7\nbeq x1, x2, 8\njal x0, -4\nsw x5, 0(x9)\n",
        1056,
        0,
        b"\xb3\x02\x73\x02\x63\x84\x20\x00\x6f\xf0\xdf\xff\x23\xa0\x54\x00",
    ),
    (
        b"slli x1, x2, 31\nsrai x1, x2, 0\njalr x0, -1(x1)\n",
        1056,
        0,
        b"\x93\x10\xf1\x01\x93\x50\x01\x40\x67\x80\xf0\xff",
    ),
    (
        b"beq x0, x0, 4094\nbne x0, x0, -4096\njal x0, 1048574\njal x0, -1048576\n",
        1056,
        0,
        b"\xe3\x0f\x00\x7e\x63\x10\x00\x80\x6f\xf0\xff\x7f\x6f\x00\x00\x80",
    ),
    (
        b"s: jal x0, e\njal x0, s\ne:\n",
        1056,
        0,
        b"\x6f\x00\x80\x00\x6f\xf0\xdf\xff",
    ),
    (b"_a1:\n.entry _a1\n", 1024, 0, b""),
    (
        b"a:\n.align\n.byte 1\nb: .align\n.entry c\nc: ecall\n",
        1056,
        4,
        b"\x01\x00\x00\x00\x73\x00\x00\x00",
    ),
    (b".byte 1\n.word 1\n", 1056, 0, b"\x01\x01\x00\x00\x00"),
    (b"beq x0, x0, 2\n", 1056, 0, b"\x63\x01\x00\x00"),
];

const HELLO: &[u8] =
    b".size 64\naddi x10, x0, 0\naddi x11, x0, 32\naddi x12, x0, 1\naddi x17, x0, 4\necall\naddi x10, x0, 0\naddi x17, x0, 0\necall\n.byte 0x41\n";

const HELLO_BYTES: [u8; 33] =
    *b"\x13\x05\x00\x00\x93\x05\x00\x02\x13\x06\x10\x00\x93\x08\x40\x00\x73\x00\x00\x00\x13\x05\x00\x00\x93\x08\x00\x00\x73\x00\x00\x00\x41";

const HELLO2: &[u8] =
    b".size 64\naddi x10, x0, 0\naddi x11, x0, 32\naddi x12, x0, 2\naddi x17, x0, 4\necall\naddi x10, x0, 0\naddi x17, x0, 0\necall\n.byte 0x41\n.byte 0x42\n";

const HELLO2_BYTES: [u8; 34] =
    *b"\x13\x05\x00\x00\x93\x05\x00\x02\x13\x06\x20\x00\x93\x08\x40\x00\x73\x00\x00\x00\x13\x05\x00\x00\x93\x08\x00\x00\x73\x00\x00\x00\x41\x42";

const HELLO3: &[u8] =
    b".size 64\naddi x10, x0, 0\naddi x11, x0, 32\naddi x12, x0, 3\naddi x17, x0, 4\necall\naddi x10, x0, 0\naddi x17, x0, 0\necall\n.byte 0x41\n.byte 0x42\n.byte 0x43\n";

const HELLO3_BYTES: [u8; 35] =
    *b"\x13\x05\x00\x00\x93\x05\x00\x02\x13\x06\x30\x00\x93\x08\x40\x00\x73\x00\x00\x00\x13\x05\x00\x00\x93\x08\x00\x00\x73\x00\x00\x00\x41\x42\x43";

const COUNT: &[u8] =
    b".size 512\naddi x8, x0, 100\nlui x9, 0x40000\nadd: addi x10, x0, 0\naddi x17, x0, 1\necall\nlw x5, 0(x9)\naddi x5, x5, 1\nsw x5, 0(x9)\naddi x10, x0, 0\naddi x17, x0, 2\necall\naddi x8, x8, -1\nbne x8, x0, add\naddi x17, x0, 5\necall\nbne x10, x0, end\naddi x6, x0, 200\nsee: addi x10, x0, 0\naddi x17, x0, 1\necall\nlw x5, 0(x9)\naddi x10, x0, 0\naddi x17, x0, 2\necall\nbne x5, x6, see\nsb x5, 256(x0)\naddi x10, x0, 0\naddi x11, x0, 256\naddi x12, x0, 1\naddi x17, x0, 4\necall\nend: addi x10, x0, 0\naddi x17, x0, 0\necall\n";

const COUNT_BYTES: [u8; 136] =
    *b"\x13\x04\x40\x06\xb7\x04\x00\x40\x13\x05\x00\x00\x93\x08\x10\x00\x73\x00\x00\x00\x83\xa2\x04\x00\x93\x82\x12\x00\x23\xa0\x54\x00\x13\x05\x00\x00\x93\x08\x20\x00\x73\x00\x00\x00\x13\x04\xf4\xff\xe3\x1c\x04\xfc\x93\x08\x50\x00\x73\x00\x00\x00\x63\x10\x05\x04\x13\x03\x80\x0c\x13\x05\x00\x00\x93\x08\x10\x00\x73\x00\x00\x00\x83\xa2\x04\x00\x13\x05\x00\x00\x93\x08\x20\x00\x73\x00\x00\x00\xe3\x92\x62\xfe\x23\x00\x50\x10\x13\x05\x00\x00\x93\x05\x00\x10\x13\x06\x10\x00\x93\x08\x40\x00\x73\x00\x00\x00\x13\x05\x00\x00\x93\x08\x00\x00\x73\x00\x00\x00";

const SPREAD: &[u8] =
    b".size 4096\naddi x5, x0, 1024\naddi x6, x0, 1568\nnext: sw x5, 0(x5)\naddi x5, x5, 32\nbne x5, x6, next\naddi x10, x0, 0\naddi x17, x0, 0\necall\n";

const SPREAD_BYTES: [u8; 32] =
    *b"\x93\x02\x00\x40\x13\x03\x00\x62\x23\xa0\x52\x00\x93\x82\x02\x02\xe3\x9c\x62\xfe\x13\x05\x00\x00\x93\x08\x00\x00\x73\x00\x00\x00";

const ECHO: &[u8] =
    b".size 512\nnext: addi x10, x0, 0\naddi x17, x0, 3\necall\nblt x10, x0, end\nsb x10, 256(x0)\naddi x10, x0, 0\naddi x11, x0, 256\naddi x12, x0, 1\naddi x17, x0, 4\necall\njal x0, next\nend: addi x10, x0, 0\naddi x17, x0, 0\necall\n";

const ECHO_BYTES: [u8; 56] =
    *b"\x13\x05\x00\x00\x93\x08\x30\x00\x73\x00\x00\x00\x63\x40\x05\x02\x23\x00\xa0\x10\x13\x05\x00\x00\x93\x05\x00\x10\x13\x06\x10\x00\x93\x08\x40\x00\x73\x00\x00\x00\x6f\xf0\x9f\xfd\x13\x05\x00\x00\x93\x08\x00\x00\x73\x00\x00\x00";

const SOAK: &[u8] =
    b".size 512\naddi x8, x0, 49\nlui x9, 0x40000\naddi x17, x0, 5\necall\naddi x18, x10, 0\nagain: addi x10, x0, 0\naddi x17, x0, 1\necall\nlw x5, 0(x9)\naddi x5, x5, 1\nsw x5, 0(x9)\naddi x10, x0, 0\naddi x17, x0, 2\necall\nsb x5, 256(x0)\naddi x10, x18, 0\naddi x11, x0, 256\naddi x12, x0, 1\naddi x17, x0, 4\necall\naddi x8, x8, -1\nbne x8, x0, again\naddi x10, x0, 0\naddi x17, x0, 0\necall\n";

const SOAK_BYTES: [u8; 100] =
    *b"\x13\x04\x10\x03\xb7\x04\x00\x40\x93\x08\x50\x00\x73\x00\x00\x00\x13\x09\x05\x00\x13\x05\x00\x00\x93\x08\x10\x00\x73\x00\x00\x00\x83\xa2\x04\x00\x93\x82\x12\x00\x23\xa0\x54\x00\x13\x05\x00\x00\x93\x08\x20\x00\x73\x00\x00\x00\x23\x00\x50\x10\x13\x05\x09\x00\x93\x05\x00\x10\x13\x06\x10\x00\x93\x08\x40\x00\x73\x00\x00\x00\x13\x04\xf4\xff\xe3\x10\x04\xfc\x13\x05\x00\x00\x93\x08\x00\x00\x73\x00\x00\x00";

fn refusal(alloc: Global, text: &[u8]) -> Option<ReadError> {
    assemble(alloc, text).err()
}

fn refused(place: u64, rule: u16) -> Option<ReadError> {
    Some(ReadError::Refused { place, rule })
}

// The first line that is answered otherwise than with this rule.
fn first_without(alloc: Global, rule: u16, lines: &[&[u8]]) -> Option<usize> {
    for (at, line) in lines.iter().enumerate() {
        if refusal(alloc, line) != refused(1, rule) {
            return Some(at);
        }
    }
    None
}

#[test]
fn lines_are_refused_by_the_least_rule(rt: HostRuntime) {
    assert_eq!(rt; first_without(rt.alloc(), 50, &UNKNOWN_WORDS), None);
    assert_eq!(rt; first_without(rt.alloc(), 51, &BAD_OPERANDS), None);
    assert_eq!(rt; first_without(rt.alloc(), 52, &OUT_OF_RANGE), None);
}

#[test]
fn sources_are_refused_at_their_first_fault(rt: HostRuntime) {
    for (at, row) in REFUSED.iter().enumerate() {
        assert_eq!(rt;
            refusal(rt.alloc(), row.0),
            refused(row.1, row.2),
            "row {at}"
        );
    }
}

// Whether a source makes an image of this size, with this entry and these bytes.
fn makes(alloc: Global, text: &[u8], size: u32, entry: u32, bytes: &[u8]) -> bool {
    match assemble(alloc, text) {
        Ok(image) => {
            image.size == size && image.entry == entry && image.bytes.as_slice() == bytes
        }
        Err(_) => false,
    }
}

#[test]
fn sources_make_images(rt: HostRuntime) {
    for (at, row) in TAKEN.iter().enumerate() {
        assert!(rt; makes(rt.alloc(), row.0, row.1, row.2, row.3), "row {at}");
    }
}

#[test]
fn samples_make_images(rt: HostRuntime) {
    assert!(rt; makes(rt.alloc(), HELLO, 64, 0, &HELLO_BYTES));
    assert!(rt; makes(rt.alloc(), HELLO2, 64, 0, &HELLO2_BYTES));
    assert!(rt; makes(rt.alloc(), HELLO3, 64, 0, &HELLO3_BYTES));
    assert!(rt; makes(rt.alloc(), COUNT, 512, 0, &COUNT_BYTES));
    assert!(rt; makes(rt.alloc(), SPREAD, 4096, 0, &SPREAD_BYTES));
    assert!(rt; makes(rt.alloc(), ECHO, 512, 0, &ECHO_BYTES));
    assert!(rt; makes(rt.alloc(), SOAK, 512, 0, &SOAK_BYTES));
}

// A part so many times, between two others.
fn repeated(
    alloc: Global,
    first: &[u8],
    part: &[u8],
    times: u32,
    last: &[u8],
) -> Result<Bytes, NoMemory> {
    let mut text = Bytes::copy_of(alloc, first)?;
    for _ in 0..times {
        text.append(part)?;
    }
    text.append(last)?;
    Ok(text)
}

#[test]
fn targets_at_the_ends_of_their_range(rt: HostRuntime) {
    let forward = b"beq x0, x0, far\n.space 4090\nfar:\n";
    assert_eq!(rt; refusal(rt.alloc(), forward), None);
    let backward = b"far:\n.space 4096\nbeq x0, x0, far\n";
    assert_eq!(rt; refusal(rt.alloc(), backward), None);
    let jump = b"jal x0, far\n.space 65532\nfar:\n";
    assert_eq!(rt; refusal(rt.alloc(), jump), None);
}

#[test]
fn the_largest_images(rt: HostRuntime) -> Result<(), Fail> {
    let alloc = rt.alloc();
    let full = repeated(alloc, b"", b"ecall\n", 16_384, b"")?;
    let image = assemble(alloc, full.as_slice()).ok().ok_or("refused")?;
    assert_eq!(rt; image.size, 65_536);
    assert_eq!(rt; image.bytes.as_slice().len(), 65_536);
    let over = repeated(alloc, b"", b"ecall\n", 16_384, b"ecall\n")?;
    assert_eq!(rt; refusal(alloc, over.as_slice()), refused(16_385, 55));
    let aligned = b".space 65535\n.align\n";
    assert!(rt; makes(alloc, aligned, 65_536, 0, &[0; 65_536]));
    let blank = repeated(alloc, b".space 65536\nend:\n", b"# c\n", 10, b".size 65536")?;
    let image = assemble(alloc, blank.as_slice()).ok().ok_or("refused")?;
    assert_eq!(rt; image.bytes.as_slice().len(), 65_536);
    Ok(())
}
