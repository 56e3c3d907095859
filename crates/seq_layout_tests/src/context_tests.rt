// The context of a process, and the bytes of its blocks, written out by hand.
use seq_layout::{Context, blocks_to_context, context_to_blocks, is_context};
use seq_words::{Block, Regs};
use std::process::Abort;

// Every byte that may be set is set: the process has trapped with cause 0x0b at pc 0x2468_ace0.
const TRAPPED: [[u8; 32]; 8] = [
    [
        0, 0, 0, 0, 4, 3, 2, 1, 8, 7, 6, 5, 0x0c, 0x0b, 0x0a, 9, 0x10, 0x0f, 0x0e, 0x0d, 0x14,
        0x13, 0x12, 0x11, 0x18, 0x17, 0x16, 0x15, 0x1c, 0x1b, 0x1a, 0x19,
    ],
    [
        0x20, 0x1f, 0x1e, 0x1d, 0x24, 0x23, 0x22, 0x21, 0x28, 0x27, 0x26, 0x25, 0x2c, 0x2b, 0x2a,
        0x29, 0x30, 0x2f, 0x2e, 0x2d, 0x34, 0x33, 0x32, 0x31, 0x38, 0x37, 0x36, 0x35, 0x3c, 0x3b,
        0x3a, 0x39,
    ],
    [
        0x40, 0x3f, 0x3e, 0x3d, 0x44, 0x43, 0x42, 0x41, 0x48, 0x47, 0x46, 0x45, 0x4c, 0x4b, 0x4a,
        0x49, 0x50, 0x4f, 0x4e, 0x4d, 0x54, 0x53, 0x52, 0x51, 0x58, 0x57, 0x56, 0x55, 0x5c, 0x5b,
        0x5a, 0x59,
    ],
    [
        0x60, 0x5f, 0x5e, 0x5d, 0x64, 0x63, 0x62, 0x61, 0x68, 0x67, 0x66, 0x65, 0x6c, 0x6b, 0x6a,
        0x69, 0x70, 0x6f, 0x6e, 0x6d, 0x74, 0x73, 0x72, 0x71, 0x78, 0x77, 0x76, 0x75, 0xff, 0xfe,
        0xfd, 0xfc,
    ],
    [
        0x04, 0x20, 0x30, 0x40, 2, 0, 0, 0, 0x0b, 0x0c, 0x0d, 0x0e, 0xe0, 0xac, 0x68, 0x24, 0x34,
        0x12, 0, 0, 0, 0, 0, 0, 0x08, 0x17, 0x26, 0x35, 0x44, 0x53, 0x62, 0x71,
    ],
    [
        0x81, 0x82, 0x83, 0x84, 0x91, 0x92, 0x93, 0x94, 0xa1, 0xa2, 0xa3, 0xa4, 0xb1, 0xb2, 0xb3,
        0xb4, 0xc1, 0xc2, 0xc3, 0xc4, 0xd1, 0xd2, 0xd3, 0xd4, 0xe1, 0xe2, 0xe3, 0xe4, 0xf1, 0xf2,
        0xf3, 0xf4,
    ],
    [0; 32],
    [0; 32],
];

fn trapped() -> Context {
    Context {
        regs: Regs {
            x: [
                0, 0x01020304, 0x05060708, 0x090a0b0c, 0x0d0e0f10, 0x11121314, 0x15161718,
                0x191a1b1c, 0x1d1e1f20, 0x21222324, 0x25262728, 0x292a2b2c, 0x2d2e2f30, 0x31323334,
                0x35363738, 0x393a3b3c, 0x3d3e3f40, 0x41424344, 0x45464748, 0x494a4b4c, 0x4d4e4f50,
                0x51525354, 0x55565758, 0x595a5b5c, 0x5d5e5f60, 0x61626364, 0x65666768, 0x696a6b6c,
                0x6d6e6f70, 0x71727374, 0x75767778, 0xfcfdfeff,
            ],
            pc: 0x4030_2004,
        },
        end: 2,
        value: 0x0e0d_0c0b,
        end_pc: 0x2468_ace0,
        held: 0x1234,
        commits: 0x7162_5344_3526_1708,
        reads: [0x8483_8281, 0xa4a3_a2a1, 0xc4c3_c2c1, 0xe4e3_e2e1],
        writes: [0x9493_9291, 0xb4b3_b2b1, 0xd4d3_d2d1, 0xf4f3_f2f1],
    }
}

fn in_blocks(bytes: [[u8; 32]; 8]) -> [Block; 8] {
    bytes.map(|bytes| Block { bytes })
}

#[test]
fn context_stands_in_its_bytes(rt: HostRuntime) {
    let c = trapped();
    assert!(rt; is_context(&c));
    assert_eq!(rt; context_to_blocks(&c), in_blocks(TRAPPED));
}

#[test]
fn bytes_are_read(rt: HostRuntime) {
    let c = blocks_to_context(&in_blocks(TRAPPED)).expect(&rt, "a context");
    let expected = trapped();
    assert_eq!(rt; c.regs.x, expected.regs.x);
    assert_eq!(rt; c.regs.pc, expected.regs.pc);
    assert_eq!(rt;
        (c.end, c.value, c.end_pc),
        (expected.end, expected.value, expected.end_pc)
    );
    assert_eq!(rt; (c.held, c.commits), (expected.held, expected.commits));
    assert_eq!(rt; (c.reads, c.writes), (expected.reads, expected.writes));
}

/// A block of a context, the place of a byte in it, and another byte there.
type Change = (usize, usize, u8);

// Each makes the context of a process that has trapped one of none.
const CHANGES: [Change; 16] = [
    (0, 0, 1),
    (0, 3, 0x80),
    (4, 0, 5),
    (4, 0, 6),
    (4, 4, 3),
    (4, 5, 1),
    (4, 7, 1),
    (4, 4, 1),
    (4, 18, 1),
    (4, 19, 0x80),
    (4, 20, 1),
    (4, 23, 1),
    (6, 0, 1),
    (6, 31, 1),
    (7, 0, 1),
    (7, 31, 1),
];

fn check_refused(rt: &impl Abort, base: &[[u8; 32]; 8], change: &Change) {
    let (block, byte, value) = *change;
    assert!(rt; block < 8 && byte < 32);
    let mut bytes = *base;
    bytes[block][byte] = value;
    assert!(rt;
        blocks_to_context(&in_blocks(bytes)).is_none(),
        "block {block}, byte {byte}"
    );
}

fn check_all_refused(rt: &impl Abort, base: &[[u8; 32]; 8], changes: &[Change]) {
    for change in changes {
        check_refused(rt, base, change);
    }
}

#[test]
fn bytes_outside_the_format_are_refused(rt: HostRuntime) {
    let mut exited = TRAPPED;
    exited[4][4] = 1;
    exited[4][12..16].fill(0);
    assert!(rt; blocks_to_context(&in_blocks(exited)).is_some());
    check_all_refused(&rt, &TRAPPED, &CHANGES);
    check_refused(&rt, &exited, &(4, 4, 0));
}
