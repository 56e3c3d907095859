// Schedules with their place and rule, worked from the grammar.
ghost use Rattle.std.specs.Prelude.{IfOk, ◌≡◌, []};
ghost use Rattle.seq_words.specs.Description.{IsDescription};

use seq_schedule::{Gate, Item, Script, parse, read};
use seq_words::{
    Bytes, Element, Event, Half, Ioe, Items, LineNo, MachineDesc, Me, NoMemory, Pe, ProcessDesc,
    ReadError,
};
use std::alloc::Global;
use std::test::Fail;

// Two processors, three memories, one I/O element, journals of 64 bytes, and a process that owns the lines 0 and 1.
// A round is three turns.
fn machine(alloc: Global) -> Result<MachineDesc, NoMemory>
    ensures { IfOk result IsDescription }
{
    let process = ProcessDesc {
        size: 32,
        entry: 0,
        image: Bytes::new(alloc),
        lines: 3,
        grants: 0,
    };
    let Ok(processes) = vec![in alloc; process] else {
        return Err(NoMemory);
    };
    Ok(MachineDesc {
        processors: 2,
        memories: 3,
        ios: 1,
        cache: 16,
        quantum: 1000,
        journal: 64,
        segments: Items::new(alloc),
        processes: Items::from_vec(processes),
    })
}

// Lines that are none of the forms: rule 30 at line 1.
const NO_FORM: [&[u8]; 50] = [
    b"go\n",
    b"Turn p0\n",
    b"turn\n",
    b"turn p0 p1\n",
    b"turn p0 # note\n",
    b"turn m0\n",
    b"turns m0 1\n",
    b"turn p8\n",
    b"turn i4\n",
    b"turn p00\n",
    b"turn p\n",
    b"turn P0\n",
    b"turn p0\r",
    b"turn p0\r\r\n",
    b"turn\x0bp0\n",
    b"turn p0\0\n",
    b"\r",
    b"turns p0\n",
    b"turns p0 1 2\n",
    b"turns 1 p0\n",
    b"round\n",
    b"round 1 1\n",
    b"rounds 1\n",
    b"finish\n",
    b"finish 1 2\n",
    b"input 0\n",
    b"input 0 41 42\n",
    b"close\n",
    b"close 0 0\n",
    b"fail\n",
    b"fail p0 p1\n",
    b"fail x0\n",
    b"fail m8\n",
    b"repair\n",
    b"repair 0\n",
    b"repair i4\n",
    b"failing p0\n",
    b"upset p0 a 1\n",
    b"upset p0 a 1 0x1 1\n",
    b"upset m0 a 1 0x1\n",
    b"upset i0 a 1 0x1\n",
    b"upset p8 a 1 0x1\n",
    b"upset p0 c 1 0x1\n",
    b"upset p0 A 1 0x1\n",
    b"upset p0 ab 1 0x1\n",
    b"upset p0 a 1 1\n",
    b"upset p0 a 1 0X1\n",
    b"upset p0 a 0 1\n",
    b"hangup\n",
    b"hangup 0 1\n",
];

// A number, the digits or a mask are malformed: rule 31 at line 1.
const MALFORMED: [&[u8]; 39] = [
    b"turns p0 0\n",
    b"turns p0 10000001\n",
    b"turns p0 01\n",
    b"turns p0 +1\n",
    b"turns p0 -1\n",
    b"turns p0 0x1\n",
    b"turns p0 1.0\n",
    b"turns i0 99999999999999999999\n",
    b"turns p7 0\n",
    b"round 0\n",
    b"round 10000001\n",
    b"round x\n",
    b"round 00\n",
    b"finish 0\n",
    b"finish 10000001\n",
    b"finish 1a\n",
    b"input x 41\n",
    b"input 00 41\n",
    b"input 0 4\n",
    b"input 0 414\n",
    b"input 0 4g\n",
    b"input 0 0x41\n",
    b"input 9 4\n",
    b"close x\n",
    b"close 01\n",
    b"close -1\n",
    b"hangup x\n",
    b"hangup 00\n",
    b"upset p0 a 0 0x1\n",
    b"upset p0 a 33 0x1\n",
    b"upset p0 a x 0x1\n",
    b"upset p0 a 01 0x1\n",
    b"upset p0 a 1 0x\n",
    b"upset p0 a 1 0x0\n",
    b"upset p0 a 1 0x00000000\n",
    b"upset p0 a 1 0x123456789\n",
    b"upset p0 a 1 0xg\n",
    b"upset p0 a 1 0x-1\n",
    b"upset p7 b 1 0x0\n",
];

// An element or a line isn't in the description: rule 32 at line 1.
const ABSENT: [&[u8]; 24] = [
    b"turn p2\n",
    b"turn p7\n",
    b"turn i1\n",
    b"turn i3\n",
    b"turns p2 1\n",
    b"turns i1 10000000\n",
    b"input 2 41\n",
    b"input 15 41\n",
    b"input 16 41\n",
    b"input 255 41\n",
    b"input 99999999999999999999 41\n",
    b"close 2\n",
    b"close 256\n",
    b"close 18446744073709551616\n",
    b"hangup 2\n",
    b"hangup 65536\n",
    b"fail p2\n",
    b"fail m3\n",
    b"fail m7\n",
    b"fail i1\n",
    b"repair p2\n",
    b"repair m3\n",
    b"upset p2 a 1 0x1\n",
    b"upset p7 b 32 0xffffffff\n",
];

// Further schedules with place and rule.
const REFUSED: [(&[u8], u64, u16); 47] = [
    (b"fail p0\nfail p0\n", 2, 33),
    (b"fail m0\nfail m0\n", 2, 33),
    (b"fail i0\nfail i0\n", 2, 33),
    (b"repair p0\n", 1, 33),
    (b"repair m2\n", 1, 33),
    (b"repair i0\n", 1, 33),
    (b"fail p0\nrepair p0\nrepair p0\n", 3, 33),
    (b"fail p0\nrepair p1\n", 2, 33),
    (b"fail m0\nrepair p0\n", 2, 33),
    (b"fail i0\nrepair m0\n", 2, 33),
    (b"upset p0 a 1 0x1\nrepair p0\n", 2, 33),
    (b"fail p0\nrepair p0\nfail p0\nfail p0\n", 4, 33),
    (b"fail p0\n# p0\n\nfail p0", 4, 33),
    (b"fail p0\nupset p0 a 1 0x1\n", 2, 34),
    (b"fail p1\nupset p1 b 32 0xffffffff\n", 2, 34),
    (b"upset p0 a 1 0x1\nfail p0\nupset p0 b 1 0x1\n", 3, 34),
    (b"fail p0\nrepair p0\nfail p0\nupset p0 a 1 0x1\n", 4, 34),
    (b"upset p0 a 1 0x1\nupset p0 b 1 0x1\n", 2, 35),
    (b"upset p0 b 1 0x1\nupset p0 a 1 0x1\n", 2, 35),
    (
        b"upset p0 a 1 0x1\nupset p0 a 1 0x1\nupset p0 b 1 0x1\n",
        3,
        35,
    ),
    (
        b"upset p0 a 1 0x1\nturn p0\nround 1\nupset p0 b 1 0x1\n",
        4,
        35,
    ),
    (
        b"upset p0 a 1 0x1\nfail p1\nrepair p1\nupset p0 b 1 0x1\n",
        4,
        35,
    ),
    (
        b"upset p0 a 1 0x1\nfail m0\nrepair m0\nupset p0 b 1 0x1\n",
        4,
        35,
    ),
    (
        b"upset p0 a 1 0x1\nfail p0\nrepair p0\nupset p0 b 1 0x1\nupset p0 a 1 0x1\n",
        5,
        35,
    ),
    (
        b"upset p0 a 1 0x1\nupset p1 b 1 0x1\nupset p0 b 1 0x1\n",
        3,
        35,
    ),
    (b"close 0\nclose 0\n", 2, 36),
    (b"close 0\ninput 0 41\n", 2, 36),
    (b"input 0 41\nclose 0\ninput 0 41\n", 3, 36),
    (b"close 1\nclose 0\nclose 1\n", 3, 36),
    (
        b"close 0\ninput 0 000102030405060708090a0b0c0d0e0f101112131415161718191a1b1c1d1e1f202122232425262728292a2b2c2d2e2f303132333435363738393a3b3c3d3e3f40\n",
        2,
        36,
    ),
    (
        b"input 0 000102030405060708090a0b0c0d0e0f101112131415161718191a1b1c1d1e1f202122232425262728292a2b2c2d2e2f303132333435363738393a3b3c3d3e3f40\n",
        1,
        37,
    ),
    (
        b"input 0 000102030405060708090a0b0c0d0e0f101112131415161718191a1b1c1d1e1f202122232425262728292a2b2c2d2e2f303132333435363738393a3b3c3d3e3f\ninput 0 00\n",
        2,
        37,
    ),
    (
        b"input 1 000102030405060708090a0b0c0d0e0f101112131415161718191a1b1c1d1e1f\ninput 1 202122232425262728292a2b2c2d2e2f303132333435363738393a3b3c3d3e3f\ninput 1 40\n",
        3,
        37,
    ),
    (
        b"input 0 000102030405060708090a0b0c0d0e0f101112131415161718191a1b1c1d1e1f202122232425262728292a2b2c2d2e2f303132333435363738393a3b3c3d3e3f\ninput 1 000102030405060708090a0b0c0d0e0f101112131415161718191a1b1c1d1e1f202122232425262728292a2b2c2d2e2f303132333435363738393a3b3c3d3e3f\n\ninput 1 00\n",
        4,
        37,
    ),
    (b"hangup 0\nhangup 0\n", 2, 38),
    (b"hangup 0\nhangup 1\nhangup 0\n", 3, 38),
    (b"hangup 1\nclose 1\nhangup 1\n", 3, 38),
    (
        b"round 10000000\nround 10000000\nround 10000000\nround 10000000\nround 10000000\nround 10000000\nturns p0 10000000\nturns p0 10000000\nturn p0\n",
        9,
        39,
    ),
    (
        b"finish 10000000\nfinish 10000000\nfinish 10000000\nfinish 10000000\nfinish 10000000\nfinish 10000000\nfinish 10000000\n",
        7,
        39,
    ),
    (
        b"round 10000000\nround 10000000\nround 10000000\nround 10000000\nround 10000000\nround 10000000\nround 6666666\nturn p0\nturn i0\nturn p1\n",
        10,
        39,
    ),
    (
        b"turns i0 10000000\nturns i0 10000000\nturns i0 10000000\nturns i0 10000000\nturns i0 10000000\nturns i0 10000000\nturns i0 10000000\nturns i0 10000000\nturns i0 10000000\nturns i0 10000000\nturns i0 10000000\nturns i0 10000000\nturns i0 10000000\nturns i0 10000000\nturns i0 10000000\nturns i0 10000000\nturns i0 10000000\nturns i0 10000000\nturns i0 10000000\nturns i0 10000000\nclose 0\ninput 1 41\n\nfail m0\nturn i0\n",
        25,
        39,
    ),
    (
        b"round 10000000\nround 10000000\nround 10000000\nround 10000000\nround 10000000\nround 10000000\nfinish 6666667\n",
        7,
        39,
    ),
    (b"turn p0\r\nturn p1\r\nbad\r\n", 3, 30),
    (b"round 0\nturn p9\n", 1, 31),
    (b"turn p2\nround 0\n", 1, 32),
    (
        b"round 10000000\nround 10000000\nround 10000000\nround 10000000\nround 10000000\nround 10000000\nround 10000001\n",
        7,
        31,
    ),
    (
        b"round 10000000\nround 10000000\nround 10000000\nround 10000000\nround 10000000\nround 10000000\nround 10000000\n",
        7,
        39,
    ),
];

// Schedules that violate no rule, with the number of their items.
const TAKEN: [(&[u8], usize); 32] = [
    (b"", 0),
    (b"\n", 0),
    (b"#", 0),
    (b" \t \n", 0),
    (b"\r\n", 0),
    (b"#\0\n", 0),
    (b"#turn p9\n\n  # more\n", 0),
    (b"turn p0", 1),
    (b" turn\tp0 \r\n", 1),
    (b"turn p1\n\nturn i0\n", 2),
    (b"turns p0 10000000\n", 1),
    (b"turns i0 1\n", 1),
    (b"round 10000000\n", 1),
    (b"finish 10000000", 1),
    (b"finish 1\r\nfinish 1\r\n", 2),
    (b"input 0 aB\n", 1),
    (b"input 1 00fF\n", 1),
    (
        b"input 0 000102030405060708090a0b0c0d0e0f101112131415161718191a1b1c1d1e1f202122232425262728292a2b2c2d2e2f303132333435363738393a3b3c3d3e3f\n",
        1,
    ),
    (
        b"input 1 000102030405060708090a0b0c0d0e0f101112131415161718191a1b1c1d1e1f\ninput 1 202122232425262728292a2b2c2d2e2f303132333435363738393a3b3c3d3e3f\nclose 1\n",
        3,
    ),
    (
        b"input 0 000102030405060708090a0b0c0d0e0f101112131415161718191a1b1c1d1e1f202122232425262728292a2b2c2d2e2f303132333435363738393a3b3c3d3e3f\ninput 1 404142434445464748494a4b4c4d4e4f505152535455565758595a5b5c5d5e5f606162636465666768696a6b6c6d6e6f707172737475767778797a7b7c7d7e7f\n",
        2,
    ),
    (b"close 0\nclose 1\n", 2),
    (b"close 0\nhangup 0\n", 2),
    (b"fail p0\nrepair p0\nfail p0\n", 3),
    (b"fail m2\nrepair m2\n", 2),
    (b"fail i0\nfail p0\nfail m0\n", 3),
    (b"fail p0\nturn p0\n", 2),
    (
        b"upset p0 a 1 0x1\nfail p0\nrepair p0\nupset p0 b 1 0x1\n",
        4,
    ),
    (b"upset p0 a 1 0x1\nupset p0 a 1 0x1\n", 2),
    (b"upset p0 a 1 0x1\nupset p1 b 32 0xFFFFFFFF\n", 2),
    (b"upset p1 b 32 0x00000001\n", 1),
    (b"hangup 0\nhangup 1\n", 2),
    (
        b"round 10000000\nround 10000000\nround 10000000\nround 10000000\nround 10000000\nround 10000000\nturns p0 10000000\nturns p0 10000000\nclose 0\n",
        9,
    ),
];

// Places and rules while no line is hung up.
const GATED: [(&[u8], u64, u16); 52] = [
    (b"hangup\n", 1, 0),
    (b"hangup 0\n", 1, 0),
    (b"hangup 9\n", 1, 0),
    (b"hangup x y z\n", 1, 0),
    (b"hangup 0\nhangup 0\n", 1, 0),
    (b"# fail\n\nhangup 0\n", 3, 0),
    (b"fail m0\nhangup 0\n", 2, 0),
    (b"upset p0 a 1 0x1\nhangup 1\n", 2, 0),
    (b"fail i0\nrepair i0\nhangup 0", 3, 0),
    (b"fail\n", 1, 30),
    (b"repair\n", 1, 30),
    (b"fail m0 bad\n", 1, 30),
    (b"repair i0 0\n", 1, 30),
    (b"fail m8\n", 1, 30),
    (b"repair i4\n", 1, 30),
    (b"failing p0\n", 1, 30),
    (b"upset\n", 1, 30),
    (b"upset p0 a 1 1\n", 1, 30),
    (b"upset m0 a 1 0x1\n", 1, 30),
    (b"turn p0\nfail\n", 2, 30),
    (b"turn p0 hangup\n", 1, 30),
    (b"bad\nhangup 0\n", 1, 30),
    (b"upset p0 a 0 0x1\n", 1, 31),
    (b"upset p0 a 33 0x1\n", 1, 31),
    (b"upset p0 b 1 0x0\n", 1, 31),
    (b"round 0\nhangup 0\n", 1, 31),
    (b"fail p2\n", 1, 32),
    (b"fail m3\n", 1, 32),
    (b"repair m7\n", 1, 32),
    (b"fail i1\n", 1, 32),
    (b"repair i3\n", 1, 32),
    (b"upset p2 a 1 0x1\n", 1, 32),
    (b"turn p2\nhangup 0\n", 1, 32),
    (b"fail m0\nfail m0\n", 2, 33),
    (b"fail i0\nturn i0\nfail i0\n", 3, 33),
    (b"repair m0\n", 1, 33),
    (b"repair i0\n", 1, 33),
    (b"fail m0\nrepair m0\nrepair m0\n", 3, 33),
    (b"fail m1\nfail m0\nrepair m2\n", 3, 33),
    (b"fail i0\nrepair m0\n", 2, 33),
    (b"fail m0\nrepair m0\nfail m0\nfail m0\n", 4, 33),
    (b"fail p0\nturn p0\nfail p1\n# p0\nfail p0\n", 5, 33),
    (b"upset p0 a 1 0x1\nrepair p0\n", 2, 33),
    (b"fail p0\nupset p0 a 1 0x1\n", 2, 34),
    (b"upset p0 a 1 0x1\nfail p0\nupset p0 a 1 0x1\n", 3, 34),
    (b"fail p0\nrepair p0\nfail p0\nupset p0 b 2 0x1\n", 4, 34),
    (b"upset p0 a 5 0x1\nupset p0 b 6 0x1\n", 2, 35),
    (
        b"upset p0 b 5 0x1\nfail m0\nrepair m0\nupset p0 a 5 0x1\n",
        4,
        35,
    ),
    (
        b"upset p0 a 5 0x1\nfail p0\nrepair p0\nupset p0 b 6 0x1\nupset p0 a 5 0x1\n",
        5,
        35,
    ),
    (b"close 0\nclose 0\nfail p0\n", 2, 36),
    (
        b"round 10000000\nround 10000000\nround 10000000\nround 10000000\nround 10000000\nround 10000000\nround 10000000\nfail p0\n",
        7,
        39,
    ),
    (
        b"round 10000000\nround 10000000\nround 10000000\nround 10000000\nround 10000000\nround 10000000\nturns p0 10000000\nturns p0 10000000\nfail m0\nturn p0\n",
        10,
        39,
    ),
];

// Schedules with failures and strikes that violate no rule, with the number of their items.
const FAILING: [(&[u8], usize); 12] = [
    (b"fail p0", 1),
    (b" fail\tm1 \r\n", 1),
    (b"fail i0\nrepair i0\n", 2),
    (b"fail m0\nrepair m0\nfail m0\nrepair m0\n", 4),
    (
        b"fail p0\nfail m0\nfail i0\nrepair i0\nrepair m0\nrepair p0\n",
        6,
    ),
    (b"fail m0\nfail m1\nfail m2\n", 3),
    (b"fail p0\nturn p0\nturns p0 3\nround 2\nfinish 1\n", 5),
    (b"fail p0\ninput 0 41\nclose 0\nrepair p0\n", 4),
    (b"upset p0 b 31 0x1\nfinish 10000", 2),
    (
        b"upset p0 a 5 0x1\nfail p0\nrepair p0\nupset p0 b 6 0x1\n",
        4,
    ),
    (b"upset p0 a 5 0x1\nupset p1 b 6 0x1\nupset p0 a 5 0x1\n", 3),
    (
        b"round 10000000\nround 10000000\nround 10000000\nround 10000000\nround 10000000\nround 10000000\nturns p0 10000000\nturns p0 10000000\nfail m0\nupset p1 a 32 0x1\n",
        10,
    ),
];

fn refused(place: u64, rule: u16) -> Option<ReadError> {
    Some(ReadError::Refused { place, rule })
}

fn refusal(alloc: Global, gate: Gate, desc: &MachineDesc, text: &[u8]) -> Option<ReadError>
    requires { IsDescription desc.now }
{
    read(alloc, gate, text, desc).err()
}

// The first row that is answered otherwise.
fn first_wrong(
    alloc: Global,
    gate: Gate,
    desc: &MachineDesc,
    rows: &[(&[u8], u64, u16)],
) -> Option<usize>
    requires { IsDescription desc.now }
{
    for (at, row) in rows.iter().enumerate() {
        if refusal(alloc, gate, desc, row.0) != refused(row.1, row.2) {
            return Some(at);
        }
    }
    None
}

// The first line that is answered otherwise than with this rule.
fn first_without(alloc: Global, desc: &MachineDesc, rule: u16, lines: &[&[u8]]) -> Option<usize>
    requires { IsDescription desc.now }
{
    for (at, line) in lines.iter().enumerate() {
        if refusal(alloc, Gate::Open, desc, line) != refused(1, rule) {
            return Some(at);
        }
    }
    None
}

#[test]
fn lines_are_refused_by_the_least_rule(rt: HostRuntime) -> Result<(), Fail> {
    let alloc = rt.alloc();
    let desc = machine(alloc)?;
    assert_eq!(rt; first_without(alloc, &desc, 30, &NO_FORM), None);
    assert_eq!(rt; first_without(alloc, &desc, 31, &MALFORMED), None);
    assert_eq!(rt; first_without(alloc, &desc, 32, &ABSENT), None);
    Ok(())
}

#[test]
fn schedules_are_refused_at_their_first_fault(rt: HostRuntime) -> Result<(), Fail> {
    let alloc = rt.alloc();
    let desc = machine(alloc)?;
    assert_eq!(rt; first_wrong(alloc, Gate::Open, &desc, &REFUSED), None);
    assert_eq!(rt; first_wrong(alloc, Gate::Built, &desc, &GATED), None);
    Ok(())
}

fn count(alloc: Global, gate: Gate, desc: &MachineDesc, text: &[u8]) -> Option<usize>
    requires { IsDescription desc.now }
{
    match read(alloc, gate, text, desc) {
        Ok(items) => Some(items.len()),
        Err(_) => None,
    }
}

// The first schedule that has another number of items.
fn first_miscounted(
    alloc: Global,
    gate: Gate,
    desc: &MachineDesc,
    rows: &[(&[u8], usize)],
) -> Option<usize>
    requires { IsDescription desc.now }
{
    for (at, row) in rows.iter().enumerate() {
        if count(alloc, gate, desc, row.0) != Some(row.1) {
            return Some(at);
        }
    }
    None
}

#[test]
fn schedules_are_taken(rt: HostRuntime) -> Result<(), Fail> {
    let alloc = rt.alloc();
    let desc = machine(alloc)?;
    assert_eq!(rt; first_miscounted(alloc, Gate::Open, &desc, &TAKEN), None);
    assert_eq!(rt; first_miscounted(alloc, Gate::Built, &desc, &FAILING), None);
    Ok(())
}

// An item as it is wanted.
#[derive(Clone, Copy)]
enum Wanted<'a> {
    One(Event),
    Bytes(u8, &'a [u8]),
    Turns(Element, u32),
    Rounds(u32),
    Finish(u32),
}

fn is_wanted(script: &Script, wanted: Wanted) -> bool {
    match (script, wanted) {
        (Script::One(event), Wanted::One(other)) => *event == other,
        (Script::Bytes(line, bytes), Wanted::Bytes(number, other)) => {
            line.0 == number && bytes.as_slice() == other
        }
        (Script::Turns(element, times), Wanted::Turns(other, number)) => {
            *element == other && *times == number
        }
        (Script::Rounds(times), Wanted::Rounds(number)) => *times == number,
        (Script::Finish(times), Wanted::Finish(number)) => *times == number,
        _ => false,
    }
}

// The first item that isn't the wanted one.
fn first_other(items: &[Item], wanted: &[(u64, Wanted)]) -> Option<usize> {
    if items.len() != wanted.len() {
        return Some(items.len());
    }
    for (at, (item, row)) in items.iter().zip(wanted).enumerate() {
        if item.line != row.0 || !is_wanted(&item.script, row.1) {
            return Some(at);
        }
    }
    None
}

const EVERY_FORM: &[u8] =
    b"# all\nturn p1\nturn i0\r\n\nturns p0 7\nround 8\nfinish 9\ninput 1 00aBfF\nclose 1\nfail m2\nrepair m2\nupset p0 b 32 0xfedcBA98\nhangup 0";

#[test]
fn every_form_is_read(rt: HostRuntime) -> Result<(), Fail> {
    let alloc = rt.alloc();
    let desc = machine(alloc)?;
    let items = read(alloc, Gate::Open, EVERY_FORM, &desc)
        .ok()
        .ok_or("refused")?;
    let wanted = [
        (2, Wanted::One(Event::Processor(Pe(1)))),
        (3, Wanted::One(Event::Io(Ioe(0)))),
        (5, Wanted::Turns(Element::Processor(Pe(0)), 7)),
        (6, Wanted::Rounds(8)),
        (7, Wanted::Finish(9)),
        (8, Wanted::Bytes(1, b"\x00\xab\xff")),
        (9, Wanted::One(Event::Close(LineNo(1)))),
        (10, Wanted::One(Event::Fail(Element::Memory(Me(2))))),
        (11, Wanted::One(Event::Repair(Element::Memory(Me(2))))),
        (
            12,
            Wanted::One(Event::Upset(Pe(0), Half::B, 32, 0xfedc_ba98)),
        ),
        (13, Wanted::One(Event::Hangup(LineNo(0)))),
    ];
    assert_eq!(rt; first_other(items.as_slice(), &wanted), None);
    let built = parse(
        alloc,
        b"turn p1\n\nfail m1\nrepair m1\nfail i0\nupset p1 a 31 0x1\nfinish 3",
        &desc,
    )
    .ok()
    .ok_or("refused")?;
    let wanted = [
        (1, Wanted::One(Event::Processor(Pe(1)))),
        (3, Wanted::One(Event::Fail(Element::Memory(Me(1))))),
        (4, Wanted::One(Event::Repair(Element::Memory(Me(1))))),
        (5, Wanted::One(Event::Fail(Element::Io(Ioe(0))))),
        (6, Wanted::One(Event::Upset(Pe(1), Half::A, 31, 1))),
        (7, Wanted::Finish(3)),
    ];
    assert_eq!(rt; first_other(built.as_slice(), &wanted), None);
    Ok(())
}

// A line so many times, and what follows.
fn repeated(alloc: Global, line: &[u8], times: u32, last: &[u8]) -> Result<Bytes, NoMemory> {
    let mut many = Bytes::new(alloc);
    for _ in 0..times {
        many.append(line)?;
    }
    many.append(last)?;
    Ok(many)
}

#[test]
fn a_million_lines(rt: HostRuntime) -> Result<(), Fail> {
    let alloc = rt.alloc();
    let desc = machine(alloc)?;
    let full = repeated(alloc, b"turns p0 1\n", 999_999, b"turn i0")?;
    assert_eq!(rt;
        count(alloc, Gate::Open, &desc, full.as_slice()),
        Some(1_000_000)
    );
    for (line, last, wanted) in [
        (b"\n".as_slice(), b"".as_slice(), None),
        (b"\n".as_slice(), b"\n".as_slice(), refused(1_000_001, 39)),
        (b"#\r\n".as_slice(), b"#".as_slice(), refused(1_000_001, 39)),
        (
            b"\n".as_slice(),
            b"bad\n".as_slice(),
            refused(1_000_001, 30),
        ),
        (
            b"\n".as_slice(),
            b"turn p0\nbad\n".as_slice(),
            refused(1_000_001, 39),
        ),
        (
            b"turn p0\n".as_slice(),
            b"turn p2\n".as_slice(),
            refused(1_000_001, 32),
        ),
    ] {
        let text = repeated(alloc, line, 1_000_000, last)?;
        assert_eq!(rt; refusal(alloc, Gate::Open, &desc, text.as_slice()), wanted);
    }
    Ok(())
}
