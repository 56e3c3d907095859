use super::*;
use seq_words::{Bytes, Items, MachineDesc, ReadError};
use std::alloc::Global;
use std::process::Abort;
use std::test::Fail;

const MACHINE_A: &[u8] =
    b"sequoia 1\nprocessors 2\nmemories 2\nios 2\ncache 16\nquantum 1000\njournal 32\nprocess hello.sqi lines 0 segments -\n";

fn check_elements(rt: &impl Abort, desc: &MachineDesc) {
    assert_eq!(rt; desc.processors, 2);
    assert_eq!(rt; desc.memories, 2);
    assert_eq!(rt; desc.ios, 2);
    assert_eq!(rt; desc.cache, 16);
    assert_eq!(rt; desc.quantum, 1000);
    assert_eq!(rt; desc.journal, 32);
}

fn check_lone_process(rt: &impl Abort, desc: &MachineDesc) {
    assert_eq!(rt; desc.processes.len(), 1);
    let process = desc.processes.at(0);
    assert_eq!(rt;
        (process.size, process.entry, process.lines, process.grants),
        (0, 0, 1, 0)
    );
}

// So many files are named, and one of them by this name.
fn check_name(rt: &impl Abort, names: &Items<Bytes>, count: usize, at: usize, name: &[u8]) {
    assert_eq!(rt; names.len(), count);
    assert!(rt; at < names.len());
    assert_eq!(rt; names.at(at).as_slice(), name);
}

#[test]
fn machine_a_is_read(rt: HostRuntime) -> Result<(), Fail> {
    let draft = read(rt.alloc(), MACHINE_A).ok().ok_or("refused")?;
    check_elements(&rt, &draft.desc);
    assert_eq!(rt; draft.desc.segments.len(), 0);
    assert_eq!(rt; draft.firsts.len(), 0);
    check_lone_process(&rt, &draft.desc);
    check_name(&rt, &draft.images, 1, 0, b"hello.sqi");
    Ok(())
}

// Comments, blank lines, tabs, 0d before 0a, a name with a byte 0, and a last line without its end.
const LARGE: &[u8] =
    b"# a machine\n\n sequoia\t1 \r\nprocessors 8\nmemories 8\nios 4\r\n\t \ncache 256\nquantum 10000\njournal 65536\n#\nsegment 16384\nsegment 32 first.bin\r\nprocess a lines 2,15 segments 0,1\nprocess \xc3\xa9\0 lines 0,1,3,4 segments -\n  # more\nprocess c lines 5,6,7,8 segments 1\nprocess d lines 9,10,11,12 segments -\nprocess e lines 13,14 segments 0";

fn check_segments(rt: &impl Abort, desc: &MachineDesc) {
    assert_eq!(rt; desc.segments.len(), 2);
    assert_eq!(rt; desc.segments.at(1).size, 32);
}

fn check_processes(rt: &impl Abort, desc: &MachineDesc) {
    assert_eq!(rt; desc.processes.len(), 5);
    assert_eq!(rt; desc.processes.at(0).lines, 0b1000_0000_0000_0100);
    assert_eq!(rt; desc.processes.at(0).grants, 0b11);
}

#[test]
fn a_large_machine_is_read(rt: HostRuntime) -> Result<(), Fail> {
    let draft = read(rt.alloc(), LARGE).ok().ok_or("refused")?;
    assert_eq!(rt; draft.desc.journal, 65536);
    check_segments(&rt, &draft.desc);
    check_name(&rt, &draft.firsts, 2, 0, b"");
    check_name(&rt, &draft.firsts, 2, 1, b"first.bin");
    check_processes(&rt, &draft.desc);
    check_name(&rt, &draft.images, 5, 1, b"\xc3\xa9\0");
    Ok(())
}

// Texts that violate a rule, with the line and the rule worked out by hand.
const FAULTY: [(&[u8], u64, u16); 36] = [
    (b"", 1, 11),
    (b"\n", 2, 11),
    (b"# comment", 2, 11),
    (b"sequoia 1", 2, 11),
    (b"sequoia 0\n", 1, 12),
    (b"sequoia 2\n", 1, 12),
    (b"sequoia 18446744073709551616\n", 1, 12),
    (b"sequoia 01\n", 1, 10),
    (b"sequoia +1\n", 1, 10),
    (b"sequoia -1\n", 1, 10),
    (b"sequoia 0x1\n", 1, 10),
    (b"sequoia\n", 1, 10),
    (b"sequoia 1 1\n", 1, 10),
    (b"Sequoia 1\n", 1, 10),
    (b"sequoia 1\r\r\n", 1, 10),
    (b"sequoia 1\r", 1, 10),
    (b"sequoia\x0b1\n", 1, 10),
    (b"sequoia 1\0\n", 1, 10),
    (b"processors 2\n", 1, 11),
    (b"sequoia 1\nmemories 2\n", 2, 11),
    (b"sequoia 1\nsequoia 1\n", 2, 11),
    (b"sequoia 1\nmemories 99\n", 2, 11),
    (b"sequoia 1\nsegment 32\n", 2, 11),
    (b"sequoia 1\nprocess a lines - segments -\n", 2, 11),
    (b"sequoia 1\nprocessors 0\n", 2, 12),
    (b"sequoia 1\n\n # two\nprocessors 9\nbad\n", 4, 12),
    (b"sequoia 1\nprocessors 1\nmemories 1\n", 3, 12),
    (b"sequoia 1\nprocessors 1\nmemories 9\n", 3, 12),
    (b"sequoia 1\nprocessors 1\nmemories 2\nios 0\n", 4, 12),
    (b"sequoia 1\nprocessors 1\nmemories 2\nios 5\n", 4, 12),
    (
        b"sequoia 1\nprocessors 1\nmemories 2\nios 1\ncache 15\n",
        5,
        12,
    ),
    (
        b"sequoia 1\nprocessors 1\nmemories 2\nios 1\ncache 257\n",
        5,
        12,
    ),
    (
        b"sequoia 1\nprocessors 1\nmemories 2\nios 1\ncache 16\nquantum 0\n",
        6,
        12,
    ),
    (
        b"sequoia 1\nprocessors 1\nmemories 2\nios 1\ncache 16\nquantum 10001\n",
        6,
        12,
    ),
    (
        b"sequoia 1\nprocessors 1\nmemories 2\nios 1\ncache 16\nquantum 1\njournal 33\n",
        7,
        12,
    ),
    (
        b"sequoia 1\nprocessors 1\nmemories 2\nios 1\ncache 16\nquantum 1\njournal 65568\n",
        7,
        12,
    ),
];

const HEAD: &[u8] =
    b"sequoia 1\nprocessors 2\nmemories 2\nios 2\ncache 16\nquantum 1000\njournal 32\n";

// The same of what follows these seven lines.
const FAULTY_BEHIND: [(&[u8], u64, u16); 44] = [
    (b"", 8, 11),
    (b"# end\n", 9, 11),
    (b"segment 32\n", 9, 11),
    (b"journal 32\n", 8, 11),
    (b"segment 0\n", 8, 12),
    (b"segment 33\n", 8, 12),
    (b"segment 16416\n", 8, 12),
    (b"segment 99999999999999999999 a\n", 8, 12),
    (b"segment\n", 8, 10),
    (b"segment 32 a b\n", 8, 10),
    (b"segment 032 a\n", 8, 10),
    (b"segment 32 \xff\n", 8, 10),
    (b"process a lines 0 segments\n", 8, 10),
    (b"process a lines 0 segments - -\n", 8, 10),
    (b"process a line 0 segments -\n", 8, 10),
    (b"process a lines 0 segment -\n", 8, 10),
    (b"process a lines 0, segments -\n", 8, 10),
    (b"process a lines ,0 segments -\n", 8, 10),
    (b"process a lines 0,,1 segments -\n", 8, 10),
    (b"process a lines 00 segments -\n", 8, 10),
    (b"process a lines -,0 segments -\n", 8, 10),
    (b"process a lines 0 segments x\n", 8, 10),
    (b"process \xc3 lines 0 segments -\n", 8, 10),
    (b"process\0 a lines 0 segments -\n", 8, 10),
    (b"process a lines 1,0 segments -\n", 8, 13),
    (b"process a lines 0,0 segments -\n", 8, 13),
    (b"process a lines 0,1,2,3,4 segments -\n", 8, 13),
    (b"process a lines 0 segments 1,0\n", 8, 13),
    (b"process a lines 16,15 segments 9\n", 8, 13),
    (
        b"process a lines 0 segments -\nprocess b lines 0 segments -\n",
        9,
        13,
    ),
    (
        b"process a lines 0 segments -\n\nprocess b lines 1,0 segments 7\n",
        10,
        13,
    ),
    (
        b"process a lines 99999999999999999999,99999999999999999998 segments -\n",
        8,
        13,
    ),
    (
        b"process a lines 99999999999999999998,99999999999999999999 segments -\n",
        8,
        14,
    ),
    (b"process a lines 0 segments 0\n", 8, 14),
    (b"segment 32\nprocess a lines 0 segments 1\n", 9, 14),
    (
        b"segment 32\nprocess a lines 0 segments 0,18446744073709551616\n",
        9,
        14,
    ),
    (b"process a lines 16 segments -\n", 8, 14),
    (
        b"process a lines 0,18446744073709551616 segments -\n",
        8,
        14,
    ),
    (b"process a lines 0 segments -\nsegment 32\n", 9, 11),
    (b"process a lines 0 segments -\nsequoia 1\n", 9, 11),
    (b"process a lines 1 segments -\n", 9, 15),
    (b"process a lines 0,2 segments -\n\n", 10, 15),
    (
        b"process a lines 15 segments -\nprocess b lines 0,1,2 segments -",
        10,
        15,
    ),
    (b"process a lines 1 segments -\nbad\n", 9, 10),
];

fn refused(place: u64, rule: u16) -> Option<ReadError> {
    Some(ReadError::Refused { place, rule })
}

// The first row that is answered otherwise. The text stands behind a head.
fn first_wrong(alloc: Global, head: &[u8], rows: &[(&[u8], u64, u16)]) -> Option<usize> {
    rows.iter().position(|row| answer(alloc, &[head, row.0]) != refused(row.1, row.2))
}

// Why the pieces of a text, one after the other, aren't read.
fn answer(alloc: Global, pieces: &[&[u8]]) -> Option<ReadError> {
    let mut text = Bytes::new(alloc);
    for piece in pieces {
        if text.append(piece).is_err() {
            return Some(ReadError::NoMemory);
        }
    }
    read(alloc, text.as_slice()).err()
}

#[test]
fn faulty_texts_are_refused_at_their_first_fault(rt: HostRuntime) {
    assert_eq!(rt; first_wrong(rt.alloc(), b"", &FAULTY), None);
    assert_eq!(rt; first_wrong(rt.alloc(), HEAD, &FAULTY_BEHIND), None);
}

// A text of the first lines, a line so many times, and what follows.
fn repeated(alloc: Global, line: &[u8], times: u32, last: &[u8]) -> Option<ReadError> {
    let mut many = Bytes::new(alloc);
    for _ in 0..times {
        if many.append(line).is_err() {
            return Some(ReadError::NoMemory);
        }
    }
    answer(alloc, &[HEAD, many.as_slice(), last])
}

const PROCESS: &[u8] = b"process a lines - segments -\n";

#[test]
fn lines_are_counted(rt: HostRuntime) {
    let alloc = rt.alloc();
    let granted = b"process a lines - segments 15\n";
    assert_eq!(rt; repeated(alloc, b"segment 32\n", 16, granted), None);
    assert_eq!(rt;
        repeated(alloc, b"segment 32\n", 17, PROCESS),
        refused(24, 11)
    );
    assert_eq!(rt; repeated(alloc, PROCESS, 16, b""), None);
    assert_eq!(rt; repeated(alloc, PROCESS, 17, b""), refused(24, 11));
    assert_eq!(rt;
        repeated(alloc, b"\n", 1_000_000, b"segment 1\n"),
        refused(1_000_008, 12)
    );
}

// A process whose file has a name of so many bytes.
fn named(alloc: Global, length: u32) -> Option<ReadError> {
    let mut name = Bytes::new(alloc);
    for _ in 0..length {
        if name.push(b'x').is_err() {
            return Some(ReadError::NoMemory);
        }
    }
    answer(
        alloc,
        &[HEAD, b"process ", name.as_slice(), b" lines 0 segments -\n"],
    )
}

#[test]
fn names_have_at_most_255_bytes(rt: HostRuntime) {
    assert_eq!(rt; named(rt.alloc(), 255), None);
    assert_eq!(rt; named(rt.alloc(), 256), refused(8, 10));
}
