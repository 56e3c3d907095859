// Commands that assemble a source or list an image, with the files in memory.
use super::*;
use crate::prints::USAGE;
use crate::tests::{File, HELLO, Left, NONE, give, put_files, shelf_of};
use seq_shelf::{MemShelf, MemSink};
use seq_words::{Bytes, NoMemory};
use std::process::Abort;
use std::test::Fail;

const ADD: &str = "addi x1, x0, 5\n";

// Private size 1,056, four bytes, entry 0.
const ADD_IMAGE: &[u8] = &[
    0x53, 0x51, 0x49, 0x31, 0x20, 0x04, 0, 0, 4, 0, 0, 0, 0, 0, 0, 0, 0x93, 0x00, 0x50, 0x00,
];

const HELLO_SOURCE: &str =
    ".size 64\naddi x10, x0, 0\naddi x11, x0, 32\naddi x12, x0, 1\naddi x17, x0, 4\necall\naddi x10, x0, 0\naddi x17, x0, 0\necall\n.byte 0x41\n";

const HELLO2_SOURCE: &str =
    ".size 64\naddi x10, x0, 0\naddi x11, x0, 32\naddi x12, x0, 2\naddi x17, x0, 4\necall\naddi x10, x0, 0\naddi x17, x0, 0\necall\n.byte 0x41\n.byte 0x42\n";

const HELLO2: &[u8] = &[
    0x53, 0x51, 0x49, 0x31, 0x40, 0, 0, 0, 0x22, 0, 0, 0, 0, 0, 0, 0, 0x13, 0x05, 0, 0, 0x93, 0x05,
    0, 0x02, 0x13, 0x06, 0x20, 0, 0x93, 0x08, 0x40, 0, 0x73, 0, 0, 0, 0x13, 0x05, 0, 0, 0x93, 0x08,
    0, 0, 0x73, 0, 0, 0, 0x41, 0x42,
];

const HELLO_LISTING: &str =
    "00000000 00000513 addi x10, x0, 0\n00000004 02000593 addi x11, x0, 32\n00000008 00100613 addi x12, x0, 1\n0000000c 00400893 addi x17, x0, 4\n00000010 00000073 ecall\n00000014 00000513 addi x10, x0, 0\n00000018 00000893 addi x17, x0, 0\n0000001c 00000073 ecall\n00000020 41 .byte 0x41\n";

// The words, the text of `b.s`, the numbers of the loads and stores and of the writes that fail; the status, what `a.sqi` holds then,
// and what is printed.
struct Row {
    words: &'static [&'static str],
    source: &'static str,
    failing: &'static [u8],
    writes: &'static [u8],
    status: Status,
    stored: Option<&'static [u8]>,
    text: &'static str,
}

const ASSEMBLE: &[&str] = &["asm", "b.s", "a.sqi"];

static ROWS: [Row; 20] = [
    Row {
        words: ASSEMBLE,
        source: ADD,
        failing: &[],
        writes: &[],
        status: Status::Done,
        stored: Some(ADD_IMAGE),
        text: "assembled 4 bytes\n",
    },
    Row {
        words: ASSEMBLE,
        source: HELLO_SOURCE,
        failing: &[],
        writes: &[],
        status: Status::Done,
        stored: Some(&HELLO),
        text: "assembled 33 bytes\n",
    },
    Row {
        words: ASSEMBLE,
        source: HELLO2_SOURCE,
        failing: &[],
        writes: &[],
        status: Status::Done,
        stored: Some(HELLO2),
        text: "assembled 34 bytes\n",
    },
    Row {
        words: ASSEMBLE,
        source: "beq x1, x2, far\n",
        failing: &[],
        writes: &[],
        status: Status::Refused {
            file: 0,
            place: 1,
            rule: 54,
        },
        stored: None,
        text: "refused b.s at 1 rule 54\n",
    },
    Row {
        words: ASSEMBLE,
        source: "jal x0, 3\n",
        failing: &[],
        writes: &[],
        status: Status::Refused {
            file: 0,
            place: 1,
            rule: 52,
        },
        stored: None,
        text: "refused b.s at 1 rule 52\n",
    },
    Row {
        words: &["asm", "a.s", "a.sqi"],
        source: ADD,
        failing: &[],
        writes: &[],
        status: Status::Absent { file: 0 },
        stored: None,
        text: "absent a.s\n",
    },
    // The load is call 0, and the store call 1.
    Row {
        words: ASSEMBLE,
        source: "jal x0, 3\n",
        failing: &[0],
        writes: &[],
        status: Status::ShelfFault,
        stored: None,
        text: "shelf fault\n",
    },
    Row {
        words: ASSEMBLE,
        source: ADD,
        failing: &[1],
        writes: &[],
        status: Status::ShelfFault,
        stored: None,
        text: "shelf fault\n",
    },
    Row {
        words: ASSEMBLE,
        source: "jal x0, 3\n",
        failing: &[1],
        writes: &[],
        status: Status::Refused {
            file: 0,
            place: 1,
            rule: 52,
        },
        stored: None,
        text: "refused b.s at 1 rule 52\n",
    },
    Row {
        words: &["list", "hello.sqi"],
        source: ADD,
        failing: &[],
        writes: &[],
        status: Status::Done,
        stored: None,
        text: HELLO_LISTING,
    },
    Row {
        words: &["list", "a.sqi"],
        source: ADD,
        failing: &[],
        writes: &[],
        status: Status::Absent { file: 0 },
        stored: None,
        text: "absent a.sqi\n",
    },
    Row {
        words: &["list", "b.s"],
        source: "SQI2",
        failing: &[],
        writes: &[],
        status: Status::Refused {
            file: 0,
            place: 3,
            rule: 20,
        },
        stored: None,
        text: "refused b.s at 3 rule 20\n",
    },
    Row {
        words: &["list", "hello.sqi"],
        source: ADD,
        failing: &[0],
        writes: &[],
        status: Status::ShelfFault,
        stored: None,
        text: "shelf fault\n",
    },
    Row {
        words: &["asm", "b.s"],
        source: ADD,
        failing: &[],
        writes: &[],
        status: Status::Usage,
        stored: None,
        text: USAGE,
    },
    Row {
        words: &["list", "hello.sqi", "a.sqi"],
        source: ADD,
        failing: &[],
        writes: &[],
        status: Status::Usage,
        stored: None,
        text: USAGE,
    },
    Row {
        words: &["asm", "b.s", "-a.sqi"],
        source: ADD,
        failing: &[],
        writes: &[],
        status: Status::Usage,
        stored: None,
        text: USAGE,
    },
    Row {
        words: &["list", "add.sqi"],
        source: ADD,
        failing: &[],
        writes: &[],
        status: Status::Done,
        stored: None,
        text: "00000000 00500093 addi x1, x0, 5\n",
    },
    // Nothing is printed, and what was stored stays.
    Row {
        words: ASSEMBLE,
        source: ADD,
        failing: &[],
        writes: &[0],
        status: Status::SinkFault,
        stored: Some(ADD_IMAGE),
        text: "",
    },
    Row {
        words: &["list", "add.sqi"],
        source: ADD,
        failing: &[],
        writes: &[0],
        status: Status::SinkFault,
        stored: None,
        text: "",
    },
    Row {
        words: &["list"],
        source: ADD,
        failing: &[],
        writes: &[0],
        status: Status::SinkFault,
        stored: None,
        text: "",
    },
];

// Whether a file is there with these bytes, or, where none are wanted, isn't there.
fn holds(shelf: &MemShelf, name: &str, wanted: Option<&[u8]>) -> bool {
    match shelf.get(name) {
        Some(bytes) => match wanted {
            Some(wanted) => bytes == wanted,
            None => false,
        },
        None => wanted.is_none(),
    }
}

static IMAGES: [File<'static>; 2] = [
    File {
        name: "hello.sqi",
        content: &HELLO,
    },
    File {
        name: "add.sqi",
        content: ADD_IMAGE,
    },
];

// The files that a command finds.
fn shelf_for(alloc: Global, source: &str, failing: &[u8]) -> Result<MemShelf, NoMemory> {
    let source = File {
        name: "b.s",
        content: source.as_bytes(),
    };
    let mut shelf = shelf_of(alloc, &[source], failing)?;
    put_files(&mut shelf, &IMAGES)?;
    Ok(shelf)
}

// Whether the source is as it was, and the image as wanted.
fn has_files(shelf: &MemShelf, row: &Row) -> bool {
    holds(shelf, "a.sqi", row.stored) && holds(shelf, "b.s", Some(row.source.as_bytes()))
}

// Whether status, text and files are as wanted, and lines and chronicle as before.
fn is_left(left: &Left, shelf: &MemShelf, text: &[u8], row: &Row) -> bool {
    left.status == row.status
        && left.first.accepted == 0
        && left.chronicle.pairs().is_empty()
        && text == row.text.as_bytes()
        && has_files(shelf, row)
}

// Gives the command of a row: whether it is answered as wanted.
fn is_answered(alloc: Global, row: &Row) -> Result<bool, Fail> {
    let mut shelf = shelf_for(alloc, row.source, row.failing)?;
    let mut sink = MemSink::new(alloc, Bytes::copy_of(alloc, row.writes)?);
    let left = give(alloc, row.words, &mut shelf, &NONE, &mut sink)?;
    Ok(is_left(&left, &shelf, sink.bytes(), row))
}

fn are_answered(rt: &impl Abort, alloc: Global, rows: &[Row]) -> Result<(), Fail> {
    for (number, row) in rows.iter().enumerate() {
        assert!(rt; is_answered(alloc, row)?, "{}", number);
    }
    Ok(())
}

#[test]
fn images_are_stored(rt: HostRuntime) -> Result<(), Fail> {
    are_answered(&rt, rt.alloc(), &ROWS)
}
