// What runs print, byte by byte.
use super::*;
use crate::runs::{HELLO, HELLO3_IMAGE, LOOP_IMAGE, PAIR, SPREAD_IMAGE, TRAP_IMAGE, shelf_for};
use crate::tests::{Failing, File, HELLO as HELLO_IMAGE, Left, NONE, give};
use seq_shelf::{MemShelf, MemSink};
use seq_words::{Blocker, Bytes, Element, LineNo, Me, NoMemory, Pe, Pid};
use std::process::Abort;
use std::test::Fail;

pub(crate) const USAGE: &str =
    "usage:\nsequoia run MACHINE SCHEDULE\nsequoia asm SOURCE IMAGE\nsequoia list IMAGE\n";

const RUN: &[&str] = &["run", "m.txt", "s.txt"];

// The first fifteen bytes of an image.
const SHORT: &[u8] = &[
    0x53, 0x51, 0x49, 0x31, 0x40, 0, 0, 0, 0x21, 0, 0, 0, 0, 0, 0,
];

// An image whose private size is 65,568.
const LONG: &[u8] = &[
    0x53, 0x51, 0x49, 0x31, 0x20, 0, 1, 0, 0, 0, 0, 0, 0, 0, 0, 0, 0,
];

// Words, a machine, a schedule, the image of its program where there is one, what fails, and the writes that fail; how that ends, how
// many bytes line 0 has accepted, and the text.
struct Print {
    words: &'static [&'static str],
    machine: &'static str,
    schedule: &'static str,
    image: Option<&'static [u8]>,
    failing: Failing,
    writes: &'static [u8],
    status: Status,
    accepted: u64,
    text: &'static str,
}

static PRINTS: [Print; 17] = [
    Print {
        words: RUN,
        machine: HELLO,
        schedule: "finish 10000\n",
        image: Some(&HELLO_IMAGE),
        failing: NONE,
        writes: &[],
        status: Status::Done,
        accepted: 1,
        text: "done\nhistory 1 8\nprocess 0 exited 0\nline 0 1\n",
    },
    Print {
        words: RUN,
        machine: HELLO,
        schedule: "",
        image: Some(&HELLO_IMAGE),
        failing: NONE,
        writes: &[],
        status: Status::Done,
        accepted: 0,
        text: "done\nhistory 0 0\nprocess 0 live\nline 0 0\n",
    },
    Print {
        words: RUN,
        machine: HELLO,
        schedule: "finish 1000\n",
        image: Some(TRAP_IMAGE),
        failing: NONE,
        writes: &[],
        status: Status::Done,
        accepted: 0,
        text: "done\nhistory 1 2\nprocess 0 trapped 7 at 4\nline 0 0\n",
    },
    Print {
        words: RUN,
        machine: HELLO,
        schedule: "finish 10000\n",
        image: Some(SPREAD_IMAGE),
        failing: NONE,
        writes: &[],
        status: Status::Done,
        accepted: 0,
        text: "done\nhistory 2 56\nprocess 0 exited 0\nline 0 0\n",
    },
    Print {
        words: RUN,
        machine: HELLO,
        schedule: "turns p0 15\nfail m0\nturns p0 21\nrepair m0\nfail m1\n",
        image: Some(&HELLO_IMAGE),
        failing: NONE,
        writes: &[],
        status: Status::MachineCheck {
            line: 5,
            stopped: Element::Memory(Me(1)),
            cause: Blocker::Memory(Me(0)),
        },
        accepted: 0,
        text: "machine check at line 5: m1 while m0\nhistory 1 8\nprocess 0 exited 0\nline 0 0\n",
    },
    Print {
        words: RUN,
        machine: HELLO,
        schedule: "turns p0 15\nfail m0\nfail p0\n",
        image: Some(&HELLO_IMAGE),
        failing: NONE,
        writes: &[],
        status: Status::MachineCheck {
            line: 3,
            stopped: Element::Processor(Pe(0)),
            cause: Blocker::Memory(Me(0)),
        },
        accepted: 0,
        text: "machine check at line 3: p0 while m0\nhistory 0 0\nprocess 0 live\nline 0 0\n",
    },
    Print {
        words: RUN,
        machine: HELLO,
        schedule: "turns p0 15\nfail p0\nfail m0\n",
        image: Some(&HELLO_IMAGE),
        failing: NONE,
        writes: &[],
        status: Status::MachineCheck {
            line: 3,
            stopped: Element::Memory(Me(0)),
            cause: Blocker::Process(Pid(0)),
        },
        accepted: 0,
        text: "machine check at line 3: m0 while process 0\nhistory 0 0\nprocess 0 live\nline 0 0\n",
    },
    Print {
        words: RUN,
        machine: PAIR,
        schedule: "upset p0 a 5 0x1\nupset p0 b 6 0x1\n",
        image: Some(&HELLO_IMAGE),
        failing: NONE,
        writes: &[],
        status: Status::Refused {
            file: 2,
            place: 2,
            rule: 35,
        },
        accepted: 0,
        text: "refused s.txt at 2 rule 35\n",
    },
    Print {
        words: RUN,
        machine: HELLO,
        schedule: "finish 10000\n",
        image: Some(SHORT),
        failing: NONE,
        writes: &[],
        status: Status::Refused {
            file: 1,
            place: 15,
            rule: 21,
        },
        accepted: 0,
        text: "refused hello.sqi at 15 rule 21\n",
    },
    Print {
        words: RUN,
        machine: HELLO,
        schedule: "finish 10000\n",
        image: Some(LONG),
        failing: NONE,
        writes: &[],
        status: Status::Refused {
            file: 1,
            place: 4,
            rule: 22,
        },
        accepted: 0,
        text: "refused hello.sqi at 4 rule 22\n",
    },
    Print {
        words: RUN,
        machine: HELLO,
        schedule: "finish 3\n",
        image: Some(LOOP_IMAGE),
        failing: NONE,
        writes: &[],
        status: Status::OutOfTurns { line: 1 },
        accepted: 0,
        text: "out of turns at line 1\nhistory 0 0\nprocess 0 live\nline 0 0\n",
    },
    Print {
        words: RUN,
        machine: HELLO,
        schedule: "finish 10000\n",
        image: Some(HELLO3_IMAGE),
        failing: Failing {
            loads: &[],
            appends: &[],
            sends: &[2],
        },
        writes: &[],
        status: Status::LineFault { line: LineNo(0) },
        accepted: 2,
        text: "line fault 0\nhistory 1 8\nprocess 0 exited 0\nline 0 2\n",
    },
    Print {
        words: &[],
        machine: HELLO,
        schedule: "finish 10000\n",
        image: Some(&HELLO_IMAGE),
        failing: NONE,
        writes: &[],
        status: Status::Usage,
        accepted: 0,
        text: USAGE,
    },
    Print {
        words: &["run", "a.txt"],
        machine: HELLO,
        schedule: "finish 10000\n",
        image: Some(&HELLO_IMAGE),
        failing: NONE,
        writes: &[],
        status: Status::Usage,
        accepted: 0,
        text: USAGE,
    },
    Print {
        words: RUN,
        machine: HELLO,
        schedule: "finish 10000\n",
        image: None,
        failing: NONE,
        writes: &[],
        status: Status::Absent { file: 1 },
        accepted: 0,
        text: "absent hello.sqi\n",
    },
    // The line has its byte, though nothing is printed.
    Print {
        words: RUN,
        machine: HELLO,
        schedule: "finish 10000\n",
        image: Some(&HELLO_IMAGE),
        failing: NONE,
        writes: &[0],
        status: Status::SinkFault,
        accepted: 1,
        text: "",
    },
    Print {
        words: RUN,
        machine: HELLO,
        schedule: "finish 10000\n",
        image: Some(&HELLO_IMAGE),
        failing: Failing {
            loads: &[],
            appends: &[0],
            sends: &[],
        },
        writes: &[],
        status: Status::ChronicleFault,
        accepted: 0,
        text: "chronicle fault\nhistory 0 0\nprocess 0 live\nline 0 0\n",
    },
];

// The files of a row.
fn shelf_of_row(alloc: Global, row: &Print) -> Result<MemShelf, NoMemory> {
    let schedule = row.schedule.as_bytes();
    let loads = row.failing.loads;
    match row.image {
        Some(content) => {
            let name = "hello.sqi";
            shelf_for(
                alloc,
                row.machine,
                schedule,
                &[File { name, content }],
                loads,
            )
        }
        None => shelf_for(alloc, row.machine, schedule, &[], loads),
    }
}

// Whether it ended so, with so many bytes on line 0, and printed the text.
fn is_left(left: &Left, text: &[u8], row: &Print) -> bool {
    left.status == row.status && left.first.accepted == row.accepted && text == row.text.as_bytes()
}

// Gives the command of a row: whether it prints as wanted.
fn prints(alloc: Global, row: &Print) -> Result<bool, Fail> {
    let mut shelf = shelf_of_row(alloc, row)?;
    let mut sink = MemSink::new(alloc, Bytes::copy_of(alloc, row.writes)?);
    let left = give(alloc, row.words, &mut shelf, &row.failing, &mut sink)?;
    Ok(is_left(&left, sink.bytes(), row))
}

fn all_print(rt: &impl Abort, alloc: Global, rows: &[Print]) -> Result<(), Fail> {
    for (number, row) in rows.iter().enumerate() {
        assert!(rt; prints(alloc, row)?, "{}", number);
    }
    Ok(())
}

#[test]
fn texts(rt: HostRuntime) -> Result<(), Fail> {
    all_print(&rt, rt.alloc(), &PRINTS)
}
