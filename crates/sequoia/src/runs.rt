// Whole runs on machines in memory: how they end, the bytes that they release, and the history that they write.
ghost use Rattle.std.specs.Prelude.{◌<◌};

use super::*;
use crate::tests::{Failing, File, Left, NONE, append_times, give, put_files, shelf_of, turns_and};
use rand_core::Rng;
use rand_pcg::Pcg32;
use seq_shelf::{MemShelf, SoundSink};
use seq_words::{Blocker, Element, Entry, LineNo, Me, NoMemory, Pe, Pid};
use std::process::Abort;
use std::test::Fail;

// Writes the bytes 41 42 43 and exits.
pub(crate) const HELLO3_IMAGE: &[u8] = &[
    0x53, 0x51, 0x49, 0x31, 0x40, 0x00, 0x00, 0x00, 0x23, 0x00, 0x00, 0x00, 0x00, 0x00, 0x00, 0x00,
    0x13, 0x05, 0x00, 0x00, 0x93, 0x05, 0x00, 0x02, 0x13, 0x06, 0x30, 0x00, 0x93, 0x08, 0x40, 0x00,
    0x73, 0x00, 0x00, 0x00, 0x13, 0x05, 0x00, 0x00, 0x93, 0x08, 0x00, 0x00, 0x73, 0x00, 0x00, 0x00,
    0x41, 0x42, 0x43,
];

// Stores a number into each of 17 blocks and exits: two steps, three for each block, and three.
pub(crate) const SPREAD_IMAGE: &[u8] = &[
    0x53, 0x51, 0x49, 0x31, 0x00, 0x10, 0x00, 0x00, 0x20, 0x00, 0x00, 0x00, 0x00, 0x00, 0x00, 0x00,
    0x93, 0x02, 0x00, 0x40, 0x13, 0x03, 0x00, 0x62, 0x23, 0xa0, 0x52, 0x00, 0x93, 0x82, 0x02, 0x02,
    0xe3, 0x9c, 0x62, 0xfe, 0x13, 0x05, 0x00, 0x00, 0x93, 0x08, 0x00, 0x00, 0x73, 0x00, 0x00, 0x00,
];

// Jumps to itself.
pub(crate) const LOOP_IMAGE: &[u8] = &[
    0x53, 0x51, 0x49, 0x31, 0x40, 0x00, 0x00, 0x00, 0x04, 0x00, 0x00, 0x00, 0x00, 0x00, 0x00, 0x00,
    0x6f, 0x00, 0x00, 0x00,
];

// Stores into segment 0, which it doesn't hold: lui x9, 0x40000; sw x5, 0(x9).
pub(crate) const TRAP_IMAGE: &[u8] = &[
    0x53, 0x51, 0x49, 0x31, 0x40, 0x00, 0x00, 0x00, 0x08, 0x00, 0x00, 0x00, 0x00, 0x00, 0x00, 0x00,
    0xb7, 0x04, 0x00, 0x40, 0x23, 0xa0, 0x54, 0x00,
];

// The images of programs: a header of sixteen bytes, and the bytes from address 0 on.
static PROGRAMS: [File<'static>; 8] = [
    // Writes the byte 41 and exits.
    File {
        name: "hello.sqi",
        content: &[
            0x53, 0x51, 0x49, 0x31, 0x40, 0x00, 0x00, 0x00, 0x21, 0x00, 0x00, 0x00, 0x00, 0x00,
            0x00, 0x00, 0x13, 0x05, 0x00, 0x00, 0x93, 0x05, 0x00, 0x02, 0x13, 0x06, 0x10, 0x00,
            0x93, 0x08, 0x40, 0x00, 0x73, 0x00, 0x00, 0x00, 0x13, 0x05, 0x00, 0x00, 0x93, 0x08,
            0x00, 0x00, 0x73, 0x00, 0x00, 0x00, 0x41,
        ],
    },
    // Writes the bytes 41 42 and exits.
    File {
        name: "hello2.sqi",
        content: &[
            0x53, 0x51, 0x49, 0x31, 0x40, 0x00, 0x00, 0x00, 0x22, 0x00, 0x00, 0x00, 0x00, 0x00,
            0x00, 0x00, 0x13, 0x05, 0x00, 0x00, 0x93, 0x05, 0x00, 0x02, 0x13, 0x06, 0x20, 0x00,
            0x93, 0x08, 0x40, 0x00, 0x73, 0x00, 0x00, 0x00, 0x13, 0x05, 0x00, 0x00, 0x93, 0x08,
            0x00, 0x00, 0x73, 0x00, 0x00, 0x00, 0x41, 0x42,
        ],
    },
    File {
        name: "hello3.sqi",
        content: HELLO3_IMAGE,
    },
    // Adds 1 to the number in segment 0 a hundred times, each time under its lock. Process 0 then looks at it until it is 200,
    // and writes it as a byte.
    File {
        name: "count.sqi",
        content: &[
            0x53, 0x51, 0x49, 0x31, 0x00, 0x02, 0x00, 0x00, 0x88, 0x00, 0x00, 0x00, 0x00, 0x00,
            0x00, 0x00, 0x13, 0x04, 0x40, 0x06, 0xb7, 0x04, 0x00, 0x40, 0x13, 0x05, 0x00, 0x00,
            0x93, 0x08, 0x10, 0x00, 0x73, 0x00, 0x00, 0x00, 0x83, 0xa2, 0x04, 0x00, 0x93, 0x82,
            0x12, 0x00, 0x23, 0xa0, 0x54, 0x00, 0x13, 0x05, 0x00, 0x00, 0x93, 0x08, 0x20, 0x00,
            0x73, 0x00, 0x00, 0x00, 0x13, 0x04, 0xf4, 0xff, 0xe3, 0x1c, 0x04, 0xfc, 0x93, 0x08,
            0x50, 0x00, 0x73, 0x00, 0x00, 0x00, 0x63, 0x10, 0x05, 0x04, 0x13, 0x03, 0x80, 0x0c,
            0x13, 0x05, 0x00, 0x00, 0x93, 0x08, 0x10, 0x00, 0x73, 0x00, 0x00, 0x00, 0x83, 0xa2,
            0x04, 0x00, 0x13, 0x05, 0x00, 0x00, 0x93, 0x08, 0x20, 0x00, 0x73, 0x00, 0x00, 0x00,
            0xe3, 0x92, 0x62, 0xfe, 0x23, 0x00, 0x50, 0x10, 0x13, 0x05, 0x00, 0x00, 0x93, 0x05,
            0x00, 0x10, 0x13, 0x06, 0x10, 0x00, 0x93, 0x08, 0x40, 0x00, 0x73, 0x00, 0x00, 0x00,
            0x13, 0x05, 0x00, 0x00, 0x93, 0x08, 0x00, 0x00, 0x73, 0x00, 0x00, 0x00,
        ],
    },
    File {
        name: "spread.sqi",
        content: SPREAD_IMAGE,
    },
    // Writes each byte that it reads: eleven steps a byte, and seven after the last.
    File {
        name: "echo.sqi",
        content: &[
            0x53, 0x51, 0x49, 0x31, 0x00, 0x02, 0x00, 0x00, 0x38, 0x00, 0x00, 0x00, 0x00, 0x00,
            0x00, 0x00, 0x13, 0x05, 0x00, 0x00, 0x93, 0x08, 0x30, 0x00, 0x73, 0x00, 0x00, 0x00,
            0x63, 0x40, 0x05, 0x02, 0x23, 0x00, 0xa0, 0x10, 0x13, 0x05, 0x00, 0x00, 0x93, 0x05,
            0x00, 0x10, 0x13, 0x06, 0x10, 0x00, 0x93, 0x08, 0x40, 0x00, 0x73, 0x00, 0x00, 0x00,
            0x6f, 0xf0, 0x9f, 0xfd, 0x13, 0x05, 0x00, 0x00, 0x93, 0x08, 0x00, 0x00, 0x73, 0x00,
            0x00, 0x00,
        ],
    },
    File {
        name: "loop.sqi",
        content: LOOP_IMAGE,
    },
    File {
        name: "trap.sqi",
        content: TRAP_IMAGE,
    },
];

pub(crate) const HELLO: &str =
    "sequoia 1\nprocessors 1\nmemories 2\nios 1\ncache 16\nquantum 1000\njournal 32\nprocess hello.sqi lines 0 segments -\n";

const HELLO3: &str =
    "sequoia 1\nprocessors 1\nmemories 2\nios 1\ncache 16\nquantum 1000\njournal 32\nprocess hello3.sqi lines 0 segments -\n";

const SPREAD: &str =
    "sequoia 1\nprocessors 1\nmemories 2\nios 1\ncache 16\nquantum 1000\njournal 32\nprocess spread.sqi lines 0 segments -\n";

const ECHO: &str =
    "sequoia 1\nprocessors 1\nmemories 2\nios 1\ncache 16\nquantum 1000\njournal 32\nprocess echo.sqi lines 0 segments -\n";

const LOOP: &str =
    "sequoia 1\nprocessors 1\nmemories 2\nios 1\ncache 16\nquantum 1000\njournal 32\nprocess loop.sqi lines 0 segments -\n";

const TRAPPED: &str =
    "sequoia 1\nprocessors 1\nmemories 2\nios 1\ncache 16\nquantum 1000\njournal 32\nprocess trap.sqi lines 0 segments -\n";

// Two processors and two I/O elements, and one process.
pub(crate) const PAIR: &str =
    "sequoia 1\nprocessors 2\nmemories 2\nios 2\ncache 16\nquantum 1000\njournal 32\nprocess hello.sqi lines 0 segments -\n";

// The same with a process that writes two bytes.
const PAIR2: &str =
    "sequoia 1\nprocessors 2\nmemories 2\nios 2\ncache 16\nquantum 1000\njournal 32\nprocess hello2.sqi lines 0 segments -\n";

// Two processes that add under one lock, on two processors.
const TWO: &str =
    "sequoia 1\nprocessors 2\nmemories 2\nios 2\ncache 16\nquantum 1000\njournal 32\nsegment 32\nprocess count.sqi lines 0 segments 0\nprocess count.sqi lines - segments 0\n";

// A machine, a schedule and what fails; how the run ends, the bytes of line 0, and the history: process and steps of each entry.
struct Run {
    machine: &'static str,
    schedule: &'static str,
    failing: Failing,
    status: Status,
    bytes: &'static [u8],
    history: &'static [(u8, u32)],
}

static RUNS: [Run; 36] = [
    Run {
        machine: HELLO,
        schedule: "finish 10000\n",
        failing: NONE,
        status: Status::Done,
        bytes: &[0x41],
        history: &[(0, 8)],
    },
    Run {
        machine: HELLO,
        schedule: "",
        failing: NONE,
        status: Status::Done,
        bytes: &[],
        history: &[],
    },
    // The commit is the processor's turn 22.
    Run {
        machine: HELLO,
        schedule: "turns p0 21\n",
        failing: NONE,
        status: Status::Done,
        bytes: &[],
        history: &[],
    },
    Run {
        machine: HELLO,
        schedule: "turns p0 22\n",
        failing: NONE,
        status: Status::Done,
        bytes: &[],
        history: &[(0, 8)],
    },
    // Nothing is sent before the flush has written Run to the primary of the status word.
    Run {
        machine: HELLO,
        schedule: "turns p0 32\nturns i0 5\n",
        failing: NONE,
        status: Status::Done,
        bytes: &[],
        history: &[(0, 8)],
    },
    Run {
        machine: HELLO,
        schedule: "turns p0 33\nturn i0\n",
        failing: NONE,
        status: Status::Done,
        bytes: &[0x41],
        history: &[(0, 8)],
    },
    // Comments, blank lines and rounds.
    Run {
        machine: HELLO,
        schedule: "# all of it\r\n\n  round\t36",
        failing: NONE,
        status: Status::Done,
        bytes: &[0x41],
        history: &[(0, 8)],
    },
    // Two rounds are too few, and the rest of the schedule isn't run.
    Run {
        machine: HELLO,
        schedule: "finish 2\nfinish 10000\n",
        failing: NONE,
        status: Status::OutOfTurns { line: 1 },
        bytes: &[],
        history: &[],
    },
    Run {
        machine: TRAPPED,
        schedule: "finish 1000\n",
        failing: NONE,
        status: Status::Done,
        bytes: &[],
        history: &[(0, 2)],
    },
    // The cache has 16 blocks, and the program changes 17.
    Run {
        machine: SPREAD,
        schedule: "finish 10000\n",
        failing: NONE,
        status: Status::Done,
        bytes: &[],
        history: &[(0, 50), (0, 6)],
    },
    Run {
        machine: LOOP,
        schedule: "finish 3\n",
        failing: NONE,
        status: Status::OutOfTurns { line: 1 },
        bytes: &[],
        history: &[],
    },
    Run {
        machine: ECHO,
        schedule: "input 0 4142\nclose 0\nfinish 10000\n",
        failing: NONE,
        status: Status::Done,
        bytes: &[0x41, 0x42],
        history: &[(0, 29)],
    },
    // Without the end of its input the program waits, which is settled too.
    Run {
        machine: ECHO,
        schedule: "input 0 41\nfinish 10000\ninput 0 42\nfinish 10000\n",
        failing: NONE,
        status: Status::Done,
        bytes: &[0x41, 0x42],
        history: &[(0, 13), (0, 11)],
    },
    Run {
        machine: HELLO3,
        schedule: "finish 10000\n",
        failing: Failing {
            loads: &[],
            appends: &[],
            sends: &[2],
        },
        status: Status::LineFault { line: LineNo(0) },
        bytes: &[0x41, 0x42],
        history: &[(0, 8)],
    },
    Run {
        machine: HELLO,
        schedule: "finish 10000\n",
        failing: Failing {
            loads: &[],
            appends: &[0],
            sends: &[],
        },
        status: Status::ChronicleFault,
        bytes: &[],
        history: &[],
    },
    Run {
        machine: SPREAD,
        schedule: "finish 10000\n",
        failing: Failing {
            loads: &[],
            appends: &[1],
            sends: &[],
        },
        status: Status::ChronicleFault,
        bytes: &[],
        history: &[(0, 50)],
    },
    // All of the first pass is written, but the commit isn't made: the steps are rolled back, and made again.
    Run {
        machine: PAIR,
        schedule: "turns p0 21\nfail p0\nfinish 10000\n",
        failing: NONE,
        status: Status::Done,
        bytes: &[0x41],
        history: &[(0, 8)],
    },
    // The commit is made: the flush is rolled forward, and nothing is made again.
    Run {
        machine: PAIR,
        schedule: "turns p0 22\nfail p0\nfinish 10000\n",
        failing: NONE,
        status: Status::Done,
        bytes: &[0x41],
        history: &[(0, 8)],
    },
    // The processor that recovers stops too, after copying three blocks, and the first one recovers, which is repaired.
    Run {
        machine: PAIR,
        schedule: "turns p0 21\nfail p0\nturns p1 5\nfail p1\nrepair p0\nfinish 10000\n",
        failing: NONE,
        status: Status::Done,
        bytes: &[0x41],
        history: &[(0, 8)],
    },
    // A recovery takes 23 turns: two claim, 18 copy a block each, one finds no lock word, and two set the status word to Idle.
    // Nothing is sent before the last.
    Run {
        machine: PAIR,
        schedule: "turns p0 22\nfail p0\nturns p1 22\nturns i0 5\n",
        failing: NONE,
        status: Status::Done,
        bytes: &[],
        history: &[(0, 8)],
    },
    Run {
        machine: PAIR,
        schedule: "turns p0 22\nfail p0\nturns p1 23\nturn i0\n",
        failing: NONE,
        status: Status::Done,
        bytes: &[0x41],
        history: &[(0, 8)],
    },
    // What was committed waits for a processor.
    Run {
        machine: PAIR,
        schedule: "turns p0 22\nfail p0\nfail p1\nfinish 100\nrepair p1\nfinish 10000\n",
        failing: NONE,
        status: Status::OutOfTurns { line: 4 },
        bytes: &[],
        history: &[(0, 8)],
    },
    // A program that has ended needs none.
    Run {
        machine: PAIR,
        schedule: "turns p0 36\nfail p0\nfail p1\nfinish 100\n",
        failing: NONE,
        status: Status::Done,
        bytes: &[0x41],
        history: &[(0, 8)],
    },
    // A processor that is repaired recovers what it left itself.
    Run {
        machine: HELLO,
        schedule: "turns p0 22\nfail p0\nrepair p0\nfinish 10000\n",
        failing: NONE,
        status: Status::Done,
        bytes: &[0x41],
        history: &[(0, 8)],
    },
    // The chronicle refuses the commit of the steps that are made again.
    Run {
        machine: PAIR,
        schedule: "turns p0 21\nfail p0\nfinish 10000\n",
        failing: Failing {
            loads: &[],
            appends: &[0],
            sends: &[],
        },
        status: Status::ChronicleFault,
        bytes: &[],
        history: &[],
    },
    // A memory fails amid the flush, which is finished on the other one, and is repaired and copied. Then the other one fails, and the
    // byte is sent from the copy.
    Run {
        machine: HELLO,
        schedule: "turns p0 15\nfail m0\nturns p0 21\nrepair m0\nturns i0 720\nturns p0 720\nfail m1\nfinish 100\n",
        failing: NONE,
        status: Status::Done,
        bytes: &[0x41],
        history: &[(0, 8)],
    },
    // Without the turns that copy it, the failure of the other one is a machine check.
    Run {
        machine: HELLO,
        schedule: "turns p0 15\nfail m0\nturns p0 21\nrepair m0\nfail m1\n",
        failing: NONE,
        status: Status::MachineCheck {
            line: 5,
            stopped: Element::Memory(Me(1)),
            cause: Blocker::Memory(Me(0)),
        },
        bytes: &[],
        history: &[(0, 8)],
    },
    Run {
        machine: HELLO,
        schedule: "turns p0 15\nfail m0\nfail p0\n",
        failing: NONE,
        status: Status::MachineCheck {
            line: 3,
            stopped: Element::Processor(Pe(0)),
            cause: Blocker::Memory(Me(0)),
        },
        bytes: &[],
        history: &[],
    },
    // A process awaits recovery.
    Run {
        machine: HELLO,
        schedule: "turns p0 15\nfail p0\nfail m0\n",
        failing: NONE,
        status: Status::MachineCheck {
            line: 3,
            stopped: Element::Memory(Me(0)),
            cause: Blocker::Process(Pid(0)),
        },
        bytes: &[],
        history: &[],
    },
    // The claim of processor 1 passes over the memory that failed. Its second turn takes the word that processor 0 has released,
    // finds that the process has ended, and releases the word again.
    Run {
        machine: PAIR,
        schedule: "fail m0\nturn p1\nturns p0 36\nturns p1 3\nfinish 10000\n",
        failing: NONE,
        status: Status::Done,
        bytes: &[0x41],
        history: &[(0, 8)],
    },
    // The second byte is sent by the other I/O element.
    Run {
        machine: PAIR2,
        schedule: "turns p0 36\nturn i0\nfail i0\nturn i1\n",
        failing: NONE,
        status: Status::Done,
        bytes: &[0x41, 0x42],
        history: &[(0, 8)],
    },
    // A register that is never read is struck: the processor stops when its flush compares the halves, and the other one recovers.
    Run {
        machine: PAIR,
        schedule: "turns p0 3\nupset p0 b 31 0x1\nfinish 10000\n",
        failing: NONE,
        status: Status::Done,
        bytes: &[0x41],
        history: &[(0, 8)],
    },
    // The other half may be struck only behind a failure and a repair.
    Run {
        machine: PAIR,
        schedule: "upset p0 a 5 0x1\nupset p0 b 6 0x1\n",
        failing: NONE,
        status: Status::Refused {
            file: 2,
            place: 2,
            rule: 35,
        },
        bytes: &[],
        history: &[],
    },
    Run {
        machine: PAIR,
        schedule: "upset p0 a 5 0x1\nfail p0\nrepair p0\nupset p0 b 6 0x1\n",
        failing: NONE,
        status: Status::Done,
        bytes: &[],
        history: &[],
    },
    // What fails hasn't failed already.
    Run {
        machine: HELLO,
        schedule: "fail p0\nturn p0\nfail p0\n",
        failing: NONE,
        status: Status::Refused {
            file: 2,
            place: 3,
            rule: 33,
        },
        bytes: &[],
        history: &[],
    },
    Run {
        machine: TWO,
        schedule: "turn p2\n",
        failing: NONE,
        status: Status::Refused {
            file: 3,
            place: 1,
            rule: 32,
        },
        bytes: &[],
        history: &[],
    },
];

// A shelf with a machine, a schedule and images of programs.
pub(crate) fn shelf_for(
    alloc: Global,
    machine: &str,
    schedule: &[u8],
    programs: &[File<'_>],
    loads: &[u8],
) -> Result<MemShelf, NoMemory> {
    let files = [
        File {
            name: "m.txt",
            content: machine.as_bytes(),
        },
        File {
            name: "s.txt",
            content: schedule,
        },
    ];
    let mut shelf = shelf_of(alloc, &files, loads)?;
    put_files(&mut shelf, programs)?;
    Ok(shelf)
}

// Runs a schedule on a machine.
fn run_on(alloc: Global, machine: &str, schedule: &[u8], failing: &Failing) -> Result<Left, Fail> {
    let mut shelf = shelf_for(alloc, machine, schedule, &PROGRAMS, failing.loads)?;
    let mut sink = SoundSink::new(alloc);
    give(
        alloc,
        &["run", "m.txt", "s.txt"],
        &mut shelf,
        failing,
        &mut sink,
    )
}

// Whether the entries are these.
fn are_entries(found: &[Entry], wanted: &[(u8, u32)]) -> bool {
    found.len() == wanted.len()
        && found.iter().zip(wanted.iter()).all(|(entry, (pid, count))| entry.pid == Pid(*pid)
            && entry.count == *count)
}

// Whether a run ended so, with these bytes on line 0 and none on line 1, and this history.
fn is_left(left: &Left, status: Status, bytes: &[u8], history: &[(u8, u32)]) -> bool {
    left.status == status
        && are_entries(left.chronicle.pairs(), history)
        && left.first.has(bytes)
        && left.second.has(&[])
}

// Runs a row: whether it comes out as wanted.
fn comes_out(alloc: Global, row: &Run) -> Result<bool, Fail> {
    let left = run_on(alloc, row.machine, row.schedule.as_bytes(), &row.failing)?;
    Ok(is_left(&left, row.status, row.bytes, row.history))
}

fn all_come_out(rt: &impl Abort, alloc: Global, rows: &[Run]) -> Result<(), Fail> {
    for (number, row) in rows.iter().enumerate() {
        assert!(rt; comes_out(alloc, row)?, "{}", number);
    }
    Ok(())
}

#[test]
fn runs(rt: HostRuntime) -> Result<(), Fail> {
    all_come_out(&rt, rt.alloc(), &RUNS)
}

// The same on four processors, and on eight.
const FOUR: &str =
    "sequoia 1\nprocessors 4\nmemories 3\nios 2\ncache 16\nquantum 100\njournal 32\nsegment 32\nprocess count.sqi lines 0 segments 0\nprocess count.sqi lines - segments 0\n";

const EIGHT: &str =
    "sequoia 1\nprocessors 8\nmemories 8\nios 1\ncache 16\nquantum 7\njournal 32\nsegment 32\nprocess count.sqi lines 0 segments 0\nprocess count.sqi lines - segments 0\n";

fn append_turn(text: &mut Vec<u8>, processor: u8) -> Result<(), AllocError>
    requires { processor < 8 }
{
    text.extend_from_slice(b"turn p")?;
    text.push(b'0' + processor)?;
    text.push(b'\n')?;
    Ok(())
}

// Turns of processors in an order that is drawn from a number, and then the rest of the run.
fn drawn_schedule(alloc: Global, number: u64, processors: u8) -> Result<Vec<u8>, AllocError> {
    let mut generator = Pcg32::new(number, 0);
    let mut text = Vec::new(alloc);
    for _ in 0..20_000 {
        let drawn = (generator.next_u32() % 8) as u8;
        if drawn < processors {
            append_turn(&mut text, drawn)?;
        }
    }
    append_times(&mut text, 1, "finish 1000000\n")?;
    Ok(text)
}

// The number of processors on which an order is tried, with the machine.
fn counting_machine(number: u64) -> (u8, &'static str) {
    match number % 3 {
        0 => (2, TWO),
        1 => (4, FOUR),
        _ => (8, EIGHT),
    }
}

// Whether both processes have added a hundred times, so that line 0 gets 200.
fn has_counted(left: &Left) -> bool {
    left.status == Status::Done && left.first.has(&[200]) && left.chronicle.pairs().len() > 200
}

// Runs a schedule: whether both processes count so.
fn counts(alloc: Global, machine: &str, schedule: &[u8]) -> Result<bool, Fail> {
    let left = run_on(alloc, machine, schedule, &NONE)?;
    Ok(has_counted(&left))
}

// The same in an order that is drawn from a number.
fn counts_in_order(alloc: Global, number: u64) -> Result<bool, Fail> {
    let (processors, machine) = counting_machine(number);
    let schedule = drawn_schedule(alloc, number, processors)?;
    counts(alloc, machine, schedule.as_slice())
}

// Sixty orders, twenty on each of the three machines.
#[test]
fn counts_in_any_order(rt: HostRuntime) -> Result<(), Fail> {
    let alloc = rt.alloc();
    for number in 0u64..60 {
        assert!(rt; counts_in_order(alloc, number)?, "{}", number);
    }
    Ok(())
}

// What follows some turns of processor 0, which runs the program: a processor fails, and perhaps another one, or the same, three
// turns later; they are repaired or not; and then the rest of the run.
static FAILURES: [&str; 7] = [
    "fail p0\nfinish 10000\n",
    "fail p1\nfinish 10000\n",
    "fail p0\nrepair p0\nfinish 10000\n",
    "fail p0\nturns p1 3\nfail p1\nrepair p0\nfinish 10000\n",
    "fail p1\nturns p0 3\nfail p0\nrepair p1\nfinish 10000\n",
    "fail p0\nrepair p0\nturns p0 3\nfail p0\nfinish 10000\n",
    "fail p1\nturns p0 3\nfail p0\nrepair p1\nrepair p0\nfinish 10000\n",
];

// Runs a schedule on two processors: whether the byte is sent, and the steps are committed once.
pub(crate) fn comes_through(alloc: Global, schedule: &[u8]) -> Result<bool, Fail> {
    let left = run_on(alloc, PAIR, schedule, &NONE)?;
    Ok(is_left(&left, Status::Done, &[0x41], &[(0, 8)]))
}

// Runs one of the failures after so many turns.
fn recovers(alloc: Global, number: u64) -> Result<bool, Fail> {
    let failures = FAILURES[(number % 7) as usize];
    let schedule = turns_and(alloc, number / 7, failures)?;
    comes_through(alloc, schedule.as_slice())
}

// Alone a processor takes 36 turns: each of the failures after each of them, and before the first.
#[test]
fn recovers_at_every_turn(rt: HostRuntime) -> Result<(), Fail> {
    let alloc = rt.alloc();
    for number in 0u64..259 {
        assert!(rt; recovers(alloc, number)?, "{}", number);
    }
    Ok(())
}

// Each processor fails once, and is repaired behind twelve rounds.
const TWO_FAILURES: &str =
    "fail p0\nround 12\nrepair p0\nround 13\nfail p1\nround 12\nrepair p1\nround 13\n";

// Some rounds, then a failure of a processor at every hundredth turn, of either in turn, and then the rest of the run.
fn failing_rounds(alloc: Global, rounds: u64) -> Result<Vec<u8>, AllocError> {
    let mut text = Vec::new(alloc);
    append_times(&mut text, rounds, "round 1\n")?;
    append_times(&mut text, 100, TWO_FAILURES)?;
    append_times(&mut text, 1, "finish 1000000\n")?;
    Ok(text)
}

// Runs that on two processors, a round being four turns: whether line 0 gets 200.
fn counts_through_failures(alloc: Global, rounds: u64) -> Result<bool, Fail> {
    let schedule = failing_rounds(alloc, rounds)?;
    counts(alloc, TWO, schedule.as_slice())
}

#[test]
fn counts_while_processors_fail(rt: HostRuntime) -> Result<(), Fail> {
    let alloc = rt.alloc();
    for rounds in 0u64..25 {
        assert!(rt; counts_through_failures(alloc, rounds)?, "{}", rounds);
    }
    Ok(())
}
