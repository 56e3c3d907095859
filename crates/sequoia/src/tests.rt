// Whole commands, with the outside in memory.
ghost use Rattle.std.specs.Prelude.{◌≡◌, ◌<◌, length, IfOk};
ghost use Rattle.seq_shelf.specs.Outlets.{views, marks};
ghost use Rattle.seq_shelf.specs.Rows.{AreFresh};

use super::*;
use seq_shelf::{Line, MemChronicle, MemLine, MemShelf, Outlet, Sink, SoundSink, accepted};
use seq_words::{Bytes, Entry, LineNo, NoMemory, Pid};
use std::env::FillError;
use std::fs;
use std::process::Abort;
use std::test::Fail;

const MACHINE: &str =
    "sequoia 1\nprocessors 1\nmemories 2\nios 1\ncache 16\nquantum 1000\njournal 32\nprocess hello.sqi lines 0 segments -\n";

// Private size 64, 33 bytes, entry 0: addi x10, x0, 0; addi x11, x0, 32; addi x12, x0, 1; addi x17, x0, 4; ecall;
// addi x10, x0, 0; addi x17, x0, 0; ecall; and the byte 41.
pub(crate) const HELLO: [u8; 49] = [
    0x53, 0x51, 0x49, 0x31, 0x40, 0, 0, 0, 0x21, 0, 0, 0, 0, 0, 0, 0, 0x13, 0x05, 0, 0, 0x93, 0x05,
    0, 0x02, 0x13, 0x06, 0x10, 0, 0x93, 0x08, 0x40, 0, 0x73, 0, 0, 0, 0x13, 0x05, 0, 0, 0x93, 0x08,
    0, 0, 0x73, 0, 0, 0, 0x41,
];

// The numbers of the calls that are to fail.
pub(crate) struct Failing {
    pub(crate) loads: &'static [u8],
    pub(crate) appends: &'static [u8],
    pub(crate) sends: &'static [u8],
}

pub(crate) const NONE: Failing = Failing {
    loads: &[],
    appends: &[],
    sends: &[],
};

// A machine, a schedule, what fails, and how the run ends: the status, the bytes of line 0, the entries of the history.
struct Row {
    machine: &'static str,
    schedule: &'static str,
    failing: Failing,
    status: Status,
    bytes: &'static [u8],
    entries: &'static [Entry],
}

// More of each element, a segment, and a line that nothing is written on.
const LARGER: &str =
    "sequoia 1\nprocessors 3\nmemories 3\nios 2\ncache 16\nquantum 1000\njournal 32\nsegment 64\nprocess hello.sqi lines 0,1 segments 0\n";

// All steps of the process, which are committed together.
const ALL_STEPS: &[Entry] = &[Entry {
    pid: Pid(0),
    count: 8,
}];

static ROWS: [Row; 16] = [
    Row {
        machine: LARGER,
        schedule: "finish 1000\n",
        failing: NONE,
        status: Status::Done,
        bytes: &[0x41],
        entries: ALL_STEPS,
    },
    Row {
        machine: MACHINE,
        schedule: "finish 1000\n",
        failing: NONE,
        status: Status::Done,
        bytes: &[0x41],
        entries: ALL_STEPS,
    },
    // With all its turns the processor commits the steps, and no I/O element sends.
    Row {
        machine: MACHINE,
        schedule: "turns p0 1000\n",
        failing: NONE,
        status: Status::Done,
        bytes: &[],
        entries: ALL_STEPS,
    },
    Row {
        machine: MACHINE,
        schedule: "turns p0 8\nturn i0\n",
        failing: NONE,
        status: Status::Done,
        bytes: &[],
        entries: &[],
    },
    Row {
        machine: MACHINE,
        schedule: "",
        failing: NONE,
        status: Status::Done,
        bytes: &[],
        entries: &[],
    },
    Row {
        machine: MACHINE,
        schedule: "turn p0\n\nfinish 1\nfinish 1000\n",
        failing: NONE,
        status: Status::OutOfTurns { line: 3 },
        bytes: &[],
        entries: &[],
    },
    Row {
        machine: MACHINE,
        schedule: "finish 1000\n",
        failing: Failing {
            loads: &[],
            appends: &[],
            sends: &[0],
        },
        status: Status::LineFault { line: LineNo(0) },
        bytes: &[],
        entries: ALL_STEPS,
    },
    Row {
        machine: MACHINE,
        schedule: "finish 1000\n",
        failing: Failing {
            loads: &[],
            appends: &[0],
            sends: &[],
        },
        status: Status::ChronicleFault,
        bytes: &[],
        entries: &[],
    },
    Row {
        machine: MACHINE,
        schedule: "finish 1000\n",
        failing: Failing {
            loads: &[0],
            appends: &[],
            sends: &[],
        },
        status: Status::ShelfFault,
        bytes: &[],
        entries: &[],
    },
    Row {
        machine: MACHINE,
        schedule: "finish 1000\n",
        failing: Failing {
            loads: &[1],
            appends: &[],
            sends: &[],
        },
        status: Status::ShelfFault,
        bytes: &[],
        entries: &[],
    },
    Row {
        machine: MACHINE,
        schedule: "finish 1000\n",
        failing: Failing {
            loads: &[2],
            appends: &[],
            sends: &[],
        },
        status: Status::ShelfFault,
        bytes: &[],
        entries: &[],
    },
    Row {
        machine: MACHINE,
        schedule: "# all rounds\r\n\n  round\t1000",
        failing: NONE,
        status: Status::Done,
        bytes: &[0x41],
        entries: ALL_STEPS,
    },
    Row {
        machine: MACHINE,
        schedule: "turn p0\nturn p1\n",
        failing: NONE,
        status: Status::Refused {
            file: 2,
            place: 2,
            rule: 32,
        },
        bytes: &[],
        entries: &[],
    },
    Row {
        machine: MACHINE,
        schedule: "turn p0\nturns p0 0\n",
        failing: NONE,
        status: Status::Refused {
            file: 2,
            place: 2,
            rule: 31,
        },
        bytes: &[],
        entries: &[],
    },
    Row {
        machine: MACHINE,
        schedule: "input 0 41\nclose 0\nfinish 1000\n",
        failing: NONE,
        status: Status::Done,
        bytes: &[0x41],
        entries: ALL_STEPS,
    },
    // Hangups aren't made yet.
    Row {
        machine: MACHINE,
        schedule: "turn p0\nfail p0\nhangup 0\n",
        failing: NONE,
        status: Status::Refused {
            file: 2,
            place: 3,
            rule: 0,
        },
        bytes: &[],
        entries: &[],
    },
];

fn words_of(alloc: Global, words: &[&str]) -> Result<Vec<String>, AllocError> {
    let mut all = Vec::new(alloc);
    for word in words {
        all.push(String::from_str(alloc, word)?)?;
    }
    Ok(all)
}

// A line that fails at those calls of `send`.
fn failing_line(alloc: Global, sends: &[u8]) -> Result<MemLine, NoMemory>
    ensures fresh { IfOk result (λ line. (⟦<MemLine as Line>⟧.line line).count ≡ 0) }
{
    let failing = Bytes::copy_of(alloc, sends)?;
    Ok(MemLine::new(alloc, failing))
}

// What a line has accepted: how many bytes, and which.
#[derive(Drop)]
pub(crate) struct Heard {
    pub(crate) accepted: u64,
    bytes: Bytes,
}

impl Heard {
    // Whether it has accepted these bytes and no more.
    pub(crate) fn has(&self, wanted: &[u8]) -> bool {
        self.accepted == wanted.len() as u64 && self.bytes.as_slice() == wanted
    }
}

// The accepted byte with that index, where one of the lines has it.
fn byte_at(lines: &[Outlet], at: usize, index: u64) -> Option<u8> {
    match lines.get(at) {
        Some(outlet) => outlet.line.byte_at(index),
        None => None,
    }
}

// What one of the lines has accepted. It is also asked for the byte behind the last one, and should have none there.
fn hear(alloc: Global, lines: &[Outlet], at: usize) -> Result<Option<Heard>, NoMemory> {
    if at >= lines.len() {
        return Ok(None);
    }
    let count = accepted(lines, at);
    let mut bytes = Bytes::new(alloc);
    for index in 0..count.saturating_add(1) {
        if let Some(byte) = byte_at(lines, at, index) {
            bytes.push(byte)?;
        }
    }
    Ok(Some(Heard {
        accepted: count,
        bytes,
    }))
}

// What a command leaves: how it ended, the history, the number of lines, and what the first two of them have accepted.
#[derive(Drop)]
pub(crate) struct Left {
    pub(crate) status: Status,
    pub(crate) chronicle: MemChronicle,
    lines: usize,
    pub(crate) first: Heard,
    pub(crate) second: Heard,
}

// Looks at the lines, behind a command.
fn leave(
    alloc: Global,
    status: Status,
    chronicle: MemChronicle,
    lines: &[Outlet],
) -> Result<Left, Fail> {
    let first = hear(alloc, lines, 0)?.ok_or("there is no line 0")?;
    let second = hear(alloc, lines, 1)?.ok_or("there is no line 1")?;
    Ok(Left {
        status,
        chronicle,
        lines: lines.len(),
        first,
        second,
    })
}

// Gives a command on these lines: how it ends, and the history.
fn give_on<K: Sink>(
    alloc: Global,
    words: &[&str],
    shelf: &mut MemShelf,
    lines: &mut Vec<Outlet>,
    appends: &[u8],
    sink: &mut K,
) -> Result<(Status, MemChronicle), Fail>
    requires sixteen { length lines.old.items ≡ 16 }
    requires fresh { AreFresh (views line lines.old.items) (marks lines.old.items) }
{
    let words = words_of(alloc, words)?;
    let mut chronicle = MemChronicle::new(alloc, Bytes::copy_of(alloc, appends)?);
    let status = sequoia(alloc, &words, shelf, lines, &mut chronicle, sink);
    Ok((status, chronicle))
}

// Gives a command on sixteen lines in memory.
pub(crate) fn give<K: Sink>(
    alloc: Global,
    words: &[&str],
    shelf: &mut MemShelf,
    failing: &Failing,
    sink: &mut K,
) -> Result<Left, Fail> {
    let mut lines = Vec::new(alloc);
    for n in 0u8..16 {
        let line = failing_line(alloc, failing.sends)?;
        add_line(&mut lines, Box::new(alloc, line)?)?;
    }
    let (status, chronicle) = give_on(alloc, words, shelf, &mut lines, failing.appends, sink)?;
    leave(alloc, status, chronicle, &lines)
}

// Whether these entries were appended.
fn are(found: &[Entry], wanted: &[Entry]) -> bool {
    found == wanted
}

// A file: its name and its content.
#[derive(Clone, Copy)]
pub(crate) struct File<'a> {
    pub(crate) name: &'a str,
    pub(crate) content: &'a [u8],
}

pub(crate) fn put_files(shelf: &mut MemShelf, files: &[File<'_>]) -> Result<(), NoMemory> {
    for file in files {
        shelf.put(file.name, file.content)?;
    }
    Ok(())
}

// A shelf of these files that fails at those calls.
pub(crate) fn shelf_of(
    alloc: Global,
    files: &[File<'_>],
    loads: &[u8],
) -> Result<MemShelf, NoMemory> {
    let mut shelf = MemShelf::new(alloc, Bytes::copy_of(alloc, loads)?);
    put_files(&mut shelf, files)?;
    Ok(shelf)
}

// A description, an image and a schedule, as the files that the commands name.
fn files_of<'a>(machine: &'a str, image: &'a [u8], schedule: &'a str) -> [File<'a>; 3] {
    [
        File {
            name: "a1.txt",
            content: machine.as_bytes(),
        },
        File {
            name: "hello.sqi",
            content: image,
        },
        File {
            name: "s.txt",
            content: schedule.as_bytes(),
        },
    ]
}

// Gives a command over files in memory.
fn run(alloc: Global, words: &[&str], files: &[File<'_>], failing: &Failing) -> Result<Left, Fail> {
    let mut shelf = shelf_of(alloc, files, failing.loads)?;
    let mut sink = SoundSink::new(alloc);
    give(alloc, words, &mut shelf, failing, &mut sink)
}

const RUN: &[&str] = &["run", "a1.txt", "s.txt"];

fn run_row(alloc: Global, row: &Row) -> Result<Left, Fail> {
    let files = files_of(row.machine, &HELLO, row.schedule);
    run(alloc, RUN, &files, &row.failing)
}

// Whether it ended so, with these bytes on line 0 and these entries.
fn ends_so(left: &Left, row: &Row) -> bool {
    left.status == row.status
        && are(left.chronicle.pairs(), row.entries)
        && left.lines == 16
        && left.first.has(row.bytes)
}

fn all_end_so(rt: &impl Abort, alloc: Global, rows: &[Row]) -> Result<(), Fail> {
    for row in rows {
        let left = run_row(alloc, row)?;
        assert!(rt; ends_so(&left, row), "{}", row.schedule);
    }
    Ok(())
}

#[test]
fn rows(rt: HostRuntime) -> Result<(), Fail> {
    all_end_so(&rt, rt.alloc(), &ROWS)
}

// An image whose private size is 65,568.
const LONG_IMAGE: [u8; 17] = [
    0x53, 0x51, 0x49, 0x31, 0x20, 0, 1, 0, 0, 0, 0, 0, 0, 0, 0, 0, 0,
];

// A command that is answered before any run: the words, the description, the image, what fails, and the status.
struct Early {
    words: &'static [&'static str],
    machine: &'static str,
    image: &'static [u8],
    failing: Failing,
    status: Status,
}

static OPENINGS: [Early; 18] = [
    Early {
        words: &[],
        machine: MACHINE,
        image: &HELLO,
        failing: NONE,
        status: Status::Usage,
    },
    Early {
        words: &["run", "a1.txt"],
        machine: MACHINE,
        image: &HELLO,
        failing: NONE,
        status: Status::Usage,
    },
    Early {
        words: &["run", "-a1.txt", "s.txt"],
        machine: MACHINE,
        image: &HELLO,
        failing: NONE,
        status: Status::Usage,
    },
    Early {
        words: &["run", "", "s.txt"],
        machine: MACHINE,
        image: &HELLO,
        failing: NONE,
        status: Status::Usage,
    },
    Early {
        words: &["walk", "a1.txt", "s.txt"],
        machine: MACHINE,
        image: &HELLO,
        failing: NONE,
        status: Status::Usage,
    },
    Early {
        words: &["run", "a2.txt", "s.txt"],
        machine: MACHINE,
        image: &HELLO,
        failing: NONE,
        status: Status::Absent { file: 0 },
    },
    Early {
        words: &["run", "a1.txt", "s2.txt"],
        machine: MACHINE,
        image: &HELLO,
        failing: NONE,
        status: Status::Absent { file: 2 },
    },
    Early {
        words: RUN,
        machine: "# comment\nsequoia 1\nprocessors\t1\nmemories 2\nios 1\r\ncache 16\nquantum 1000\n\njournal 32\nprocess  none.sqi lines 0 segments -",
        image: &HELLO,
        failing: NONE,
        status: Status::Absent { file: 1 },
    },
    Early {
        words: RUN,
        machine: "sequoia 1\nprocessors 0\nmemories 2\n",
        image: &HELLO,
        failing: NONE,
        status: Status::Refused {
            file: 0,
            place: 2,
            rule: 12,
        },
    },
    Early {
        words: RUN,
        machine: MACHINE,
        image: b"SQI1",
        failing: NONE,
        status: Status::Refused {
            file: 1,
            place: 4,
            rule: 21,
        },
    },
    Early {
        words: RUN,
        machine: MACHINE,
        image: &LONG_IMAGE,
        failing: NONE,
        status: Status::Refused {
            file: 1,
            place: 4,
            rule: 22,
        },
    },
    // A load that fails is a fault of the shelf, also where its own file or a later one is faulty.
    Early {
        words: RUN,
        machine: "sequoia 1\nprocessors 0\nmemories 2\n",
        image: &HELLO,
        failing: Failing {
            loads: &[0],
            appends: &[],
            sends: &[],
        },
        status: Status::ShelfFault,
    },
    Early {
        words: RUN,
        machine: "sequoia 1\nprocessors 1\nmemories 2\nios 1\ncache 16\nquantum 1000\njournal 32\nprocess none.sqi lines 0 segments -\n",
        image: &HELLO,
        failing: Failing {
            loads: &[0],
            appends: &[],
            sends: &[],
        },
        status: Status::ShelfFault,
    },
    Early {
        words: RUN,
        machine: MACHINE,
        image: b"SQI1",
        failing: Failing {
            loads: &[1],
            appends: &[],
            sends: &[],
        },
        status: Status::ShelfFault,
    },
    Early {
        words: &["run", "a1.txt", "s2.txt"],
        machine: MACHINE,
        image: &HELLO,
        failing: Failing {
            loads: &[1],
            appends: &[],
            sends: &[],
        },
        status: Status::ShelfFault,
    },
    Early {
        words: &["run", "a1.txt", "s2.txt"],
        machine: MACHINE,
        image: &HELLO,
        failing: Failing {
            loads: &[2],
            appends: &[],
            sends: &[],
        },
        status: Status::ShelfFault,
    },
    // And it comes too late where an earlier file is faulty.
    Early {
        words: RUN,
        machine: "sequoia 1\nprocessors 0\nmemories 2\n",
        image: &HELLO,
        failing: Failing {
            loads: &[1, 2],
            appends: &[],
            sends: &[],
        },
        status: Status::Refused {
            file: 0,
            place: 2,
            rule: 12,
        },
    },
    Early {
        words: RUN,
        machine: MACHINE,
        image: b"SQI1",
        failing: Failing {
            loads: &[2],
            appends: &[],
            sends: &[],
        },
        status: Status::Refused {
            file: 1,
            place: 4,
            rule: 21,
        },
    },
];

fn run_early(alloc: Global, row: &Early) -> Result<Left, Fail> {
    let files = files_of(row.machine, row.image, "finish 1000\n");
    run(alloc, row.words, &files, &row.failing)
}

// Whether it is answered so, and nothing is sent or run.
fn is_answered(left: &Left, row: &Early) -> bool {
    left.status == row.status
        && left.chronicle.pairs().is_empty()
        && left.lines == 16
        && left.first.has(&[])
}

fn are_answered(rt: &impl Abort, alloc: Global, rows: &[Early]) -> Result<(), Fail> {
    for (number, row) in rows.iter().enumerate() {
        let left = run_early(alloc, row)?;
        assert!(rt; is_answered(&left, row), "{}", number);
    }
    Ok(())
}

#[test]
fn openings(rt: HostRuntime) -> Result<(), Fail> {
    are_answered(&rt, rt.alloc(), &OPENINGS)
}

// So many times these lines.
pub(crate) fn append_times(text: &mut Vec<u8>, times: u64, lines: &str) -> Result<(), AllocError> {
    for _ in 0..times {
        text.extend_from_slice(lines.as_bytes())?;
    }
    Ok(())
}

// A schedule of so many turns of processor 0, and what follows them.
pub(crate) fn turns_and(alloc: Global, turns: u64, then: &str) -> Result<Vec<u8>, AllocError> {
    let mut text = Vec::new(alloc);
    append_times(&mut text, turns, "turn p0\n")?;
    append_times(&mut text, 1, then)?;
    Ok(text)
}

// A command over files: the words, the turns of the processor, the exit status, and the bytes of line 0 in its file, where
// there is one.
struct OverFiles {
    words: &'static [&'static str],
    turns: u64,
    code: u8,
    bytes: Option<&'static str>,
}

// The long schedule has 2,400,012 bytes.
static COMMANDS: [OverFiles; 5] = [
    OverFiles {
        words: RUN,
        turns: 8,
        code: 0,
        bytes: Some("A"),
    },
    OverFiles {
        words: RUN,
        turns: 300_000,
        code: 0,
        bytes: Some("A"),
    },
    OverFiles {
        words: &["run", "a1.txt"],
        turns: 8,
        code: 2,
        bytes: None,
    },
    OverFiles {
        words: &["run", "none.txt", "s.txt"],
        turns: 8,
        code: 3,
        bytes: None,
    },
    OverFiles {
        words: &["run", "s.txt", "s.txt"],
        turns: 8,
        code: 3,
        bytes: None,
    },
];

// Gives a command over the files of the system, on these lines.
fn give_over_files(
    rt: &HostRuntime,
    words: &[&str],
    lines: &mut Vec<Outlet>,
) -> Result<Status, Fail>
    requires sixteen { length lines.old.items ≡ 16 }
    requires fresh { AreFresh (views line lines.old.items) (marks lines.old.items) }
{
    let alloc = rt.alloc();
    let words = words_of(alloc, words)?;
    let mut shelf = FileShelf::new(rt.clone()?, alloc);
    let mut sink = OutSink::new(Some(rt));
    let mut chronicle = SoundChronicle::new(alloc);
    Ok(sequoia(alloc, &words, &mut shelf, lines, &mut chronicle, &mut sink))
}

// The same on lines whose bytes go into files.
fn give_on_files(rt: &HostRuntime, words: &[&str]) -> Result<Status, Fail> {
    let alloc = rt.alloc();
    let mut lines = Vec::new(alloc);
    for n in 0..LINES {
        let line = FileLine::new(rt.clone()?, line_file(alloc, n)?);
        add_line(&mut lines, Box::new(alloc, line)?)?;
    }
    give_over_files(rt, words, &mut lines)
}

// The exit status of a command over these files.
fn code_over_files(rt: &HostRuntime, command: &OverFiles) -> Result<ExitCode, Fail> {
    let schedule = turns_and(rt.alloc(), command.turns, "finish 1000\n")?;
    fs::write(rt, "s.txt", schedule.as_slice())?;
    let status = give_on_files(rt, command.words)?;
    Ok(exit_code(&status))
}

// Whether a file has this text, or, where none is wanted, isn't there. It is removed.
fn held(rt: &HostRuntime, name: &str, wanted: Option<&str>) -> Result<bool, Fail> {
    let found = fs::read_to_string(rt, name).ok();
    if found.is_some() {
        fs::remove_file(rt, name)?;
    }
    Ok(found.as_ref().map(|text| text.as_str()) == wanted)
}

// Writes the description and the image of the commands.
fn write_inputs(rt: &HostRuntime) -> io::Result<()> {
    fs::write(rt, "a1.txt", MACHINE.as_bytes())?;
    fs::write(rt, "hello.sqi", HELLO.as_slice())
}

// Whether a command over files ends so, with these bytes in the file of line 0.
fn is_given(rt: &HostRuntime, command: &OverFiles) -> Result<bool, Fail> {
    let code = code_over_files(rt, command)?;
    let has_bytes = held(rt, "line0.out", command.bytes)?;
    Ok(code == ExitCode::from(command.code) && has_bytes)
}

#[test]
fn over_files(rt: HostRuntime) -> Result<(), Fail> {
    write_inputs(&rt)?;
    for (number, command) in COMMANDS.iter().enumerate() {
        assert!(rt; is_given(&rt, command)?, "{}", number);
    }
    Ok(())
}

// Sends a byte on the line of a file: whether it is accepted.
fn is_sent(rt: &HostRuntime, n: u8) -> Result<bool, Fail>
    requires { n < 16 }
{
    let mut line = FileLine::new(rt.clone()?, line_file(rt.alloc(), n)?);
    Ok(line.send(0, 0x41 + n) == Ok(()))
}

// The files of some lines.
static FILES: [(&str, &str); 4] = [
    ("line0.out", "A"),
    ("line3.out", "D"),
    ("line10.out", "K"),
    ("line15.out", "P"),
];

// Each of the sixteen lines has a file of its own.
#[test]
fn files_of_lines(rt: HostRuntime) -> Result<(), Fail> {
    for n in 0..LINES {
        assert!(rt; is_sent(&rt, n)?);
    }
    for (name, text) in &FILES {
        assert!(rt; held(&rt, name, Some(*text))?);
    }
    Ok(())
}

// A command line of these words, the program's name first.
#[derive(Drop)]
struct Told {
    words: &'static [&'static [u8]],
}

impl Env for Told {
    fn arg(&self, i: usize, buf: &mut [u8]) -> Result<usize, FillError> {
        let Some(word) = self.words.get(i) else {
            return Err(FillError::NotPresent);
        };
        if word.len() > buf.len() {
            return Err(FillError::TooLong);
        }
        buf[..word.len()].copy_from_slice(word);
        Ok(word.len())
    }

    fn var(&self, _name: &str, _buf: &mut [u8]) -> Result<usize, FillError> {
        Err(FillError::NotPresent)
    }

    fn var_at(&self, _i: usize, _buf: &mut [u8]) -> Result<usize, FillError> {
        Err(FillError::NotPresent)
    }
}

// A command line with the first of the words that are read, and how many those are: none where the words can't be read.
struct CommandLine {
    words: &'static [&'static [u8]],
    wanted: Option<(&'static str, usize)>,
}

static COMMAND_LINES: [CommandLine; 4] = [
    CommandLine {
        words: &[b"sequoia", b"run", b"a1.txt", b"s.txt"],
        wanted: Some(("run", 3)),
    },
    CommandLine {
        words: &[b"sequoia"],
        wanted: Some(("", 0)),
    },
    CommandLine {
        words: &[],
        wanted: Some(("", 0)),
    },
    CommandLine {
        words: &[b"sequoia", b"run", &[0x61, 0xff], b"s.txt"],
        wanted: None,
    },
];

// Whether the words begin so, and are so many.
fn begin_so(found: &[String], wanted: Option<(&str, usize)>) -> bool {
    let first = found.first().map_or("", |word| word.as_str());
    Some((first, found.len())) == wanted
}

// Reads the words of a command line: whether they begin so, or can't be read, which is usage.
fn is_read(alloc: Global, line: &CommandLine) -> bool {
    match read_words(&(Told { words: line.words }, alloc), alloc) {
        Ok(found) => begin_so(&found, line.wanted),
        Err(status) => status == Status::Usage && line.wanted.is_none(),
    }
}

#[test]
fn words_begin_after_the_name(rt: HostRuntime) {
    let alloc = rt.alloc();
    for (number, line) in COMMAND_LINES.iter().enumerate() {
        assert!(rt; is_read(alloc, line), "{}", number);
    }
}
