//! Whole texts, as they are printed.
use crate::{Status, assembled, is_reported, is_single, number, report, single};
use seq_flat::{End, Flat};
use seq_samples::one_line;
use seq_words::{Blocker, Bytes, Element, Entry, LineNo, Me, Pe, Pid};
use std::alloc::Global;
use std::test::Fail;

// A run of one process and one line: how it ended, the counts of its history, how the process stands, how many bytes the line has
// accepted, whether it is hung up, and the report with the status's number.
#[derive(Clone, Copy)]
struct Row {
    status: Status,
    counts: &'static [u32],
    end: End,
    sent: u64,
    hung: u16,
    wanted: (&'static str, u8),
}

const REPORTS: [Row; 12] = [
    Row {
        status: Status::Done,
        counts: &[8],
        end: End::Exited(0),
        sent: 1,
        hung: 0,
        wanted: ("done\nhistory 1 8\nprocess 0 exited 0\nline 0 1\n", 0),
    },
    Row {
        status: Status::Done,
        counts: &[],
        end: End::Live,
        sent: 0,
        hung: 0,
        wanted: ("done\nhistory 0 0\nprocess 0 live\nline 0 0\n", 0),
    },
    Row {
        status: Status::Done,
        counts: &[2],
        end: End::Trapped(7, 4),
        sent: 0,
        hung: 0,
        wanted: ("done\nhistory 1 2\nprocess 0 trapped 7 at 4\nline 0 0\n", 0),
    },
    Row {
        status: Status::MachineCheck {
            line: 5,
            stopped: Element::Memory(Me(1)),
            cause: Blocker::Memory(Me(0)),
        },
        counts: &[8],
        end: End::Exited(0),
        sent: 0,
        hung: 0,
        wanted: (
            "machine check at line 5: m1 while m0\nhistory 1 8\nprocess 0 exited 0\nline 0 0\n",
            4,
        ),
    },
    Row {
        status: Status::MachineCheck {
            line: 3,
            stopped: Element::Processor(Pe(0)),
            cause: Blocker::Memory(Me(0)),
        },
        counts: &[],
        end: End::Live,
        sent: 0,
        hung: 0,
        wanted: (
            "machine check at line 3: p0 while m0\nhistory 0 0\nprocess 0 live\nline 0 0\n",
            4,
        ),
    },
    Row {
        status: Status::MachineCheck {
            line: 3,
            stopped: Element::Memory(Me(0)),
            cause: Blocker::Process(Pid(0)),
        },
        counts: &[],
        end: End::Live,
        sent: 0,
        hung: 0,
        wanted: (
            "machine check at line 3: m0 while process 0\nhistory 0 0\nprocess 0 live\nline 0 0\n",
            4,
        ),
    },
    Row {
        status: Status::OutOfTurns { line: 1 },
        counts: &[],
        end: End::Live,
        sent: 0,
        hung: 0,
        wanted: (
            "out of turns at line 1\nhistory 0 0\nprocess 0 live\nline 0 0\n",
            5,
        ),
    },
    Row {
        status: Status::LineFault { line: LineNo(0) },
        counts: &[8],
        end: End::Exited(0),
        sent: 2,
        hung: 0,
        wanted: (
            "line fault 0\nhistory 1 8\nprocess 0 exited 0\nline 0 2\n",
            7,
        ),
    },
    Row {
        status: Status::ChronicleFault,
        counts: &[],
        end: End::Live,
        sent: 0,
        hung: 0,
        wanted: (
            "chronicle fault\nhistory 0 0\nprocess 0 live\nline 0 0\n",
            6,
        ),
    },
    Row {
        status: Status::Done,
        counts: &[50, 6],
        end: End::Exited(0),
        sent: 0,
        hung: 0,
        wanted: ("done\nhistory 2 56\nprocess 0 exited 0\nline 0 0\n", 0),
    },
    Row {
        status: Status::Done,
        counts: &[10_000, 10_000],
        end: End::Exited(0xffff_ffff),
        sent: 1_048_576,
        hung: 1,
        wanted: (
            "done\nhistory 2 20000\nprocess 0 exited 4294967295\nline 0 1048576 hung up\n",
            0,
        ),
    },
    Row {
        status: Status::Done,
        counts: &[1],
        end: End::Trapped(2, 0xffff_fffc),
        sent: 1,
        hung: 2,
        wanted: (
            "done\nhistory 1 1\nprocess 0 trapped 2 at 4294967292\nline 0 1\n",
            0,
        ),
    },
];

// A status of a file of this name, its line and its number.
#[derive(Clone, Copy)]
struct Single {
    status: Status,
    name: &'static str,
    wanted: (&'static str, u8),
}

const SINGLES: [Single; 5] = [
    Single {
        status: Status::Refused {
            file: 2,
            place: 2,
            rule: 35,
        },
        name: "s.txt",
        wanted: ("refused s.txt at 2 rule 35\n", 3),
    },
    Single {
        status: Status::Refused {
            file: 1,
            place: 15,
            rule: 21,
        },
        name: "hello.sqi",
        wanted: ("refused hello.sqi at 15 rule 21\n", 3),
    },
    Single {
        status: Status::Refused {
            file: 1,
            place: 4,
            rule: 22,
        },
        name: "hello.sqi",
        wanted: ("refused hello.sqi at 4 rule 22\n", 3),
    },
    Single {
        status: Status::Absent { file: 1 },
        name: "hello.sqi",
        wanted: ("absent hello.sqi\n", 3),
    },
    Single {
        status: Status::ShelfFault,
        name: "",
        wanted: ("shelf fault\n", 6),
    },
];

// The flat machine of one process, which stands so.
fn ended(alloc: Global, end: End) -> Result<Flat, Fail> {
    let desc = one_line(alloc)?;
    let mut flat = Flat::new(alloc, &desc)?;
    let process = flat.state.processes.at_mut(0);
    process.end = end;
    Ok(flat)
}

// A history of process 0, with these counts.
fn history_of(alloc: Global, counts: &[u32]) -> Result<Vec<Entry>, Fail> {
    let mut history = Vec::new(alloc);
    for count in counts {
        history.push(Entry {
            pid: Pid(0),
            count: *count,
        })?;
    }
    Ok(history)
}

fn report_of(alloc: Global, row: &Row) -> Result<Bytes, Fail> {
    if !is_reported(&row.status) {
        return Err(Fail::from("no report"));
    }
    let flat = ended(alloc, row.end)?;
    let history = history_of(alloc, row.counts)?;
    Ok(report(alloc, &row.status, &flat, &history, &[row.sent], row.hung)?)
}

// Whether the report of each row is as wanted, and its status has the number.
fn all_reported(alloc: Global, rows: &[Row]) -> Result<bool, Fail> {
    let mut all = true;
    for row in rows {
        let text = report_of(alloc, row)?;
        all = all
            && text.as_slice() == row.wanted.0.as_bytes()
            && number(&row.status) == row.wanted.1;
    }
    Ok(all)
}

#[test]
fn reports(rt: HostRuntime) -> Result<(), Fail> {
    assert!(rt; all_reported(rt.alloc(), &REPORTS)?);
    Ok(())
}

fn line_of(alloc: Global, row: &Single) -> Result<Bytes, Fail> {
    if !is_single(&row.status) {
        return Err(Fail::from("no line"));
    }
    Ok(single(alloc, &row.status, row.name)?)
}

fn all_single(alloc: Global, rows: &[Single]) -> Result<bool, Fail> {
    let mut all = true;
    for row in rows {
        let text = line_of(alloc, row)?;
        all = all
            && text.as_slice() == row.wanted.0.as_bytes()
            && number(&row.status) == row.wanted.1;
    }
    Ok(all)
}

#[test]
fn singles(rt: HostRuntime) -> Result<(), Fail> {
    assert!(rt; all_single(rt.alloc(), &SINGLES)?);
    let text = assembled(rt.alloc(), 33)?;
    assert_eq!(rt; text.as_slice(), b"assembled 33 bytes\n".as_slice());
    assert_eq!(rt; number(&Status::SinkFault), 6);
    Ok(())
}
