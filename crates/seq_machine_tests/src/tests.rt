// Scenes: orders of turns with what each turn comes to, worked by hand from the rules.
ghost use Rattle.std.specs.Prelude.{◌≡◌, false};
ghost use Rattle.seq_words.specs.Description.{IsDescription};
ghost use Rattle.seq_machine.specs.Ready.{IsReady};

use crate::programs::{COUNT, ECHO, HELLO, LOOP, SPREAD};
use crate::stage::{
    Outcome, Row, Stage, alone, chronicle, line, sharing, with_two_lines, without_units,
};
use seq_kernel::{Cause, Reason};
use seq_machine::{Note, Stop};
use seq_samples::lone_process;
use seq_shelf::{MemChronicle, Outlet};
use seq_words::{Blocker, Element, Entry, Event, Ioe, LineNo, MachineDesc, Me, Pe, Pid, Seg};
use std::alloc::Global;
use std::process::Abort;
use std::test::Fail;

pub const P0: Event = Event::Processor(Pe(0));

pub const P1: Event = Event::Processor(Pe(1));

pub const I0: Event = Event::Io(Ioe(0));

pub const I1: Event = Event::Io(Ioe(1));

pub const FAIL_0: Event = Event::Fail(Element::Processor(Pe(0)));

const FAIL_1: Event = Event::Fail(Element::Processor(Pe(1)));

pub const REPAIR_0: Event = Event::Repair(Element::Processor(Pe(0)));

const REPAIR_1: Event = Event::Repair(Element::Processor(Pe(1)));

const LOSE_0: Event = Event::Fail(Element::Memory(Me(0)));

const LOSE_1: Event = Event::Fail(Element::Memory(Me(1)));

const LOSE_2: Event = Event::Fail(Element::Memory(Me(2)));

const MEND_0: Event = Event::Repair(Element::Memory(Me(0)));

const MEND_1: Event = Event::Repair(Element::Memory(Me(1)));

const MEND_2: Event = Event::Repair(Element::Memory(Me(2)));

const LOST_0: Outcome = Ok(Note::Stopped(Element::Memory(Me(0))));

const LOST_1: Outcome = Ok(Note::Stopped(Element::Memory(Me(1))));

const LOST_2: Outcome = Ok(Note::Stopped(Element::Memory(Me(2))));

const COPIED_0: Outcome = Ok(Note::Copied(Me(0)));

const COPIED_2: Outcome = Ok(Note::Copied(Me(2)));

const HELD_BACK: Outcome = Ok(Note::Held);

pub const STOPPED_0: Outcome = Ok(Note::Stopped(Element::Processor(Pe(0))));

const STOPPED_1: Outcome = Ok(Note::Stopped(Element::Processor(Pe(1))));

pub const NOTHING: Outcome = Ok(Note::Nothing);

pub const MADE: Outcome = Ok(Note::Made);

pub const MOVED: Outcome = Ok(Note::Moved);

pub const RAN: Outcome = Ok(Note::Ran(Pid(0)));

const RAN_1: Outcome = Ok(Note::Ran(Pid(1)));

pub const LOOKED: Outcome = Ok(Note::Looked(Pid(0)));

const LOOKED_1: Outcome = Ok(Note::Looked(Pid(1)));

const TAKEN: Outcome = Ok(Note::Taken(LineNo(0)));

pub const SENT: Outcome = Ok(Note::Sent(LineNo(0), 0x41));

pub const EXITS: Outcome = Ok(Note::Found(Pid(0), Cause::Exit));

pub const ENDS: Outcome = Ok(Note::Found(Pid(0), Cause::Quantum));

/// Process 0 waits for the byte with that index of line 0.
const AWAITS_FIRST: Outcome = Ok(Note::Found(Pid(0), Cause::Wait(Reason::Input(LineNo(0), 0))));

const AWAITS_SECOND: Outcome = Ok(Note::Found(Pid(0), Cause::Wait(Reason::Input(LineNo(0), 1))));

/// A process waits for the other, which holds the segment.
const AWAITS_1: Outcome = Ok(Note::Found(Pid(0), Cause::Wait(Reason::Lock(Seg(0), Pid(1)))));

const AWAITS_0: Outcome = Ok(Note::Found(Pid(1), Cause::Wait(Reason::Lock(Seg(0), Pid(0)))));

pub fn entry(pid: u8, count: u32) -> Entry {
    Entry {
        pid: Pid(pid),
        count,
    }
}

/// An event is made so many times.
fn repeat(
    rt: &impl Abort,
    stage: &mut Stage,
    lines: &mut Vec<Outlet>,
    chronicle: &mut MemChronicle,
    row: &Row,
)
    requires { stage.old.ended ≡ false → IsReady stage.old.made stage.old.hardware }
    ensures { stage.new.ended ≡ false → IsReady stage.new.made stage.new.hardware }
{
    for time in 0..row.1 {
        assert_eq!(rt; stage.make(rt, row.0, lines, chronicle), row.2);
    }
}

/// The rows are played one after the other.
pub fn play(
    rt: &impl Abort,
    stage: &mut Stage,
    lines: &mut Vec<Outlet>,
    chronicle: &mut MemChronicle,
    rows: &[Row],
)
    requires { stage.old.ended ≡ false → IsReady stage.old.made stage.old.hardware }
    ensures { stage.new.ended ≡ false → IsReady stage.new.made stage.new.hardware }
{
    for row in rows {
        repeat(rt, stage, lines, chronicle, row);
    }
}

/// Rows of rows are played one after the other.
fn play_all(
    rt: &impl Abort,
    stage: &mut Stage,
    lines: &mut Vec<Outlet>,
    chronicle: &mut MemChronicle,
    parts: &[&[Row]],
)
    requires { stage.old.ended ≡ false → IsReady stage.old.made stage.old.hardware }
    ensures { stage.new.ended ≡ false → IsReady stage.new.made stage.new.hardware }
{
    for part in parts {
        play(rt, stage, lines, chronicle, part);
    }
}

/// An order of turns is taken. No turn ends the run.
fn take_order(
    rt: &impl Abort,
    stage: &mut Stage,
    lines: &mut Vec<Outlet>,
    chronicle: &mut MemChronicle,
    order: &[Event],
)
    requires { stage.old.ended ≡ false → IsReady stage.old.made stage.old.hardware }
    ensures { stage.new.ended ≡ false → IsReady stage.new.made stage.new.hardware }
{
    for event in order {
        assert!(rt; stage.make(rt, *event, lines, chronicle).is_ok());
    }
}

/// An order of turns is taken so many times.
fn take_orders(
    rt: &impl Abort,
    stage: &mut Stage,
    lines: &mut Vec<Outlet>,
    chronicle: &mut MemChronicle,
    order: &[Event],
    times: u32,
)
    requires { stage.old.ended ≡ false → IsReady stage.old.made stage.old.hardware }
    ensures { stage.new.ended ≡ false → IsReady stage.new.made stage.new.hardware }
{
    for time in 0..times {
        take_order(rt, stage, lines, chronicle, order);
    }
}

/// Orders are taken one after the other, each so many times.
fn take_cycle(
    rt: &impl Abort,
    stage: &mut Stage,
    lines: &mut Vec<Outlet>,
    chronicle: &mut MemChronicle,
    cycle: &[(&[Event], u32)],
)
    requires { stage.old.ended ≡ false → IsReady stage.old.made stage.old.hardware }
    ensures { stage.new.ended ≡ false → IsReady stage.new.made stage.new.hardware }
{
    for part in cycle {
        take_orders(rt, stage, lines, chronicle, part.0, part.1);
    }
}

/// A cycle of orders is taken so many times.
fn take_cycles(
    rt: &impl Abort,
    stage: &mut Stage,
    lines: &mut Vec<Outlet>,
    chronicle: &mut MemChronicle,
    cycle: &[(&[Event], u32)],
    times: u32,
)
    requires { stage.old.ended ≡ false → IsReady stage.old.made stage.old.hardware }
    ensures { stage.new.ended ≡ false → IsReady stage.new.made stage.new.hardware }
{
    for time in 0..times {
        take_cycle(rt, stage, lines, chronicle, cycle);
    }
}

/// Whether a line accepted these bytes and no other.
fn accepted(outlet: &Outlet, bytes: &[u8]) -> bool {
    for (index, byte) in bytes.iter().enumerate() {
        if outlet.line.byte_at(index as u64) != Some(*byte) {
            return false;
        }
    }
    outlet.line.accepted() == bytes.len() as u64
}

/// Whether the first of two lines accepted these bytes, and the second none.
fn both_accepted(lines: &[Outlet], bytes: &[u8]) -> bool {
    lines.len() == 2 && accepted(&lines[0], bytes) && accepted(&lines[1], &[])
}

/// On a machine with at most two lines the parts are played. It may be that the first byte that is sent to line 0, and the first
/// commit, are refused. Line 0 accepts these bytes and line 1 none, and these entries are told.
pub fn scene(
    rt: &impl Abort,
    alloc: Global,
    stage: &mut Stage,
    faulty: bool,
    parts: &[&[Row]],
    bytes: &[u8],
    entries: &[Entry],
) -> Result<(), Fail>
    requires { stage.old.ended ≡ false → IsReady stage.old.made stage.old.hardware }
{
    let first = Outlet {
        line: Box::new(alloc, line(alloc, faulty)?)?,
        hung: false,
    };
    let second = Outlet {
        line: Box::new(alloc, line(alloc, false)?)?,
        hung: false,
    };
    let mut lines = vec![in alloc; first, second]?;
    let mut chronicle = chronicle(alloc, faulty)?;
    play_all(rt, stage, &mut lines, &mut chronicle, parts);
    assert!(rt; both_accepted(&lines, bytes));
    assert_eq!(rt; chronicle.pairs(), entries);
    Ok(())
}

/// The same on the machine of a description at its start.
pub fn first_scene(
    rt: &impl Abort,
    alloc: Global,
    desc: MachineDesc,
    faulty: bool,
    parts: &[&[Row]],
    bytes: &[u8],
    entries: &[Entry],
) -> Result<(), Fail>
    requires { IsDescription desc }
{
    let mut stage = Stage::new(alloc, desc)?;
    scene(rt, alloc, &mut stage, faulty, parts, bytes, entries)
}

/// The same on a machine of one processor, one I/O element and one process of this image, which has line 0.
pub fn alone_scene(
    rt: &impl Abort,
    alloc: Global,
    image: &[u8],
    faulty: bool,
    parts: &[&[Row]],
    bytes: &[u8],
    entries: &[Entry],
) -> Result<(), Fail> {
    let desc = alone(rt, alloc, 1, 1000, 4096, image)?;
    first_scene(rt, alloc, desc, faulty, parts, bytes, entries)
}

/// Process 0 is claimed and exits at its eighth step; the flush is marked, and its first pass writes the outbox block and the
/// context.
pub const HELLO_BEFORE: [Row; 5] = [
    (P0, 2, MOVED),
    (P0, 7, RAN),
    (P0, 1, EXITS),
    (P0, 2, MOVED),
    (P0, 9, MOVED),
];

pub const HELLO_COMMITS: [Row; 1] = [(P0, 1, Ok(Note::Committed(Pid(0), 8)))];

/// The second pass; the flush is closed and the process released. It has ended.
pub const HELLO_AFTER: [Row; 3] = [(P0, 10, MOVED), (P0, 4, MOVED), (P0, 1, LOOKED)];

pub const HELLO_SENDS: [Row; 3] = [(I0, 1, SENT), (I0, 2, MOVED), (I0, 1, NOTHING)];

const CHRONICLE_REFUSES: [Row; 1] = [(P0, 1, Err(Stop::Chronicle))];

const LINE_REFUSES: [Row; 1] = [(I0, 1, Err(Stop::Line(LineNo(0))))];

// A process writes a byte and exits.
#[test]
fn hello_is_released(rt: HostRuntime) -> Result<(), Fail> {
    let alloc = rt.alloc();
    let parts: [&[Row]; 4] = [&HELLO_BEFORE, &HELLO_COMMITS, &HELLO_AFTER, &HELLO_SENDS];
    alone_scene(&rt, alloc, &HELLO, false, &parts, &[0x41], &[entry(0, 8)])
}

// The first commit is refused by the chronicle, and the first byte by the line. Nothing has changed then, and both are made again.
#[test]
fn faults_change_nothing(rt: HostRuntime) -> Result<(), Fail> {
    let alloc = rt.alloc();
    let parts: [&[Row]; 6] = [
        &HELLO_BEFORE,
        &CHRONICLE_REFUSES,
        &HELLO_COMMITS,
        &HELLO_AFTER,
        &LINE_REFUSES,
        &HELLO_SENDS,
    ];
    alone_scene(&rt, alloc, &HELLO, true, &parts, &[0x41], &[entry(0, 8)])
}

const FULL: [Row; 13] = [
    (P0, 2, MOVED),
    (P0, 50, RAN),
    (P0, 1, Ok(Note::Found(Pid(0), Cause::Room))),
    // Sixteen blocks and the context are written in each pass.
    (P0, 26, MOVED),
    (P0, 1, Ok(Note::Committed(Pid(0), 50))),
    (P0, 27, MOVED),
    // The process runs on.
    (P0, 5, RAN),
    (P0, 1, EXITS),
    (P0, 11, MOVED),
    (P0, 1, Ok(Note::Committed(Pid(0), 6))),
    (P0, 14, MOVED),
    (P0, 1, LOOKED),
    (I0, 1, NOTHING),
];

// Seventeen blocks are changed, and the cache has room for sixteen.
#[test]
fn a_full_cache_is_flushed(rt: HostRuntime) -> Result<(), Fail> {
    let alloc = rt.alloc();
    let entries = [entry(0, 50), entry(0, 6)];
    alone_scene(&rt, alloc, &SPREAD, false, &[&FULL], &[], &entries)
}

const ECHOES: [Row; 39] = [
    (P0, 2, MOVED),
    (P0, 2, RAN),
    (P0, 1, AWAITS_FIRST),
    (P0, 10, MOVED),
    (P0, 1, Ok(Note::Committed(Pid(0), 2))),
    (P0, 13, MOVED),
    // Nothing is committed where no step was taken.
    (P0, 2, MOVED),
    (P0, 1, AWAITS_FIRST),
    (P0, 2, MOVED),
    (I0, 1, NOTHING),
    (Event::Input(LineNo(0), 0x41), 1, MADE),
    (I0, 4, MOVED),
    (I0, 1, TAKEN),
    (I0, 1, NOTHING),
    (P0, 2, MOVED),
    (P0, 11, RAN),
    (P0, 1, AWAITS_SECOND),
    (P0, 12, MOVED),
    (P0, 1, Ok(Note::Committed(Pid(0), 11))),
    (P0, 15, MOVED),
    (I0, 1, SENT),
    (I0, 2, MOVED),
    (I0, 1, NOTHING),
    (Event::Input(LineNo(0), 0x42), 1, MADE),
    (Event::Close(LineNo(0)), 1, MADE),
    (I0, 4, MOVED),
    (I0, 1, TAKEN),
    // The end of input is told.
    (I0, 2, MOVED),
    (I0, 1, NOTHING),
    (P0, 2, MOVED),
    (P0, 15, RAN),
    (P0, 1, EXITS),
    (P0, 12, MOVED),
    (P0, 1, Ok(Note::Committed(Pid(0), 16))),
    (P0, 15, MOVED),
    (P0, 1, LOOKED),
    (I0, 1, Ok(Note::Sent(LineNo(0), 0x42))),
    (I0, 2, MOVED),
    (I0, 1, NOTHING),
];

// Two bytes arrive, and the end of input; each is waited for.
#[test]
fn echo_answers(rt: HostRuntime) -> Result<(), Fail> {
    let alloc = rt.alloc();
    let entries = [entry(0, 2), entry(0, 11), entry(0, 16)];
    alone_scene(
        &rt,
        alloc,
        &ECHO,
        false,
        &[&ECHOES],
        &[0x41, 0x42],
        &entries,
    )
}

/// A process that never ends is claimed, takes five steps, and is flushed and released.
pub const FIVE_STEPS: [Row; 6] = [
    (P0, 2, MOVED),
    (P0, 5, RAN),
    (P0, 1, ENDS),
    (P0, 10, MOVED),
    (P0, 1, Ok(Note::Committed(Pid(0), 5))),
    (P0, 13, MOVED),
];

// A process that takes as many steps as it may is flushed and released, and claimed again.
#[test]
fn a_quantum_ends(rt: HostRuntime) -> Result<(), Fail> {
    let alloc = rt.alloc();
    let desc = alone(&rt, alloc, 1, 5, 32, &LOOP)?;
    let entries = [entry(0, 5), entry(0, 5)];
    let parts: [&[Row]; 2] = [&FIVE_STEPS, &FIVE_STEPS];
    first_scene(&rt, alloc, desc, false, &parts, &[], &entries)
}

const TRAPS: [Row; 8] = [
    (P0, 2, MOVED),
    (I0, 2, NOTHING),
    (P0, 1, Ok(Note::Found(Pid(0), Cause::Trap))),
    (P0, 10, MOVED),
    (P0, 1, Ok(Note::Committed(Pid(0), 1))),
    (P0, 13, MOVED),
    (P0, 2, LOOKED),
    (I0, 1, NOTHING),
];

// A word that is no instruction traps. There is no line to serve.
#[test]
fn a_trap_without_lines(rt: HostRuntime) -> Result<(), Fail> {
    let alloc = rt.alloc();
    let desc = lone_process(alloc)?;
    first_scene(&rt, alloc, desc, false, &[&TRAPS], &[], &[entry(0, 1)])
}

const SERVED: [Row; 21] = [
    (P0, 2, MOVED),
    (P0, 7, RAN),
    (P0, 1, EXITS),
    (P0, 11, MOVED),
    (P0, 1, Ok(Note::Committed(Pid(0), 8))),
    (P0, 14, MOVED),
    (I0, 1, SENT),
    (I1, 1, MOVED),
    // Both are at line 1.
    (I0, 1, NOTHING),
    (Event::Input(LineNo(1), 7), 1, MADE),
    (I1, 1, MOVED),
    // Both are at line 0.
    (I0, 1, MOVED),
    (I1, 1, NOTHING),
    // Both are at line 1.
    (I0, 1, MOVED),
    (I1, 1, MOVED),
    (I0, 1, NOTHING),
    (I0, 1, MOVED),
    (I1, 1, NOTHING),
    (I1, 1, Ok(Note::Taken(LineNo(1)))),
    (I0, 2, NOTHING),
    (I1, 2, NOTHING),
];

// Two elements serve two lines, each with a cursor of its own.
#[test]
fn elements_serve_in_turn(rt: HostRuntime) -> Result<(), Fail> {
    let alloc = rt.alloc();
    let desc = with_two_lines(&rt, alloc, 64, &HELLO)?;
    first_scene(&rt, alloc, desc, false, &[&SERVED], &[0x41], &[entry(0, 8)])
}

/// The steps that a process has committed.
fn steps_of(entries: &[Entry], pid: Pid) -> u32 {
    let mut steps = 0u32;
    for entry in entries {
        if entry.pid == pid {
            steps = steps.saturating_add(entry.count);
        }
    }
    steps
}

/// Whether process 1 took 1108 steps, and process 0 1115 and eight for each look at the number, at least one.
fn are_counted(entries: &[Entry]) -> bool {
    let steps = steps_of(entries, Pid(0));
    steps_of(entries, Pid(1)) == 1108 && steps > 1115 && (steps - 1115) % 8 == 0
}

/// Two processes count to two hundred under this cycle of orders, which is taken so many times, after these rows.
fn count(
    rt: &impl Abort,
    alloc: Global,
    stage: &mut Stage,
    rows: &[Row],
    cycle: &[(&[Event], u32)],
    times: u32,
) -> Result<(), Fail>
    requires { stage.old.ended ≡ false → IsReady stage.old.made stage.old.hardware }
{
    let only = Outlet {
        line: Box::new(alloc, line(alloc, false)?)?,
        hung: false,
    };
    let mut lines = vec![in alloc; only]?;
    let mut chronicle = chronicle(alloc, false)?;
    play(rt, stage, &mut lines, &mut chronicle, rows);
    take_cycles(rt, stage, &mut lines, &mut chronicle, cycle, times);
    assert_eq!(rt; lines.len(), 1);
    assert!(rt; accepted(&lines[0], &[0xc8]));
    assert!(rt; are_counted(chronicle.pairs()));
    Ok(())
}

/// The same on a machine of its own.
pub fn counting_in_cycles(
    rt: &impl Abort,
    alloc: Global,
    rows: &[Row],
    cycle: &[(&[Event], u32)],
    times: u32,
) -> Result<(), Fail> {
    let mut stage = Stage::new(alloc, sharing(rt, alloc, 512, &COUNT)?)?;
    count(rt, alloc, &mut stage, rows, cycle, times)
}

/// The same under one order of turns.
fn counting(rt: &impl Abort, alloc: Global, rows: &[Row], order: &[Event]) -> Result<(), Fail> {
    counting_in_cycles(rt, alloc, rows, &[(order, 20_000)], 1)
}

#[test]
fn both_count_under_the_lock(rt: HostRuntime) -> Result<(), Fail> {
    let alloc = rt.alloc();
    counting(&rt, alloc, &[], &[P0, P1, I0, I1])?;
    counting(&rt, alloc, &[], &[P1, P0, P0, P0, I1])?;
    counting(&rt, alloc, &[], &[P1, P1, P1, P1, P1, P1, P1, I0, P0])
}

const HELD: [Row; 32] = [
    (P0, 2, MOVED),
    // Process 0 is taken, process 1 is free.
    (P1, 1, LOOKED),
    (P1, 2, MOVED),
    (P0, 4, RAN),
    (P1, 4, RAN_1),
    // Process 0 acquires the segment.
    (P0, 1, MOVED),
    (P1, 1, AWAITS_0),
    (P0, 1, RAN),
    (P1, 10, MOVED),
    (P1, 1, Ok(Note::Committed(Pid(1), 4))),
    (P1, 13, MOVED),
    (P1, 1, LOOKED),
    (P1, 2, MOVED),
    // The lock is still held, and no step was taken.
    (P1, 1, AWAITS_0),
    (P1, 2, MOVED),
    (P1, 1, LOOKED),
    (P0, 5, RAN),
    (P0, 1, Ok(Note::Found(Pid(0), Cause::Release(Seg(0))))),
    // The segment's block and the context are written in each pass.
    (P0, 11, MOVED),
    (P0, 1, Ok(Note::Committed(Pid(0), 11))),
    (P0, 12, MOVED),
    (P1, 2, MOVED),
    (P1, 1, AWAITS_0),
    // The lock is released, and process 0 goes on to acquire the segment again.
    (P0, 2, MOVED),
    (P0, 4, RAN),
    (P1, 2, MOVED),
    (P1, 1, LOOKED),
    (P1, 2, MOVED),
    (P1, 1, MOVED),
    // The lock is process 1's.
    (P0, 1, AWAITS_1),
    (P1, 1, RAN_1),
    (P0, 1, MOVED),
];

// The lock of the segment is held by process 0, and then by process 1.
#[test]
fn a_held_lock_is_waited_for(rt: HostRuntime) -> Result<(), Fail> {
    let alloc = rt.alloc();
    counting(&rt, alloc, &HELD, &[P1, P0, I0])
}

/// The same as `alone_scene` on a machine of two processors, with a process of two blocks of its own.
pub fn pair_scene(
    rt: &impl Abort,
    alloc: Global,
    parts: &[&[Row]],
    bytes: &[u8],
    entries: &[Entry],
) -> Result<(), Fail> {
    let desc = alone(rt, alloc, 2, 1000, 64, &HELLO)?;
    first_scene(rt, alloc, desc, false, parts, bytes, entries)
}

/// Process 0 is claimed and exits at its eighth step, and its flush is about to be marked.
const HELLO_EXITS: [Row; 3] = [(P0, 2, MOVED), (P0, 7, RAN), (P0, 1, EXITS)];

/// Processor 0 fails amid the mark. It does nothing then, and to fail again changes nothing.
const FAILS_AMID_MARK: [Row; 4] = [
    (P0, 1, MOVED),
    (FAIL_0, 1, STOPPED_0),
    (P0, 2, NOTHING),
    (FAIL_0, 1, MADE),
];

/// Processor 1 recovers process 0. Processor 0 is repaired meanwhile, and leaves it alone.
pub const RECOVERED: [Row; 6] = [
    // The status word is claimed; eight blocks of context, eight of an outbox and two others are copied.
    (P1, 2, MOVED),
    (P1, 18, MOVED),
    (REPAIR_0, 1, MADE),
    (P0, 1, LOOKED),
    // No lock word is left, and both copies of the status word are set free.
    (P1, 1, MOVED),
    (P1, 2, MOVED),
];

// A processor fails amid the mark of a flush: the process is taken back to its start. The processor runs it again once it is repaired.
#[test]
fn a_process_is_taken_back(rt: HostRuntime) -> Result<(), Fail> {
    let alloc = rt.alloc();
    let parts: [&[Row]; 7] = [
        &HELLO_EXITS,
        &FAILS_AMID_MARK,
        &RECOVERED,
        &HELLO_BEFORE,
        &HELLO_COMMITS,
        &HELLO_AFTER,
        &HELLO_SENDS,
    ];
    pair_scene(&rt, alloc, &parts, &[0x41], &[entry(0, 8)])
}

/// Processor 0 fails amid the second pass, after the commit, and is repaired. It recovers the process forward itself, which has
/// ended then.
const FORWARD: [Row; 7] = [
    (P0, 3, MOVED),
    (FAIL_0, 1, STOPPED_0),
    (I0, 1, NOTHING),
    (REPAIR_0, 1, MADE),
    (P0, 23, MOVED),
    (P0, 1, LOOKED),
    (P1, 1, LOOKED),
];

// A processor fails after the commit: the process goes forward, and nothing is committed again.
#[test]
fn a_process_goes_forward(rt: HostRuntime) -> Result<(), Fail> {
    let alloc = rt.alloc();
    let parts: [&[Row]; 4] = [&HELLO_BEFORE, &HELLO_COMMITS, &FORWARD, &HELLO_SENDS];
    pair_scene(&rt, alloc, &parts, &[0x41], &[entry(0, 8)])
}

/// Processor 1 fails amid the recovery, and processor 0 recovers the process from the beginning.
const RECOVERY_FAILS: [Row; 8] = [
    (P1, 7, MOVED),
    (FAIL_1, 1, STOPPED_1),
    (REPAIR_0, 1, MADE),
    (P0, 23, MOVED),
    (P1, 1, NOTHING),
    (REPAIR_1, 1, MADE),
    (P1, 2, MOVED),
    (P0, 1, LOOKED),
];

// The processor that recovers a process fails too, and the other recovers it. It is free then.
#[test]
fn a_recovery_is_recovered(rt: HostRuntime) -> Result<(), Fail> {
    let alloc = rt.alloc();
    let parts: [&[Row]; 3] = [&HELLO_EXITS, &FAILS_AMID_MARK, &RECOVERY_FAILS];
    pair_scene(&rt, alloc, &parts, &[], &[])
}

const LOCK_LEFT: [Row; 14] = [
    // Process 0 acquires the segment, and nothing is committed of it.
    (P0, 2, MOVED),
    (P0, 4, RAN),
    (P0, 1, MOVED),
    (P0, 1, RAN),
    (FAIL_0, 1, STOPPED_0),
    // The status word is claimed; 32 blocks of the process and one of the segment are copied.
    (P1, 2, MOVED),
    (P1, 33, MOVED),
    // Both lock words are cleared, and both copies of the status word.
    (P1, 2, MOVED),
    (P1, 2, MOVED),
    // The process is claimed again, and the lock is free.
    (P1, 2, MOVED),
    (P1, 4, RAN),
    (P1, 1, MOVED),
    (P1, 1, RAN),
    (REPAIR_0, 1, MADE),
];

// A process that is taken back holds a lock no more. Both count on then.
#[test]
fn a_lock_is_cleared(rt: HostRuntime) -> Result<(), Fail> {
    let alloc = rt.alloc();
    counting(&rt, alloc, &LOCK_LEFT, &[P1, P0, I0])
}

// Processors fail in turn, amid whatever they are about, and are repaired. The sum is right, and each step is committed once.
#[test]
fn both_count_through_failures(rt: HostRuntime) -> Result<(), Fail> {
    let alloc = rt.alloc();
    let cycle: [(&[Event], u32); 7] = [
        (&[P1, P0, I0], 83),
        (&[FAIL_0, P1, I0], 71),
        (&[REPAIR_0], 1),
        (&[P0, P1, P1, I1], 67),
        (&[FAIL_1, P0, I1], 97),
        (&[REPAIR_1], 1),
        (&[P0, P1], 13),
    ];
    counting_in_cycles(&rt, alloc, &[], &cycle, 200)
}

/// Memory 0 fails amid the first pass of the flush, and is repaired amid the second. Nothing is copied before the flush is closed
/// and the process released, and no element does anything but processor 0.
const LOST_AMID_FLUSH: [Row; 12] = [
    (P0, 6, MOVED),
    (LOSE_0, 1, LOST_0),
    (P1, 1, LOOKED),
    (P0, 5, MOVED),
    (P0, 1, Ok(Note::Committed(Pid(0), 8))),
    (P0, 3, MOVED),
    (MEND_0, 1, MADE),
    (P1, 2, HELD_BACK),
    (I0, 1, NOTHING),
    (P0, 10, MOVED),
    (P1, 1, HELD_BACK),
    (P0, 1, MOVED),
];

/// Eight blocks of context, eight of an outbox, two others and the status word are copied, a block of a journal and three words of
/// its line. Then processors look at the process, which has ended, and the byte is sent.
const COPIED_BACK: [Row; 8] = [
    (P0, 10, COPIED_0),
    (I0, 1, NOTHING),
    (P1, 12, COPIED_0),
    (I0, 1, NOTHING),
    (P0, 1, COPIED_0),
    (P0, 1, LOOKED),
    (P1, 1, LOOKED),
    (LOSE_1, 1, LOST_1),
];

/// The byte and the counts of the line are those of memory 0 now, which has the one copy in service.
const SENT_FROM_ONE: [Row; 3] = [(I0, 1, SENT), (I0, 1, MOVED), (I0, 1, NOTHING)];

// A memory fails amid a flush, is repaired and copied unit by unit. Then the other fails, and nothing is lost.
#[test]
fn a_memory_is_copied_back(rt: HostRuntime) -> Result<(), Fail> {
    let alloc = rt.alloc();
    let parts: [&[Row]; 4] = [&HELLO_EXITS, &LOST_AMID_FLUSH, &COPIED_BACK, &SENT_FROM_ONE];
    pair_scene(&rt, alloc, &parts, &[0x41], &[entry(0, 8)])
}

/// Process 0 goes on while memory 0 is down. Once it is repaired, processor 0, which runs the process, and processor 1, which seeks,
/// copy units alike. The memory fails again meanwhile, and is copied from the first unit on.
const COPIED_BY_BOTH: [Row; 13] = [
    (P0, 2, MOVED),
    (P0, 2, RAN),
    (LOSE_0, 1, LOST_0),
    (P0, 2, RAN),
    (MEND_0, 1, MADE),
    (P0, 3, COPIED_0),
    (LOSE_0, 1, LOST_0),
    (P0, 1, RAN),
    (MEND_0, 1, MADE),
    (P0, 20, COPIED_0),
    (P1, 3, COPIED_0),
    (P1, 1, LOOKED),
    (P0, 2, RAN),
];

// A processor that runs copies a memory, and so does one that seeks.
#[test]
fn who_seeks_or_runs_copies(rt: HostRuntime) -> Result<(), Fail> {
    let alloc = rt.alloc();
    let goes_on: [Row; 2] = [(P0, 1, EXITS), (P0, 11, MOVED)];
    let parts: [&[Row]; 5] = [
        &COPIED_BY_BOTH,
        &goes_on,
        &HELLO_COMMITS,
        &HELLO_AFTER,
        &HELLO_SENDS,
    ];
    pair_scene(&rt, alloc, &parts, &[0x41], &[entry(0, 8)])
}

const EMPTY: [Row; 4] = [
    (LOSE_2, 1, LOST_2),
    (MEND_2, 1, MADE),
    (P0, 1, COPIED_2),
    (P0, 1, MOVED),
];

// A memory that keeps nothing is in service after one turn.
#[test]
fn an_empty_memory_is_back_at_once(rt: HostRuntime) -> Result<(), Fail> {
    let alloc = rt.alloc();
    let desc = without_units(alloc)?;
    first_scene(&rt, alloc, desc, false, &[&EMPTY], &[], &[])
}

/// A machine check: this element stopped, and that stood against it.
const fn check(stopped: Element, blocker: Blocker) -> Outcome {
    Err(Stop::Check(stopped, blocker))
}

// A processor fails while a memory is down. One that is down doesn't.
#[test]
fn a_processor_without_a_memory(rt: HostRuntime) -> Result<(), Fail> {
    let alloc = rt.alloc();
    let stopped = Element::Processor(Pe(0));
    let rows: [Row; 5] = [
        (FAIL_1, 1, STOPPED_1),
        (LOSE_1, 1, LOST_1),
        (FAIL_1, 1, MADE),
        (P0, 2, MOVED),
        (FAIL_0, 1, check(stopped, Blocker::Memory(Me(1)))),
    ];
    pair_scene(&rt, alloc, &[&rows], &[], &[])
}

// A memory fails while the other is copied.
#[test]
fn a_memory_without_the_other(rt: HostRuntime) -> Result<(), Fail> {
    let alloc = rt.alloc();
    let stopped = Element::Memory(Me(1));
    let rows: [Row; 4] = [
        (LOSE_0, 1, LOST_0),
        (MEND_0, 1, MADE),
        (P1, 22, COPIED_0),
        (LOSE_1, 1, check(stopped, Blocker::Memory(Me(0)))),
    ];
    pair_scene(&rt, alloc, &[&rows], &[], &[])
}

// A memory fails while a process awaits recovery.
#[test]
fn a_memory_without_a_process(rt: HostRuntime) -> Result<(), Fail> {
    let alloc = rt.alloc();
    let stopped = Element::Memory(Me(0));
    let rows: [Row; 3] = [
        (FAIL_0, 1, STOPPED_0),
        (P1, 3, MOVED),
        (LOSE_0, 1, check(stopped, Blocker::Process(Pid(0)))),
    ];
    pair_scene(&rt, alloc, &[&HELLO_EXITS, &rows], &[], &[])
}

// Memories fail in turn, amid whatever processors are about, and are repaired and copied. The sum is right, and each step is
// committed once.
#[test]
fn both_count_through_lost_memories(rt: HostRuntime) -> Result<(), Fail> {
    let alloc = rt.alloc();
    let cycle: [(&[Event], u32); 8] = [
        (&[P1, P0, I0], 83),
        (&[LOSE_0], 1),
        (&[P0, P1, I0], 31),
        (&[MEND_0], 1),
        (&[P0, P1, P1, I1], 97),
        (&[LOSE_1, P0, P1], 1),
        (&[MEND_1, I0, P0], 1),
        (&[P1, P0, I1], 101),
    ];
    counting_in_cycles(&rt, alloc, &[], &cycle, 100)
}
