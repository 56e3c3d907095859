// Which statuses rule, who awaits recovery, and what a machine check names, on three memories that keep two processes.
ghost use Rattle.std.specs.Prelude.{◌≡◌, ◌≢◌, ◌<◌, true, IfOk};
ghost use Rattle.seq_layout.specs.Places.{IsPlace};
ghost use Rattle.seq_memory.specs.declared.element.State.TheVariants.{Down};
ghost use Rattle.seq_layout.specs.Copies.{Matches, copies, state_of, first_word, IsServed};
ghost use Rattle.seq_status.specs.Words.{IsStatusWord};
ghost use Rattle.seq_ruling.specs.Ruling.{status_in, ruling, NamesOneOf, HaveRulingWords, AreHeldByOneOf};

use crate::{awaiting, awaits, check, is_deserted, live, ruling};
use seq_layout::{Extent, Layout, WordAt};
use seq_memory::{Memories, State};
use seq_samples::three_memories;
use seq_status::{Holder, Status, of_word};
use seq_words::{Blocker, Element, Ioe, Me, NoMemory, Pe, Pid};
use std::alloc::Global;
use std::process::Abort;

// The incarnations of the two processors.
const INCARNATIONS: [u64; 2] = [3, 0x1_0000_0000];

const LIVE: Holder = Holder {
    pe: Pe(0),
    incarnation: 3,
};

const OTHER_LIVE: Holder = Holder {
    pe: Pe(1),
    incarnation: 0x1_0000_0000,
};

const DEAD: Holder = Holder {
    pe: Pe(1),
    incarnation: 0xffff_ffff,
};

const UP: State = State::InService;

const DOWN: State = State::Down;

const STALE: State = State::Stale;

const COPYING: State = State::Copying { next: 3 };

// The layout of two processes on three memories, and those memories: the primaries are on memories 0 and 1, and the shadows
// on memories 1 and 2.
fn started(alloc: Global) -> Result<(Layout, Memories), NoMemory>
    ensures matches { IfOk result (λ m. Matches m.0 m.1) }
    ensures memories { IfOk result (λ m. m.0.memories ≡ 3) }
    ensures processes { IfOk result (λ m. m.0.processes ≡ 2) }
{
    let desc = three_memories(alloc)?;
    let layout = Layout::new(alloc, &desc)?;
    let memories = layout.memories(alloc)?;
    Ok((layout, memories))
}

fn status_word(process: u8) -> WordAt
    ensures extent { result.extent.0 ≡ process }
    ensures word { result.word ≡ 0 }
{
    WordAt {
        extent: Extent(process as u32),
        word: 0,
    }
}

fn has_word(layout: &Layout, at: WordAt) -> bool
    ensures { result ≡ true → IsPlace layout.now.words at.extent.0 at.word }
{
    (at.extent.0 as usize) < layout.extents() && at.word < layout.words(at.extent)
}

// Writes the status word of a process at its primary and at its shadow.
fn write(memories: &mut Memories, layout: &Layout, process: u8, primary: u64, shadow: u64)
    requires { Matches layout.now memories.old }
    ensures { Matches layout.now memories.new }
{
    let at = status_word(process);
    if has_word(layout, at) {
        layout.write_word(memories, at, false, primary);
        layout.write_word(memories, at, true, shadow);
    }
}

// A memory fails, and is repaired and copied up to this state.
fn put(memories: &mut Memories, layout: &Layout, me: Me, state: State)
    requires matches { Matches layout.now memories.old }
    requires memory { me.0 < layout.now.memories }
    ensures { Matches layout.now memories.new }
{
    if state == UP {
        return;
    }
    layout.fail(memories, me);
    if state == DOWN {
        return;
    }
    layout.repair(memories, me);
    if let State::Copying { next } = state {
        layout.mark_copied(memories, me, next);
    }
}

// Whether the memory of a copy is up, so that the copy may be set.
#[tactic(auto, using(crate::proofs::States::state_is))]
fn is_up(memories: &Memories, layout: &Layout, extent: Extent, shadow: bool) -> bool
    requires { Matches layout.now memories.now }
    ensures { result ≡ true → state_of layout.now (copies layout.now memories.now) extent.0 shadow ≢ Down }
{
    let me = layout.memory(extent, shadow);
    memories.elements.at(me.0 as usize).state != DOWN
}

// The status word of a process is copied back to its primary.
fn copy_back(memories: &mut Memories, layout: &Layout, process: u8, word: u64)
    requires { Matches layout.now memories.old }
    ensures { Matches layout.now memories.new }
{
    let at = status_word(process);
    if has_word(layout, at) && is_up(memories, layout, at.extent, false) {
        layout.set_word(memories, at, false, word);
    }
}

// Whether a status names none but the two processors.
fn is_ours(status: &Status) -> bool
    ensures { result ≡ true → NamesOneOf 2 status.now }
{
    match status {
        Status::Idle => true,
        Status::Run(holder) => holder.pe.0 < 2,
        Status::Pass1(holder) => holder.pe.0 < 2,
        Status::Pass2(holder) => holder.pe.0 < 2,
        Status::Back(holder) => holder.pe.0 < 2,
        Status::Forward(holder) => holder.pe.0 < 2,
    }
}

fn is_known(word: u64) -> bool
    ensures format { result ≡ true → IsStatusWord word }
    ensures named { result ≡ true → NamesOneOf 2 (status_in word) }
{
    match of_word(word) {
        None => false,
        Some(status) => is_ours(&status),
    }
}

// Whether a process has a status word in service that names none but the two processors.
fn is_ruled(memories: &Memories, layout: &Layout, process: u8) -> bool
    requires { Matches layout.now memories.now }
    ensures place { result ≡ true → IsPlace layout.now.words process 0 }
    ensures served { result ≡ true → IsServed layout.now (copies layout.now memories.now) process }
    ensures format { result ≡ true → IsStatusWord (first_word layout.now (copies layout.now memories.now) process 0) }
    ensures named { result ≡ true → NamesOneOf 2 (ruling layout.now (copies layout.now memories.now) process) }
{
    let at = status_word(process);
    let shadow = layout.first_is_shadow(at.extent, memories);
    if !has_word(layout, at) || !layout.serves(memories, at.extent, shadow) {
        return false;
    }
    is_known(layout.first_word(memories, at))
}

fn are_ruled(memories: &Memories, layout: &Layout) -> bool
    requires { Matches layout.now memories.now }
    ensures words { result ≡ true → HaveRulingWords layout.now (copies layout.now memories.now) }
    ensures holders { result ≡ true → AreHeldByOneOf 2 layout.now (copies layout.now memories.now) }
{
    for process in 0..layout.processes() {
        if !is_ruled(memories, layout, process) {
            return false;
        }
    }
    true
}

// What rules, who awaits recovery, and what a machine check names where a processor, each memory, or an I/O element stops.
#[derive(Clone, Copy, Debug, PartialEq, Eq)]
struct Answer {
    first: Status,
    second: Status,
    awaiting: Option<Pid>,
    processor: Option<Blocker>,
    memory_0: Option<Blocker>,
    memory_1: Option<Blocker>,
    memory_2: Option<Blocker>,
    io: Option<Blocker>,
}

fn ask(memories: &Memories, layout: &Layout) -> Answer
    requires matches { Matches layout.now memories.now }
    requires processes { layout.now.processes ≡ 2 }
    requires words { HaveRulingWords layout.now (copies layout.now memories.now) }
    requires holders { AreHeldByOneOf 2 layout.now (copies layout.now memories.now) }
{
    let now = &INCARNATIONS;
    Answer {
        first: ruling(Pid(0), memories, layout),
        second: ruling(Pid(1), memories, layout),
        awaiting: awaiting(now, memories, layout),
        processor: check(Element::Processor(Pe(0)), now, memories, layout),
        memory_0: check(Element::Memory(Me(0)), now, memories, layout),
        memory_1: check(Element::Memory(Me(1)), now, memories, layout),
        memory_2: check(Element::Memory(Me(2)), now, memories, layout),
        io: check(Element::Io(Ioe(0)), now, memories, layout),
    }
}

// The status words of the two processes, each at its primary and at its shadow, and the states of the three memories.
type Given = ((u64, u64), (u64, u64), [State; 3]);

// Memories that were given so.
fn given_memories(alloc: Global, given: &Given) -> Result<(Layout, Memories), NoMemory>
    ensures matches { IfOk result (λ m. Matches m.0 m.1) }
    ensures processes { IfOk result (λ m. m.0.processes ≡ 2) }
{
    let (layout, mut memories) = started(alloc)?;
    let (first, second, states) = *given;
    write(&mut memories, &layout, 0, first.0, first.1);
    write(&mut memories, &layout, 1, second.0, second.1);
    put(&mut memories, &layout, Me(0), states[0]);
    put(&mut memories, &layout, Me(1), states[1]);
    put(&mut memories, &layout, Me(2), states[2]);
    Ok((layout, memories))
}

// What is asked of memories: None where a process has no status word in service.
fn asked(memories: &Memories, layout: &Layout) -> Option<Answer>
    requires matches { Matches layout.now memories.now }
    requires processes { layout.now.processes ≡ 2 }
{
    if are_ruled(memories, layout) {
        Some(ask(memories, layout))
    } else {
        None
    }
}

fn answer_to(alloc: Global, given: &Given) -> Result<Option<Answer>, NoMemory> {
    let (layout, memories) = given_memories(alloc, given)?;
    Ok(asked(&memories, &layout))
}

// The same, where these words of the two processes are copied back to their primaries.
fn answer_after(
    alloc: Global,
    given: &Given,
    back: (u64, u64),
) -> Result<Option<Answer>, NoMemory> {
    let (layout, mut memories) = given_memories(alloc, given)?;
    copy_back(&mut memories, &layout, 0, back.0);
    copy_back(&mut memories, &layout, 1, back.1);
    Ok(asked(&memories, &layout))
}

// The words of a process, at its primary and at its shadow: the same, or such as a flush or a recovery leaves between two turns.
const IDLE: (u64, u64) = (0, 0);

const RUNS: (u64, u64) = (0x3_0001, 0x3_0001);

const DESERTED: (u64, u64) = (0xffff_ffff_0101, 0xffff_ffff_0101);

const GOES_BACK: (u64, u64) = (0x3_0004, 0x3_0004);

const PASSES: (u64, u64) = (0x3_0003, 0x3_0002);

const GOES_FORWARD: (u64, u64) = (0, 0x3_0005);

const MEMORY_0: Option<Blocker> = Some(Blocker::Memory(Me(0)));

const MEMORY_1: Option<Blocker> = Some(Blocker::Memory(Me(1)));

const MEMORY_2: Option<Blocker> = Some(Blocker::Memory(Me(2)));

const PROCESS_0: Option<Blocker> = Some(Blocker::Process(Pid(0)));

const PROCESS_1: Option<Blocker> = Some(Blocker::Process(Pid(1)));

// A word, its status, and whether a process that it rules awaits recovery.
type Kind = (u64, Status, bool);

const KINDS: [Kind; 14] = [
    (0, Status::Idle, false),
    (0x3_0001, Status::Run(LIVE), false),
    (0x3_0002, Status::Pass1(LIVE), false),
    (0x3_0003, Status::Pass2(LIVE), false),
    (0x3_0004, Status::Back(LIVE), true),
    (0x3_0005, Status::Forward(LIVE), true),
    (0x1_0000_0000_0101, Status::Run(OTHER_LIVE), false),
    (0x1_0000_0000_0103, Status::Pass2(OTHER_LIVE), false),
    (0x1_0000_0000_0105, Status::Forward(OTHER_LIVE), true),
    (0xffff_ffff_0101, Status::Run(DEAD), true),
    (0xffff_ffff_0102, Status::Pass1(DEAD), true),
    (0xffff_ffff_0103, Status::Pass2(DEAD), true),
    (0xffff_ffff_0104, Status::Back(DEAD), true),
    (0xffff_ffff_0105, Status::Forward(DEAD), true),
];

// Process 0 is idle, and process 1 has the word of the row; all memories are in service.
fn each_kind(rt: &impl Abort, alloc: Global, rows: &[Kind]) -> Result<(), NoMemory> {
    for (word, status, awaits) in rows {
        let given = (IDLE, (*word, *word), [UP, UP, UP]);
        let named = if *awaits {
            Some(Blocker::Process(Pid(1)))
        } else {
            None
        };
        let wanted = Answer {
            first: Status::Idle,
            second: *status,
            awaiting: if *awaits { Some(Pid(1)) } else { None },
            processor: None,
            memory_0: named,
            memory_1: named,
            memory_2: named,
            io: None,
        };
        assert_eq!(rt; answer_to(alloc, &given)?, Some(wanted), "{given:?}");
    }
    Ok(())
}

#[test]
fn words_of_every_kind(rt: HostRuntime) -> Result<(), NoMemory> {
    each_kind(&rt, rt.alloc(), &KINDS)
}

// What is given; the statuses that rule; who awaits recovery; and what is named where a processor and each memory stop.
type Row = (Given, [Status; 2], Option<Pid>, [Option<Blocker>; 4]);

const ROWS: [Row; 13] = [
    // No process awaits recovery.
    (
        (RUNS, IDLE, [UP, UP, UP]),
        [Status::Run(LIVE), Status::Idle],
        None,
        [None, None, None, None],
    ),
    (
        (RUNS, IDLE, [UP, DOWN, UP]),
        [Status::Run(LIVE), Status::Idle],
        None,
        [MEMORY_1, MEMORY_1, None, MEMORY_1],
    ),
    (
        (RUNS, IDLE, [COPYING, UP, UP]),
        [Status::Run(LIVE), Status::Idle],
        None,
        [MEMORY_0, None, MEMORY_0, MEMORY_0],
    ),
    (
        (RUNS, IDLE, [UP, UP, STALE]),
        [Status::Run(LIVE), Status::Idle],
        None,
        [MEMORY_2, MEMORY_2, MEMORY_2, None],
    ),
    (
        (RUNS, IDLE, [STALE, UP, DOWN]),
        [Status::Run(LIVE), Status::Idle],
        None,
        [MEMORY_0, MEMORY_2, MEMORY_0, MEMORY_0],
    ),
    // Both processes await recovery.
    (
        (DESERTED, GOES_BACK, [UP, UP, UP]),
        [Status::Run(DEAD), Status::Back(LIVE)],
        Some(Pid(0)),
        [None, PROCESS_0, PROCESS_0, PROCESS_0],
    ),
    (
        (DESERTED, GOES_BACK, [UP, STALE, UP]),
        [Status::Run(DEAD), Status::Back(LIVE)],
        Some(Pid(0)),
        [MEMORY_1, MEMORY_1, PROCESS_0, MEMORY_1],
    ),
    (
        (DESERTED, GOES_BACK, [DOWN, UP, UP]),
        [Status::Run(DEAD), Status::Back(LIVE)],
        Some(Pid(0)),
        [MEMORY_0, PROCESS_0, MEMORY_0, MEMORY_0],
    ),
    // The copies of each process's word differ.
    (
        (PASSES, GOES_FORWARD, [UP, UP, UP]),
        [Status::Pass2(LIVE), Status::Idle],
        None,
        [None, None, None, None],
    ),
    (
        (PASSES, GOES_FORWARD, [DOWN, UP, UP]),
        [Status::Pass1(LIVE), Status::Idle],
        None,
        [MEMORY_0, None, MEMORY_0, MEMORY_0],
    ),
    (
        (PASSES, GOES_FORWARD, [UP, STALE, UP]),
        [Status::Pass2(LIVE), Status::Forward(LIVE)],
        Some(Pid(1)),
        [MEMORY_1, MEMORY_1, PROCESS_1, MEMORY_1],
    ),
    (
        (PASSES, GOES_FORWARD, [UP, COPYING, UP]),
        [Status::Pass2(LIVE), Status::Forward(LIVE)],
        Some(Pid(1)),
        [MEMORY_1, MEMORY_1, PROCESS_1, MEMORY_1],
    ),
    (
        (PASSES, GOES_FORWARD, [UP, UP, COPYING]),
        [Status::Pass2(LIVE), Status::Idle],
        None,
        [MEMORY_2, MEMORY_2, MEMORY_2, None],
    ),
];

fn each_stop(rt: &impl Abort, alloc: Global, rows: &[Row]) -> Result<(), NoMemory> {
    for (given, statuses, awaiting, named) in rows {
        let wanted = Answer {
            first: statuses[0],
            second: statuses[1],
            awaiting: *awaiting,
            processor: named[0],
            memory_0: named[1],
            memory_1: named[2],
            memory_2: named[3],
            io: None,
        };
        assert_eq!(rt; answer_to(alloc, given)?, Some(wanted), "{given:?}");
    }
    Ok(())
}

#[test]
fn stops_and_what_they_name(rt: HostRuntime) -> Result<(), NoMemory> {
    each_stop(&rt, rt.alloc(), &ROWS)
}

// What is given, and the words of the two processes that are copied back to their primaries; and what is answered then.
type Returning = (
    Given,
    (u64, u64),
    [Status; 2],
    Option<Pid>,
    [Option<Blocker>; 4],
);

const NEWER: (u64, u64) = (0x3_0001, 0xffff_ffff_0102);

// A memory is copied back. The words that it has again don't rule before it is in service.
const RETURNING: [Returning; 6] = [
    // Its word says that process 0 is idle, or runs, or goes back; the shadow's says that its holder is gone.
    (
        (NEWER, IDLE, [STALE, UP, UP]),
        (0, 0),
        [Status::Pass1(DEAD), Status::Idle],
        Some(Pid(0)),
        [MEMORY_0, PROCESS_0, MEMORY_0, MEMORY_0],
    ),
    (
        (NEWER, IDLE, [COPYING, UP, UP]),
        (0x3_0001, 0),
        [Status::Pass1(DEAD), Status::Idle],
        Some(Pid(0)),
        [MEMORY_0, PROCESS_0, MEMORY_0, MEMORY_0],
    ),
    (
        (IDLE, IDLE, [COPYING, UP, UP]),
        (0x3_0004, 0),
        [Status::Idle, Status::Idle],
        None,
        [MEMORY_0, None, MEMORY_0, MEMORY_0],
    ),
    // So it is with process 1, and the word of process 0, whose primary is in service, rules at once.
    (
        (IDLE, NEWER, [UP, COPYING, UP]),
        (0, 0x3_0001),
        [Status::Idle, Status::Pass1(DEAD)],
        Some(Pid(1)),
        [MEMORY_1, MEMORY_1, PROCESS_1, MEMORY_1],
    ),
    (
        (IDLE, RUNS, [UP, COPYING, UP]),
        (0x3_0005, 0xffff_ffff_0101),
        [Status::Forward(LIVE), Status::Run(LIVE)],
        Some(Pid(0)),
        [MEMORY_1, MEMORY_1, PROCESS_0, MEMORY_1],
    ),
    // A memory that is down takes no word.
    (
        (RUNS, IDLE, [DOWN, UP, UP]),
        (0x3_0004, 0x3_0004),
        [Status::Run(LIVE), Status::Back(LIVE)],
        Some(Pid(1)),
        [MEMORY_0, PROCESS_1, MEMORY_0, MEMORY_0],
    ),
];

fn each_return(rt: &impl Abort, alloc: Global, rows: &[Returning]) -> Result<(), NoMemory> {
    for (given, back, statuses, awaiting, named) in rows {
        let wanted = Answer {
            first: statuses[0],
            second: statuses[1],
            awaiting: *awaiting,
            processor: named[0],
            memory_0: named[1],
            memory_1: named[2],
            memory_2: named[3],
            io: None,
        };
        let answer = answer_after(alloc, given, *back)?;
        assert_eq!(rt; answer, Some(wanted), "{given:?} {back:?}");
    }
    Ok(())
}

#[test]
fn words_that_are_back_do_not_rule(rt: HostRuntime) -> Result<(), NoMemory> {
    each_return(&rt, rt.alloc(), &RETURNING)
}

// A status of each kind with this holder, which is live or not.
fn held(rt: &impl Abort, holder: Holder, lives: bool)
    requires { holder.pe.0 < 2 }
{
    let now = &INCARNATIONS;
    assert_eq!(rt; live(&holder, now), lives);
    assert_eq!(rt; is_deserted(&Status::Run(holder), now), !lives);
    assert_eq!(rt; is_deserted(&Status::Forward(holder), now), !lives);
    assert_eq!(rt; awaits(&Status::Run(holder), now), !lives);
    assert_eq!(rt; awaits(&Status::Pass1(holder), now), !lives);
    assert_eq!(rt; awaits(&Status::Pass2(holder), now), !lives);
    assert!(rt; awaits(&Status::Back(holder), now));
    assert!(rt; awaits(&Status::Forward(holder), now));
}

fn holder(pe: u8, incarnation: u64) -> Holder
    requires { pe < 2 }
    ensures { result.pe.0 < 2 }
{
    Holder {
        pe: Pe(pe),
        incarnation,
    }
}

#[test]
fn live_and_dead_holders(rt: HostRuntime) {
    held(&rt, holder(0, 3), true);
    held(&rt, holder(0, 2), false);
    held(&rt, holder(0, 4), false);
    held(&rt, holder(1, 3), false);
    held(&rt, holder(1, 0x1_0000_0000), true);
    held(&rt, holder(1, 0), false);
    assert!(rt; !awaits(&Status::Idle, &INCARNATIONS));
    assert!(rt; !is_deserted(&Status::Idle, &INCARNATIONS));
}
