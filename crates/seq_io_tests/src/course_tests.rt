// An element that serves two lines, turn by turn, on three memories; and one that has no line to serve. Process 1 owns both
// lines. Its primary is on memory 1 and its shadow on memory 2; those of line 0 are on memories 1 and 2, of line 1 on 2 and 0.
ghost use Rattle.std.specs.Prelude.{◌≡◌, IfOk};
ghost use Rattle.seq_layout.specs.Copies.{Matches};
ghost use Rattle.seq_io.specs.Bounds.{IsWired};

use crate::bench::{
    block_from, bytes_from, layout_of, line, may_turn, put_block, put_number, put_word, take_away,
};
use seq_io::{IoElement, IoNote, PortState, turn};
use seq_layout::{Extent, Layout};
use seq_memory::Memories;
use seq_samples::{lone_process, three_memories};
use seq_shelf::{LineError, Outlet};
use seq_words::{Block, Bytes, Items, LineNo, Me};
use std::alloc::Global;
use std::process::Abort;
use std::test::Fail;

const OWNER: Extent = Extent(1);

const SECOND_LINE: Extent = Extent(5);

/// An element with the machine that it serves.
#[derive(Drop)]
struct Course {
    io: IoElement,
    ports: Items<PortState>,
    memories: Memories,
    layout: Layout,
}

/// What stands before the first turn. How many bytes of each line are written, and whether line 0 is closed; the journal of line
/// 1 has 40 bytes, and so many more have arrived at its port. Whether line 1 is hung up, or fails once; and which memory is away,
/// and whether it waits to be copied.
#[derive(Clone, Copy)]
struct Before {
    up: bool,
    cursor: u8,
    written: [u32; 2],
    closed: bool,
    arrived: u32,
    hung: bool,
    fails: bool,
    away: Option<(Me, bool)>,
}

const BEFORE: Before = Before {
    up: true,
    cursor: 0,
    written: [0, 0],
    closed: false,
    arrived: 0,
    hung: false,
    fails: false,
    away: None,
};

/// What a turn comes to, and the cursor after it.
type Wanted = (Result<IoNote, (LineNo, LineError)>, u8);

/// The block of a context that says how many bytes of each line are written.
fn written(before: &Before) -> Block {
    let mut context = Block::zero();
    put_number(&mut context, 4, before.written[0]);
    put_number(&mut context, 12, before.written[1]);
    context
}

/// Sets a copy of the owner's numbers of bytes written and of its two outboxes, and of the journal count of line 1.
fn set_copy(memories: &mut Memories, layout: &Layout, shadow: bool, before: &Before)
    requires { Matches layout.now memories.old }
    ensures { Matches layout.now memories.new }
{
    put_block(memories, layout, OWNER, 5, shadow, &written(before));
    put_block(memories, layout, OWNER, 8, shadow, &block_from(100));
    put_block(memories, layout, OWNER, 16, shadow, &block_from(150));
    put_word(memories, layout, SECOND_LINE, 0, shadow, 40);
}

fn memories(alloc: Global, layout: &Layout, before: &Before) -> Result<Memories, Fail>
    ensures { IfOk result (Matches layout.now) }
{
    let mut memories = layout.memories(alloc)?;
    set_copy(&mut memories, layout, false, before);
    set_copy(&mut memories, layout, true, before);
    if let Some((me, repaired)) = before.away {
        take_away(&mut memories, layout, me, repaired);
    }
    Ok(memories)
}

/// A port from which so many bytes were taken. The byte with index i is i.
fn port(alloc: Global, taken: u32, arrived: u32, closed: bool) -> Result<PortState, Fail> {
    let mut store = Bytes::copy_of(alloc, &bytes_from(0))?;
    store.append(&bytes_from(32))?;
    store.append(&bytes_from(64))?;
    Ok(PortState {
        taken,
        arrived,
        store,
        closed,
    })
}

/// The ports of both lines.
fn ports(alloc: Global, before: &Before) -> Result<Items<PortState>, Fail> {
    let mut ports = Items::new(alloc);
    ports.push(port(alloc, 0, 0, before.closed)?)?;
    ports.push(port(alloc, 40, before.arrived.saturating_add(40), false)?)?;
    Ok(ports)
}

/// An element with its ports, its memories and their layout.
fn course_of(before: &Before, ports: Items<PortState>, memories: Memories, layout: Layout) -> Course
    ensures memories { result.memories ≡ memories }
    ensures layout { result.layout ≡ layout }
{
    Course {
        io: IoElement {
            up: before.up,
            cursor: before.cursor,
        },
        ports,
        memories,
        layout,
    }
}

fn new_course(alloc: Global, before: &Before) -> Result<Course, Fail>
    ensures matches { IfOk result (λ c. Matches c.layout c.memories) }
    ensures wired { IfOk result (λ c. IsWired c.layout) }
{
    let ports = ports(alloc, before)?;
    let layout = layout_of(alloc, &three_memories(alloc)?)?;
    let memories = memories(alloc, &layout, before)?;
    Ok(course_of(before, ports, memories, layout))
}

fn take_turn(rt: &impl Abort, course: &mut Course, lines: &mut Vec<Outlet>, wanted: &Wanted)
    requires matches { Matches course.old.layout course.old.memories }
    requires wired { IsWired course.old.layout }
    ensures layout { course.new.layout ≡ course.old.layout }
    ensures matches { Matches course.new.layout course.new.memories }
{
    assert!(rt; may_turn(&course.io, &course.ports, &course.memories, &course.layout));
    assert!(rt; course.layout.lines() <= lines.len());
    let note = turn(
        &mut course.io,
        &mut course.ports,
        &mut course.memories,
        &course.layout,
        lines,
    );
    assert_eq!(rt; (note, course.io.cursor), *wanted);
}

fn take_turns(rt: &impl Abort, course: &mut Course, lines: &mut Vec<Outlet>, wanted: &[Wanted])
    requires matches { Matches course.old.layout course.old.memories }
    requires wired { IsWired course.old.layout }
{
    for turn in wanted {
        take_turn(rt, course, lines, turn);
    }
}

/// The words of each memory.
type Words<'a> = [&'a [u64]; 3];

fn hold(rt: &impl Abort, memories: &Memories, wanted: &Words<'_>) {
    let words = memories.elements.as_slice();
    assert_eq!(rt; words.len(), 3);
    for (element, wanted) in words.iter().zip(wanted) {
        assert_eq!(rt; element.words.as_slice(), *wanted);
    }
}

/// What a memory holds of the byte with index 40 of line 1's journal, whose block has this place there.
fn journaled(memories: &Memories, memory: usize, place: usize) -> Option<u8> {
    let element = memories.elements.as_slice().get(memory)?;
    let block = element.blocks.as_slice().get(place)?;
    Some(block.bytes[8])
}

/// How many bytes the port of a line gave up.
fn given_up(course: &Course, line: usize) -> Option<u32> {
    Some(course.ports.as_slice().get(line)?.taken)
}

/// These turns are taken, and the words are then these, while the port of line 0 gave nothing up. Answers the byte of line 1's
/// journal on memories 2 and 0.
fn go_through(
    rt: &impl Abort,
    course: &mut Course,
    lines: &mut Vec<Outlet>,
    turns: &[Wanted],
    words: &Words<'_>,
) -> [Option<u8>; 2]
    requires matches { Matches course.old.layout course.old.memories }
    requires wired { IsWired course.old.layout }
{
    take_turns(rt, course, lines, turns);
    hold(rt, &course.memories, words);
    assert_eq!(rt; given_up(course, 0), Some(0));
    [
        journaled(&course.memories, 2, 30),
        journaled(&course.memories, 0, 14),
    ]
}

/// These turns are taken from there on, and the words are then these. Answers the byte of line 1's journal on memories 2 and 0.
fn run(
    rt: &impl Abort,
    alloc: Global,
    before: &Before,
    turns: &[Wanted],
    words: &Words<'_>,
) -> Result<[Option<u8>; 2], Fail> {
    let first = line(alloc, 0, false)?;
    let second = line(alloc, 0, before.fails)?;
    let mut lines: Vec<Outlet> = Vec::new(alloc);
    lines.push(Outlet {
        line: first,
        hung: false,
    })?;
    lines.push(Outlet {
        line: second,
        hung: before.hung,
    })?;
    let mut course = new_course(alloc, before)?;
    Ok(go_through(rt, &mut course, &mut lines, turns, words))
}

const NOTHING: Result<IoNote, (LineNo, LineError)> = Ok(IoNote::Nothing);

/// A copy of line 0 was changed, or of line 1.
const FIRST: Result<IoNote, (LineNo, LineError)> = Ok(IoNote::Moved(LineNo(0)));

const SECOND: Result<IoNote, (LineNo, LineError)> = Ok(IoNote::Moved(LineNo(1)));

const TAKEN: Result<IoNote, (LineNo, LineError)> = Ok(IoNote::Taken(LineNo(1)));

const SENT_100: Result<IoNote, (LineNo, LineError)> = Ok(IoNote::Sent(LineNo(0), 100));

const SENT_150: Result<IoNote, (LineNo, LineError)> = Ok(IoNote::Sent(LineNo(1), 150));

const SENT_151: Result<IoNote, (LineNo, LineError)> = Ok(IoNote::Sent(LineNo(1), 151));

const FAULT: Result<IoNote, (LineNo, LineError)> = Err((LineNo(1), LineError::Fault));

// Line 0 sends a byte and is closed, while line 1 sends two and takes one.
#[test]
fn lines_take_turns(rt: HostRuntime) -> Result<(), Fail> {
    let before = Before {
        written: [1, 2],
        closed: true,
        arrived: 1,
        ..BEFORE
    };
    let turns = [
        (SENT_100, 1),
        (SENT_150, 0),
        (FIRST, 1),
        (SENT_151, 0),
        (FIRST, 1),
        (SECOND, 0),
        // Line 0 is closed, on both copies, and has no duty from then on.
        (FIRST, 1),
        (SECOND, 0),
        (FIRST, 1),
        // Line 1 takes its byte to both journals, and raises both counts.
        (SECOND, 0),
        (NOTHING, 1),
        (SECOND, 0),
        (NOTHING, 1),
        (SECOND, 0),
        (NOTHING, 1),
        (SECOND, 0),
        (NOTHING, 1),
        (TAKEN, 0),
        (NOTHING, 1),
        (NOTHING, 0),
    ];
    let words: Words<'_> = [
        &[0, 0, 0, 41, 0, 2],
        &[0, 0, 0, 0, 1, 1],
        &[0, 0, 0, 1, 1, 41, 0, 2],
    ];
    let bytes = run(&rt, rt.alloc(), &before, &turns, &words)?;
    assert_eq!(rt; bytes, [Some(40), Some(40)]);
    Ok(())
}

// The shadow of line 0 and the primary of line 1 are away.
#[test]
fn lines_take_turns_where_a_memory_is_away(rt: HostRuntime) -> Result<(), Fail> {
    let before = Before {
        written: [1, 1],
        closed: true,
        arrived: 1,
        away: Some((Me(2), false)),
        ..BEFORE
    };
    let turns = [
        (SENT_100, 1),
        (SENT_150, 0),
        (FIRST, 1),
        (SECOND, 0),
        (FIRST, 1),
        (SECOND, 0),
        (NOTHING, 1),
        (SECOND, 0),
        (NOTHING, 1),
        (TAKEN, 0),
        (NOTHING, 1),
        (NOTHING, 0),
    ];
    let words: Words<'_> = [
        &[0, 0, 0, 41, 0, 1],
        &[0, 0, 0, 0, 1, 1],
        &[0, 0, 0, 0, 0, 0, 0, 0],
    ];
    let bytes = run(&rt, rt.alloc(), &before, &turns, &words)?;
    assert_eq!(rt; bytes, [Some(0), Some(40)]);
    Ok(())
}

// The cursor stays at line 1 after its fault, and the byte is sent at the next turn.
#[test]
fn a_fault_keeps_the_cursor(rt: HostRuntime) -> Result<(), Fail> {
    let before = Before {
        written: [0, 1],
        fails: true,
        ..BEFORE
    };
    let turns = [
        (NOTHING, 1),
        (FAULT, 1),
        (SENT_150, 0),
        (NOTHING, 1),
        (SECOND, 0),
    ];
    let words: Words<'_> = [
        &[0, 0, 0, 40, 0, 0],
        &[0, 0, 0, 0, 0, 0],
        &[0, 0, 0, 0, 0, 40, 0, 1],
    ];
    run(&rt, rt.alloc(), &before, &turns, &words)?;
    Ok(())
}

// Nothing is sent on line 1, whose sent words follow to what is written.
#[test]
fn one_line_is_hung_up(rt: HostRuntime) -> Result<(), Fail> {
    let before = Before {
        written: [1, 2],
        hung: true,
        ..BEFORE
    };
    let turns = [
        (SENT_100, 1),
        (SECOND, 0),
        (FIRST, 1),
        (SECOND, 0),
        (FIRST, 1),
        (NOTHING, 0),
        (NOTHING, 1),
    ];
    let words: Words<'_> = [
        &[0, 0, 0, 40, 0, 2],
        &[0, 0, 0, 0, 0, 1],
        &[0, 0, 0, 0, 1, 40, 0, 2],
    ];
    run(&rt, rt.alloc(), &before, &turns, &words)?;
    Ok(())
}

// An element that rests keeps its cursor.
#[test]
fn a_cursor_rests(rt: HostRuntime) -> Result<(), Fail> {
    let down = Before {
        up: false,
        cursor: 1,
        written: [1, 1],
        ..BEFORE
    };
    let copied = Before {
        up: true,
        away: Some((Me(0), true)),
        ..down
    };
    let turns = [(NOTHING, 1), (NOTHING, 1)];
    let words: Words<'_> = [
        &[0, 0, 0, 40, 0, 0],
        &[0, 0, 0, 0, 0, 0],
        &[0, 0, 0, 0, 0, 40, 0, 0],
    ];
    let words_lost: Words<'_> = [
        &[0, 0, 0, 0, 0, 0],
        &[0, 0, 0, 0, 0, 0],
        &[0, 0, 0, 0, 0, 40, 0, 0],
    ];
    run(&rt, rt.alloc(), &down, &turns, &words)?;
    run(&rt, rt.alloc(), &copied, &turns, &words_lost)?;
    Ok(())
}

/// The memories of a layout, with nothing on them.
fn fresh(alloc: Global, layout: &Layout) -> Result<Memories, Fail>
    ensures { IfOk result (Matches layout.now) }
{
    let memories = layout.memories(alloc)?;
    Ok(memories)
}

// A machine with no line.
fn without_lines(alloc: Global) -> Result<Course, Fail>
    ensures matches { IfOk result (λ c. Matches c.layout c.memories) }
    ensures wired { IfOk result (λ c. IsWired c.layout) }
{
    let layout = layout_of(alloc, &lone_process(alloc)?)?;
    let memories = fresh(alloc, &layout)?;
    Ok(Course {
        io: IoElement {
            up: true,
            cursor: 0,
        },
        ports: Items::new(alloc),
        memories,
        layout,
    })
}

#[test]
fn no_line_is_served(rt: HostRuntime) -> Result<(), Fail> {
    let mut course = without_lines(rt.alloc())?;
    let mut lines = Vec::new(rt.alloc());
    let turns = [(NOTHING, 0), (NOTHING, 0)];
    take_turns(&rt, &mut course, &mut lines, &turns);
    assert_eq!(rt; course.layout.lines(), 0);
    Ok(())
}
