// Turns of an I/O element at line 0 of process 0, on two memories. The primaries of both are on memory 0, the shadows on memory 1.
ghost use Rattle.std.specs.Prelude.{◌<◌, IfOk};
ghost use Rattle.seq_layout.specs.Copies.{Matches};
ghost use Rattle.seq_io.specs.Bounds.{IsWired};

use crate::bench::{
    block_from, bytes_from, layout_of, line, may_turn, put_block, put_number, put_word, take_away,
};
use seq_io::{IoElement, IoNote, PortState, turn};
use seq_layout::{Extent, Layout};
use seq_memory::Memories;
use seq_samples::one_line;
use seq_shelf::{LineError, Outlet};
use seq_words::{Block, Bytes, Items, LineNo, Me, set_block_byte};
use std::alloc::Global;
use std::process::Abort;
use std::test::Fail;

const PROCESS: Extent = Extent(0);

const LINE: Extent = Extent(4);

/// Which memory is away, and whether it is already repaired and waits to be copied.
#[derive(Clone, Copy, Debug, PartialEq, Eq)]
enum Away {
    None,
    Primary,
    Shadow,
    Repaired,
}

/// A copy of the line: its journal count, its closed word, its sent word, and the journal's byte at the port's index.
#[derive(Clone, Copy, Debug, PartialEq, Eq)]
struct Held {
    journaled: u64,
    closed: u64,
    sent: u64,
    byte: u8,
}

/// The owner's status word, how many bytes its context says are written, the two copies of the line, and the line and its port
/// from outside. The bytes that arrive at the port are 200, 201 and so on.
#[derive(Clone, Copy)]
struct Scene {
    up: bool,
    status: u64,
    written: u32,
    away: Away,
    copies: [Held; 2],
    accepted: u16,
    hung: bool,
    fails: bool,
    taken: u32,
    arrived: u32,
    closed: bool,
}

/// What a turn leaves: its note or its error, both copies, how many bytes the line has accepted, and how many its port gave up.
#[derive(Clone, Copy, Debug, PartialEq, Eq)]
struct Left {
    note: Result<IoNote, (LineNo, LineError)>,
    copies: [Held; 2],
    accepted: u64,
    taken: u32,
}

/// The block of a context that says how many bytes are written.
fn written(scene: &Scene) -> Block {
    let mut context = Block::zero();
    put_number(&mut context, 4, scene.written);
    context
}

/// Sets a copy of the process: its status word, how many bytes are written, and in its outbox 100, 101 and so on from place 0,
/// 150, 151 and so on from place 32.
fn set_process(memories: &mut Memories, layout: &Layout, shadow: bool, scene: &Scene)
    requires { Matches layout.now memories.old }
    ensures { Matches layout.now memories.new }
{
    put_block(memories, layout, PROCESS, 5, shadow, &written(scene));
    put_block(memories, layout, PROCESS, 8, shadow, &block_from(100));
    put_block(memories, layout, PROCESS, 9, shadow, &block_from(150));
    put_word(memories, layout, PROCESS, 0, shadow, scene.status);
}

/// The block of a journal with its byte at an index.
fn journal_block(held: &Held, index: u32) -> Block {
    let mut journal = Block::zero();
    set_block_byte(&mut journal, index as usize % 32, held.byte);
    journal
}

/// Sets a copy of the line, with its journal's byte at an index.
fn set_line(memories: &mut Memories, layout: &Layout, shadow: bool, held: &Held, index: u32)
    requires { Matches layout.now memories.old }
    ensures { Matches layout.now memories.new }
{
    put_block(
        memories,
        layout,
        LINE,
        0,
        shadow,
        &journal_block(held, index),
    );
    put_word(memories, layout, LINE, 0, shadow, held.journaled);
    put_word(memories, layout, LINE, 1, shadow, held.closed);
    put_word(memories, layout, LINE, 2, shadow, held.sent);
}

/// The memory that is away has failed.
fn set_away(memories: &mut Memories, layout: &Layout, away: Away)
    requires { Matches layout.now memories.old }
    ensures { Matches layout.now memories.new }
{
    match away {
        Away::None => {}
        Away::Primary => take_away(memories, layout, Me(0), false),
        Away::Shadow => take_away(memories, layout, Me(1), false),
        Away::Repaired => take_away(memories, layout, Me(1), true),
    }
}

fn memories(alloc: Global, layout: &Layout, scene: &Scene) -> Result<Memories, Fail>
    ensures { IfOk result (Matches layout.now) }
{
    let mut memories = layout.memories(alloc)?;
    set_process(&mut memories, layout, false, scene);
    set_process(&mut memories, layout, true, scene);
    set_line(&mut memories, layout, false, &scene.copies[0], scene.taken);
    set_line(&mut memories, layout, true, &scene.copies[1], scene.taken);
    set_away(&mut memories, layout, scene.away);
    Ok(memories)
}

/// The port of the line, alone.
fn ports(alloc: Global, scene: &Scene) -> Result<Items<PortState>, Fail> {
    let mut ports = Items::new(alloc);
    ports.push(PortState {
        taken: scene.taken,
        arrived: scene.arrived,
        store: Bytes::copy_of(alloc, &bytes_from(200))?,
        closed: scene.closed,
    })?;
    Ok(ports)
}

/// What a memory holds of the line, with its journal's byte at an index.
fn copy_in(memories: &Memories, memory: usize, index: u32) -> Option<Held> {
    let element = memories.elements.as_slice().get(memory)?;
    let words = element.words.as_slice();
    let journal = element.blocks.as_slice().get(21)?;
    Some(Held {
        journaled: *words.get(4)?,
        closed: *words.get(5)?,
        sent: *words.get(6)?,
        byte: journal.bytes[index as usize % 32],
    })
}

/// What is left of the line after a turn.
fn what_is_left(
    note: Result<IoNote, (LineNo, LineError)>,
    memories: &Memories,
    ports: &[PortState],
    lines: &[Outlet],
    index: u32,
) -> Option<Left> {
    Some(Left {
        note,
        copies: [copy_in(memories, 0, index)?, copy_in(memories, 1, index)?],
        accepted: lines.first()?.line.accepted(),
        taken: ports.first()?.taken,
    })
}

/// A turn of the element on these memories: None where it is outside the turn's bounds.
fn turn_there(
    scene: &Scene,
    ports: &mut Items<PortState>,
    memories: &mut Memories,
    layout: &Layout,
    lines: &mut Vec<Outlet>,
) -> Option<Left>
    requires matches { Matches layout.now memories.old }
    requires wired { IsWired layout.now }
{
    let mut io = IoElement {
        up: scene.up,
        cursor: 0,
    };
    if !may_turn(&io, ports, memories, layout) || layout.lines() > lines.len() {
        return None;
    }
    let note = turn(&mut io, ports, memories, layout, lines);
    what_is_left(note, memories, ports.as_slice(), lines, scene.taken)
}

/// A turn in a scene with these outlets.
fn turned_with(
    alloc: Global,
    scene: &Scene,
    lines: &mut Vec<Outlet>,
) -> Result<Option<Left>, Fail> {
    let mut ports = ports(alloc, scene)?;
    let layout = layout_of(alloc, &one_line(alloc)?)?;
    let mut memories = memories(alloc, &layout, scene)?;
    Ok(turn_there(scene, &mut ports, &mut memories, &layout, lines))
}

/// A turn in a scene.
fn turned(alloc: Global, scene: &Scene) -> Result<Option<Left>, Fail> {
    let line = line(alloc, scene.accepted, scene.fails)?;
    let mut lines: Vec<Outlet> = Vec::new(alloc);
    lines.push(Outlet {
        line,
        hung: scene.hung,
    })?;
    turned_with(alloc, scene, &mut lines)
}

const QUIET: Held = Held {
    journaled: 0,
    closed: 0,
    sent: 0,
    byte: 0,
};

/// Nothing is written, accepted or arrived, and the owner is idle.
const SCENE: Scene = Scene {
    up: true,
    status: IDLE,
    written: 0,
    away: Away::None,
    copies: [QUIET, QUIET],
    accepted: 0,
    hung: false,
    fails: false,
    taken: 0,
    arrived: 0,
    closed: false,
};

const NOTHING: IoNote = IoNote::Nothing;

const MOVED: IoNote = IoNote::Moved(LineNo(0));

const TAKEN: IoNote = IoNote::Taken(LineNo(0));

/// Status words of a process, held by processor 0 in its incarnation 3.
const IDLE: u64 = 0;

const RUN: u64 = 0x3_0001;

const PASS1: u64 = 0x3_0002;

const PASS2: u64 = 0x3_0003;

const BACK: u64 = 0x3_0004;

const FORWARD: u64 = 0x3_0005;

const NONE: Away = Away::None;

const PRIMARY: Away = Away::Primary;

const SHADOW: Away = Away::Shadow;

const REPAIRED: Away = Away::Repaired;

const SENT_100: IoNote = IoNote::Sent(LineNo(0), 100);

const SENT_101: IoNote = IoNote::Sent(LineNo(0), 101);

const SENT_158: IoNote = IoNote::Sent(LineNo(0), 158);

/// The owner's status word, how many bytes it has written, whether the line is hung up, and which memory is away; how many bytes
/// the line has accepted, and the sent words of both copies; the note; and how many bytes are accepted then, and the sent words.
type Sending = (u64, u32, bool, Away, u16, [u64; 2], IoNote, u64, [u64; 2]);

const SENDING: [Sending; 37] = [
    // A byte is sent before the sent words follow.
    (IDLE, 1, false, NONE, 0, [0, 0], SENT_100, 1, [0, 0]),
    (RUN, 1, false, NONE, 0, [0, 0], SENT_100, 1, [0, 0]),
    (IDLE, 2, false, NONE, 1, [0, 0], SENT_101, 2, [0, 0]),
    (IDLE, 2, false, NONE, 1, [1, 1], SENT_101, 2, [1, 1]),
    (IDLE, 1, false, PRIMARY, 0, [0, 0], SENT_100, 1, [0, 0]),
    (RUN, 1, false, SHADOW, 0, [0, 0], SENT_100, 1, [0, 0]),
    // The outbox goes on in the next block, and begins anew after 256 bytes.
    (IDLE, 41, false, NONE, 40, [40, 40], SENT_158, 41, [40, 40]),
    (IDLE, 257, false, NONE, 256, [9, 9], SENT_100, 257, [9, 9]),
    // Nothing is sent while the owner isn't steady, or while a memory is to be copied.
    (PASS1, 1, false, NONE, 0, [0, 0], NOTHING, 0, [0, 0]),
    (PASS2, 1, false, NONE, 0, [0, 0], NOTHING, 0, [0, 0]),
    (BACK, 1, false, NONE, 0, [0, 0], NOTHING, 0, [0, 0]),
    (FORWARD, 1, false, NONE, 0, [0, 0], NOTHING, 0, [0, 0]),
    (IDLE, 1, false, REPAIRED, 0, [0, 0], NOTHING, 0, [0, 0]),
    // The sent words follow to what the line accepted.
    (IDLE, 1, false, NONE, 1, [0, 0], MOVED, 1, [1, 0]),
    (IDLE, 1, false, NONE, 1, [1, 0], MOVED, 1, [1, 1]),
    (IDLE, 1, false, NONE, 1, [0, 1], MOVED, 1, [1, 1]),
    (IDLE, 1, false, NONE, 1, [1, 1], NOTHING, 1, [1, 1]),
    (IDLE, 1, false, PRIMARY, 1, [0, 0], MOVED, 1, [0, 1]),
    (IDLE, 1, false, PRIMARY, 1, [0, 1], NOTHING, 1, [0, 1]),
    (IDLE, 1, false, SHADOW, 1, [0, 0], MOVED, 1, [1, 0]),
    (IDLE, 1, false, SHADOW, 1, [1, 0], NOTHING, 1, [1, 0]),
    (IDLE, 1, false, REPAIRED, 1, [0, 0], NOTHING, 1, [0, 0]),
    (PASS2, 2, false, NONE, 1, [0, 0], MOVED, 1, [1, 0]),
    (PASS2, 2, false, NONE, 1, [1, 0], MOVED, 1, [1, 1]),
    (PASS2, 2, false, NONE, 1, [1, 1], NOTHING, 1, [1, 1]),
    // At a line that is hung up, they follow to what is written, while the owner is steady.
    (IDLE, 1, true, NONE, 0, [0, 0], MOVED, 0, [1, 0]),
    (RUN, 2, true, NONE, 1, [0, 0], MOVED, 1, [2, 0]),
    (IDLE, 2, true, NONE, 1, [2, 1], MOVED, 1, [2, 2]),
    (IDLE, 2, true, NONE, 1, [2, 2], NOTHING, 1, [2, 2]),
    (IDLE, 2, true, PRIMARY, 1, [0, 0], MOVED, 1, [0, 2]),
    (IDLE, 2, true, PRIMARY, 1, [0, 2], NOTHING, 1, [0, 2]),
    (IDLE, 2, true, SHADOW, 1, [1, 0], MOVED, 1, [2, 0]),
    // While it isn't, they follow to what the line accepted before.
    (PASS1, 2, true, NONE, 1, [0, 0], MOVED, 1, [1, 0]),
    (PASS2, 2, true, NONE, 1, [1, 0], MOVED, 1, [1, 1]),
    (PASS2, 2, true, NONE, 1, [1, 1], NOTHING, 1, [1, 1]),
    (BACK, 2, true, NONE, 1, [1, 1], NOTHING, 1, [1, 1]),
    (FORWARD, 2, true, NONE, 1, [2, 2], NOTHING, 1, [2, 2]),
];

/// Which memory is away; the journal counts of both copies, and their bytes at the port's index; the note; and how many bytes the
/// port gave up then, the counts, and the bytes. One byte is unread.
type Taking = (Away, [u64; 2], [u8; 2], IoNote, u32, [u64; 2], [u8; 2]);

/// The first byte of the journal.
const TAKING: [Taking; 15] = [
    // The byte goes to both journals, then both counts are raised, and then the port gives it up.
    (NONE, [0, 0], [0, 0], MOVED, 0, [0, 0], [200, 0]),
    (NONE, [0, 0], [200, 0], MOVED, 0, [0, 0], [200, 200]),
    (NONE, [0, 0], [200, 200], MOVED, 0, [1, 0], [200, 200]),
    (NONE, [1, 0], [200, 200], MOVED, 0, [1, 1], [200, 200]),
    (NONE, [1, 1], [200, 200], TAKEN, 1, [1, 1], [200, 200]),
    // One copy is ahead of the other.
    (NONE, [1, 0], [200, 0], MOVED, 0, [1, 0], [200, 200]),
    (NONE, [0, 0], [0, 200], MOVED, 0, [0, 0], [200, 200]),
    (NONE, [0, 1], [200, 200], MOVED, 0, [1, 1], [200, 200]),
    // One memory is away.
    (PRIMARY, [0, 0], [0, 0], MOVED, 0, [0, 0], [0, 200]),
    (PRIMARY, [0, 0], [0, 200], MOVED, 0, [0, 1], [0, 200]),
    (PRIMARY, [0, 1], [0, 200], TAKEN, 1, [0, 1], [0, 200]),
    (SHADOW, [0, 0], [0, 0], MOVED, 0, [0, 0], [200, 0]),
    (SHADOW, [0, 0], [200, 0], MOVED, 0, [1, 0], [200, 0]),
    (SHADOW, [1, 0], [200, 0], TAKEN, 1, [1, 0], [200, 0]),
    (REPAIRED, [1, 0], [200, 0], NOTHING, 0, [1, 0], [200, 0]),
];

/// The last byte of the journal.
const LAST: [Taking; 5] = [
    (NONE, [31, 31], [0, 0], MOVED, 31, [31, 31], [231, 0]),
    (NONE, [31, 31], [231, 0], MOVED, 31, [31, 31], [231, 231]),
    (NONE, [31, 31], [231, 231], MOVED, 31, [32, 31], [231, 231]),
    (NONE, [32, 31], [231, 231], MOVED, 31, [32, 32], [231, 231]),
    (NONE, [32, 32], [231, 231], TAKEN, 32, [32, 32], [231, 231]),
];

/// Whether the port is closed, and which memory is away; the closed words of both copies; the note; and the words then. Nothing
/// is unread.
type Closing = (bool, Away, [u64; 2], IoNote, [u64; 2]);

const CLOSING: [Closing; 10] = [
    (false, NONE, [0, 0], NOTHING, [0, 0]),
    (true, NONE, [0, 0], MOVED, [1, 0]),
    (true, NONE, [1, 0], MOVED, [1, 1]),
    (true, NONE, [0, 1], MOVED, [1, 1]),
    (true, NONE, [1, 1], NOTHING, [1, 1]),
    (true, PRIMARY, [0, 0], MOVED, [0, 1]),
    (true, PRIMARY, [0, 1], NOTHING, [0, 1]),
    (true, SHADOW, [0, 0], MOVED, [1, 0]),
    (true, SHADOW, [1, 0], NOTHING, [1, 0]),
    (true, REPAIRED, [0, 0], NOTHING, [0, 0]),
];

/// Copies with these sent words.
fn sent(words: &[u64; 2]) -> [Held; 2] {
    words.map(|sent| Held { sent, ..QUIET })
}

/// Copies with these closed words.
fn closed(words: &[u64; 2]) -> [Held; 2] {
    words.map(|closed| Held { closed, ..QUIET })
}

/// A copy with this journal count and this byte.
fn journal(journaled: u64, byte: u8) -> Held {
    Held {
        journaled,
        byte,
        ..QUIET
    }
}

/// Copies with these journal counts and bytes.
fn journaled(counts: &[u64; 2], bytes: &[u8; 2]) -> [Held; 2] {
    [journal(counts[0], bytes[0]), journal(counts[1], bytes[1])]
}

fn check_sending(rt: &impl Abort, alloc: Global, number: usize, row: &Sending) -> Result<(), Fail> {
    let scene = Scene {
        status: row.0,
        written: row.1,
        hung: row.2,
        away: row.3,
        accepted: row.4,
        copies: sent(&row.5),
        ..SCENE
    };
    let wanted = Left {
        note: Ok(row.6),
        copies: sent(&row.8),
        accepted: row.7,
        taken: 0,
    };
    assert_eq!(rt; turned(alloc, &scene)?, Some(wanted), "row {number}");
    Ok(())
}

fn sends(rt: &impl Abort, alloc: Global, rows: &[Sending]) -> Result<(), Fail> {
    for (number, row) in rows.iter().enumerate() {
        check_sending(rt, alloc, number, row)?;
    }
    Ok(())
}

/// The index of the byte that is unread, and whether the port is closed behind it.
type Unread = (u32, bool);

fn check_taking(
    rt: &impl Abort,
    alloc: Global,
    unread: Unread,
    number: usize,
    row: &Taking,
) -> Result<(), Fail>
    requires { unread.0 < 32 }
{
    let (index, closed) = unread;
    let scene = Scene {
        taken: index,
        arrived: index + 1,
        closed,
        away: row.0,
        copies: journaled(&row.1, &row.2),
        ..SCENE
    };
    let wanted = Left {
        note: Ok(row.3),
        copies: journaled(&row.5, &row.6),
        accepted: 0,
        taken: row.4,
    };
    assert_eq!(rt; turned(alloc, &scene)?, Some(wanted), "row {number}");
    Ok(())
}

fn takes(
    rt: &impl Abort,
    alloc: Global,
    index: u32,
    closed: bool,
    rows: &[Taking],
) -> Result<(), Fail>
    requires { index < 32 }
{
    for (number, row) in rows.iter().enumerate() {
        check_taking(rt, alloc, (index, closed), number, row)?;
    }
    Ok(())
}

fn check_closing(rt: &impl Abort, alloc: Global, number: usize, row: &Closing) -> Result<(), Fail> {
    let scene = Scene {
        taken: 1,
        arrived: 1,
        closed: row.0,
        away: row.1,
        copies: closed(&row.2),
        ..SCENE
    };
    let wanted = Left {
        note: Ok(row.3),
        copies: closed(&row.4),
        accepted: 0,
        taken: 1,
    };
    assert_eq!(rt; turned(alloc, &scene)?, Some(wanted), "row {number}");
    Ok(())
}

fn closes(rt: &impl Abort, alloc: Global, rows: &[Closing]) -> Result<(), Fail> {
    for (number, row) in rows.iter().enumerate() {
        check_closing(rt, alloc, number, row)?;
    }
    Ok(())
}

#[test]
fn bytes_are_sent_and_the_sent_words_follow(rt: HostRuntime) -> Result<(), Fail> {
    sends(&rt, rt.alloc(), &SENDING)
}

#[test]
fn bytes_are_taken_before_a_line_is_closed(rt: HostRuntime) -> Result<(), Fail> {
    takes(&rt, rt.alloc(), 0, false, &TAKING)?;
    takes(&rt, rt.alloc(), 31, false, &LAST)?;
    takes(&rt, rt.alloc(), 0, true, &TAKING)?;
    takes(&rt, rt.alloc(), 31, true, &LAST)
}

#[test]
fn lines_are_closed(rt: HostRuntime) -> Result<(), Fail> {
    closes(&rt, rt.alloc(), &CLOSING)
}

// The sent words follow before a byte is taken.
#[test]
fn sent_words_come_before_unread_bytes(rt: HostRuntime) -> Result<(), Fail> {
    let scene = Scene {
        written: 1,
        accepted: 1,
        arrived: 1,
        closed: true,
        ..SCENE
    };
    let wanted = Left {
        note: Ok(MOVED),
        copies: sent(&[1, 0]),
        accepted: 1,
        taken: 0,
    };
    assert_eq!(rt; turned(rt.alloc(), &scene)?, Some(wanted));
    Ok(())
}

// A turn at a line that fails leaves all as it was.
fn check_fault(
    rt: &impl Abort,
    alloc: Global,
    up: bool,
    note: Result<IoNote, (LineNo, LineError)>,
) -> Result<(), Fail> {
    let scene = Scene {
        up,
        written: 1,
        fails: true,
        arrived: 1,
        closed: true,
        ..SCENE
    };
    let wanted = Left {
        note,
        copies: [QUIET, QUIET],
        accepted: 0,
        taken: 0,
    };
    assert_eq!(rt; turned(alloc, &scene)?, Some(wanted));
    Ok(())
}

// Neither a line that fails nor an element that is down changes anything.
#[test]
fn a_fault_leaves_all_as_it_was(rt: HostRuntime) -> Result<(), Fail> {
    let fault = Err((LineNo(0), LineError::Fault));
    check_fault(&rt, rt.alloc(), true, fault)?;
    check_fault(&rt, rt.alloc(), false, Ok(NOTHING))
}
