// The duties that change the memories and the port, in their order.
ghost use Rattle.std.specs.Prelude.{◌≡◌, ◌<◌, ◌*◌, ◌&&◌, length, slice_index};
ghost use Rattle.seq_layout.specs.Copies.{Matches, copies};
ghost use Rattle.seq_io.specs.Changes.{copies_after};
ghost use Rattle.seq_io.specs.Bounds.{IsWired, AreReadable, IsPort, journal_blocks};
ghost use Rattle.seq_io.specs.Lines.{no_port, is_at, differs};
ghost use Rattle.seq_io.specs.Duties.{goal, closes, takes, takes_or_closes, follows, tells_sent};

use crate::lines::{differs, has_steady_owner, is_at, is_below, journal, set_word, written};
use crate::{IoNote, PortState};
use seq_layout::Layout;
use seq_memory::Memories;
use seq_words::LineNo;

/// The words of a line: how many bytes its journal has, whether it is closed, and how many of its bytes were sent.
const JOURNALED: u32 = 0;

const CLOSED: u32 = 1;

const SENT: u32 = 2;

// Last: the line is closed, on the primary and then on the shadow.
fn close(line: LineNo, port: &PortState, memories: &mut Memories, layout: &Layout) -> IoNote
    requires matches { Matches layout.now memories.old }
    requires wired { IsWired layout.now }
    requires line { line.0 < length layout.now.owners }
    ensures note { result ≡ (closes layout.now (copies layout.now memories.old) port.now line.0).note }
    ensures copies { copies layout.now memories.new ≡ copies_after (closes layout.now (copies layout.now memories.old) port.now line.0).change (copies layout.now memories.old) }
    ensures matches { Matches layout.now memories.new }
{
    if !port.closed {
        return IoNote::Nothing;
    }
    if is_at(line, CLOSED, false, 0, memories, layout) {
        set_word(line, CLOSED, false, 1, memories, layout);
        return IoNote::Moved(line);
    }
    if is_at(line, CLOSED, true, 0, memories, layout) {
        set_word(line, CLOSED, true, 1, memories, layout);
        return IoNote::Moved(line);
    }
    IoNote::Nothing
}

// Whether a copy of the journal is to take the byte with this index: its count stands there, and what it holds there differs.
fn lacks(
    line: LineNo,
    shadow: bool,
    at: u32,
    byte: u8,
    memories: &Memories,
    layout: &Layout,
) -> bool
    requires matches { Matches layout.now memories.now }
    requires wired { IsWired layout.now }
    requires line { line.0 < length layout.now.owners }
    requires at { at < 32 * journal_blocks layout.now line.0 }
    ensures { result ≡ (is_at layout.now (copies layout.now memories.now) line.0 0 shadow at && differs layout.now (copies layout.now memories.now) line.0 shadow at byte) }
{
    is_at(line, JOURNALED, shadow, at as u64, memories, layout)
        && differs(line, shadow, at, byte, memories, layout)
}

// Third: the next unread byte goes to both journals, then both counts are raised, then the port gives the byte up.
fn take(line: LineNo, port: &mut PortState, memories: &mut Memories, layout: &Layout) -> IoNote
    requires matches { Matches layout.now memories.old }
    requires wired { IsWired layout.now }
    requires line { line.0 < length layout.now.owners }
    requires port { IsPort layout.now line.0 port.old }
    requires unread { port.old.taken < port.old.arrived }
    ensures note { result ≡ (takes layout.now (copies layout.now memories.old) port.old line.0 port.old.taken (slice_index port.old.store port.old.taken)).note }
    ensures copies { copies layout.now memories.new ≡ copies_after (takes layout.now (copies layout.now memories.old) port.old line.0 port.old.taken (slice_index port.old.store port.old.taken)).change (copies layout.now memories.old) }
    ensures port { port.new ≡ record port.old { taken = (takes layout.now (copies layout.now memories.old) port.old line.0 port.old.taken (slice_index port.old.store port.old.taken)).taken } }
    ensures matches { Matches layout.now memories.new }
{
    let at = port.taken;
    let byte = port.store.as_slice()[at as usize];
    if lacks(line, false, at, byte, memories, layout) {
        journal(line, false, at, byte, memories, layout);
        return IoNote::Moved(line);
    }
    if lacks(line, true, at, byte, memories, layout) {
        journal(line, true, at, byte, memories, layout);
        return IoNote::Moved(line);
    }
    if is_at(line, JOURNALED, false, at as u64, memories, layout) {
        set_word(line, JOURNALED, false, at as u64 + 1, memories, layout);
        return IoNote::Moved(line);
    }
    if is_at(line, JOURNALED, true, at as u64, memories, layout) {
        set_word(line, JOURNALED, true, at as u64 + 1, memories, layout);
        return IoNote::Moved(line);
    }
    port.taken = at + 1;
    IoNote::Taken(line)
}

fn take_or_close(
    line: LineNo,
    port: &mut PortState,
    memories: &mut Memories,
    layout: &Layout,
) -> IoNote
    requires matches { Matches layout.now memories.old }
    requires wired { IsWired layout.now }
    requires line { line.0 < length layout.now.owners }
    requires port { IsPort layout.now line.0 port.old }
    ensures note { result ≡ (takes_or_closes layout.now (copies layout.now memories.old) port.old line.0).note }
    ensures copies { copies layout.now memories.new ≡ copies_after (takes_or_closes layout.now (copies layout.now memories.old) port.old line.0).change (copies layout.now memories.old) }
    ensures port { port.new ≡ record port.old { taken = (takes_or_closes layout.now (copies layout.now memories.old) port.old line.0).taken } }
    ensures matches { Matches layout.now memories.new }
{
    if port.taken < port.arrived {
        take(line, port, memories, layout)
    } else {
        close(line, port, memories, layout)
    }
}

// How many bytes the sent words are to say.
fn goal(line: LineNo, accepted: u64, hung: bool, memories: &Memories, layout: &Layout) -> u64
    requires matches { Matches layout.now memories.now }
    requires wired { IsWired layout.now }
    requires readable { AreReadable layout.now (copies layout.now memories.now) }
    requires line { line.0 < length layout.now.owners }
    ensures { result ≡ goal layout.now (copies layout.now memories.now) (record { port = no_port; accepted = accepted; hung = hung }) line.0 }
{
    if hung && has_steady_owner(line, memories, layout) {
        written(line, memories, layout) as u64
    } else {
        accepted
    }
}

// Second: the sent words follow to this number, the primary's and then the shadow's.
fn follow(
    line: LineNo,
    told: u64,
    port: &mut PortState,
    memories: &mut Memories,
    layout: &Layout,
) -> IoNote
    requires matches { Matches layout.now memories.old }
    requires wired { IsWired layout.now }
    requires line { line.0 < length layout.now.owners }
    requires port { IsPort layout.now line.0 port.old }
    ensures note { result ≡ (follows layout.now (copies layout.now memories.old) port.old line.0 told).note }
    ensures copies { copies layout.now memories.new ≡ copies_after (follows layout.now (copies layout.now memories.old) port.old line.0 told).change (copies layout.now memories.old) }
    ensures port { port.new ≡ record port.old { taken = (follows layout.now (copies layout.now memories.old) port.old line.0 told).taken } }
    ensures matches { Matches layout.now memories.new }
{
    if is_below(line, SENT, false, told, memories, layout) {
        set_word(line, SENT, false, told, memories, layout);
        return IoNote::Moved(line);
    }
    if is_below(line, SENT, true, told, memories, layout) {
        set_word(line, SENT, true, told, memories, layout);
        return IoNote::Moved(line);
    }
    take_or_close(line, port, memories, layout)
}

/// What comes after the first duty, the sending of a byte: the sent words follow, and then a byte is taken or the line is closed.
pub fn tell_sent(
    line: LineNo,
    accepted: u64,
    hung: bool,
    port: &mut PortState,
    memories: &mut Memories,
    layout: &Layout,
) -> IoNote
    requires matches { Matches layout.now memories.old }
    requires wired { IsWired layout.now }
    requires line { line.0 < length layout.now.owners }
    requires readable { AreReadable layout.now (copies layout.now memories.old) }
    requires port { IsPort layout.now line.0 port.old }
    ensures note { result ≡ (tells_sent layout.now (copies layout.now memories.old) (record { port = port.old; accepted = accepted; hung = hung }) line.0).note }
    ensures copies { copies layout.now memories.new ≡ copies_after (tells_sent layout.now (copies layout.now memories.old) (record { port = port.old; accepted = accepted; hung = hung }) line.0).change (copies layout.now memories.old) }
    ensures port { port.new ≡ record port.old { taken = (tells_sent layout.now (copies layout.now memories.old) (record { port = port.old; accepted = accepted; hung = hung }) line.0).taken } }
    ensures matches { Matches layout.now memories.new }
{
    let told = goal(line, accepted, hung, memories, layout);
    follow(line, told, port, memories, layout)
}
