// A turn of an I/O element: it serves the line under its cursor, and then moves the cursor on.
ghost use Rattle.std.specs.Prelude.{◌≡◌, ◌↔◌, ◌+◌, ◌<◌, ◌≤◌, ◌⊎◌, ℕ, [], length, get_or, slice_index_or, false, true, is_some, IsSome, Ok, Err, IfOk, OnOk, OnErr, IfErr};
ghost use Rattle.seq_shelf.specs.Causes.{Rose};
ghost use Rattle.seq_shelf.specs.Outlets.{views, marks};
ghost use Rattle.seq_shelf.specs.Rows.{AllAccept, line_at, on_line};
ghost use Rattle.seq_layout.specs.Copies.{Matches, copies};
ghost use Rattle.seq_io.specs.Changes.{copies_after};
ghost use Rattle.seq_io.specs.Lines.{no_port, outside};
ghost use Rattle.seq_io.specs.Bounds.{IsWired, AreReadable, IsPort, ArePorts, IsCursor};
ghost use Rattle.seq_io.specs.Duties.{tells_sent, may_send};
ghost use Rattle.seq_io.specs.Turns.{is_copied, copied_memory, rests, duty_at, turn_at, next_cursor, element_after, ports_after, bytes_of, DoesNothing};

use crate::duties::tell_sent;
use crate::lines::{has_steady_owner, outbox_byte, written};
use crate::{IoElement, IoNote, PortState};
use seq_layout::Layout;
use seq_memory::{Memories, State};
use seq_shelf::{Line, LineError, Outlet, accepted, send};
use seq_words::{Items, LineNo};

// Whether a memory is to be copied.
#[tactic(auto, using(seq_ruling::proofs::States::state_is))]
fn is_copied(at: u8, memories: &Memories, layout: &Layout) -> bool
    requires matches { Matches layout.now memories.now }
    requires memory { at < layout.now.memories }
    ensures { result ≡ is_copied ((copies layout.now memories.now).state at) }
{
    matches!(
        memories.elements.at(at as usize).state,
        State::Stale | State::Copying { .. }
    )
}

// Whether one of the memories is to be copied.
#[tactic(auto, using(seq_ruling::proofs::Lowest::lowest_none))]
fn one_is_copied(memories: &Memories, layout: &Layout) -> bool
    requires { Matches layout.now memories.now }
    ensures { result ≡ is_some (copied_memory layout.now (copies layout.now memories.now)) }
{
    for at in 0..layout.memory_count() {
        if is_copied(at, memories, layout) {
            return true;
        }
    }
    false
}

// Whether an element does nothing: it is down, or there is no line, or a memory is to be copied.
fn rests(io: &IoElement, memories: &Memories, layout: &Layout) -> bool
    requires { Matches layout.now memories.now }
    ensures { result ≡ rests layout.now (copies layout.now memories.now) io.now }
{
    !io.up || (layout.lines() == 0 || one_is_copied(memories, layout))
}

// The line that is served after this one.
fn next_cursor(cursor: u8, layout: &Layout) -> u8
    requires cursor { cursor < length layout.now.owners }
    requires few { length layout.now.owners ≤ 64 }
    ensures next { result ≡ next_cursor layout.now cursor }
    ensures within { result < length layout.now.owners }
{
    let next = cursor + 1;
    if next as usize == layout.lines() {
        0
    } else {
        next
    }
}

// Whether a line is hung up.
fn is_hung(lines: &[Outlet], at: usize) -> bool
    requires { at < length lines.now }
    ensures { result ≡ get_or (marks lines.now) at false }
{
    lines[at].hung
}

// Whether a byte is to be sent: the line isn't hung up, its owner is steady, and more is written than was accepted.
fn may_send(line: LineNo, accepted: u64, hung: bool, memories: &Memories, layout: &Layout) -> bool
    requires matches { Matches layout.now memories.now }
    requires wired { IsWired layout.now }
    requires readable { AreReadable layout.now (copies layout.now memories.now) }
    requires line { line.0 < length layout.now.owners }
    ensures { result ≡ may_send layout.now (copies layout.now memories.now) (record { port = no_port; accepted = accepted; hung = hung }) line.0 }
{
    (!hung && has_steady_owner(line, memories, layout))
        && accepted < written(line, memories, layout) as u64
}

// The duties that change the memories or the port of a line, where no byte is sent.
#[tactic(auto, using(crate::proofs::Served::port_is))]
fn settle(
    line: LineNo,
    accepted: u64,
    hung: bool,
    ports: &mut Items<PortState>,
    memories: &mut Memories,
    layout: &Layout,
) -> IoNote
    requires matches { Matches layout.now memories.old }
    requires wired { IsWired layout.now }
    requires readable { AreReadable layout.now (copies layout.now memories.old) }
    requires line { line.0 < length layout.now.owners }
    requires ports { ArePorts layout.now ports.old }
    ensures note { result ≡ (tells_sent layout.now (copies layout.now memories.old) (record { port = slice_index_or ports.old line.0 no_port; accepted = accepted; hung = hung }) line.0).note }
    ensures copies { copies layout.now memories.new ≡ copies_after (tells_sent layout.now (copies layout.now memories.old) (record { port = slice_index_or ports.old line.0 no_port; accepted = accepted; hung = hung }) line.0).change (copies layout.now memories.old) }
    ensures ports { ports.new ≡ ports_after ports.old line.0 (tells_sent layout.now (copies layout.now memories.old) (record { port = slice_index_or ports.old line.0 no_port; accepted = accepted; hung = hung }) line.0).taken }
    ensures matches { Matches layout.now memories.new }
{
    let port = ports.at_mut(line.0 as usize);
    tell_sent(line, accepted, hung, port, memories, layout)
}

// The first duty that applies at a line. After an error nothing has changed.
fn serve(
    served: LineNo,
    ports: &mut Items<PortState>,
    memories: &mut Memories,
    layout: &Layout,
    lines: &mut Vec<Outlet>,
) -> Result<IoNote, (LineNo, LineError)>
    requires matches { Matches layout.now memories.old }
    requires wired { IsWired layout.now }
    requires readable { AreReadable layout.now (copies layout.now memories.old) }
    requires line { served.0 < length layout.now.owners }
    requires ports { ArePorts layout.now ports.old }
    requires lines { length layout.now.owners ≤ length lines.old.items }
    ensures note { IfOk result (λ note. note ≡ (duty_at layout.now (copies layout.now memories.old) (views line lines.old.items) (marks lines.old.items) ports.old served.0).note) }
    ensures copies { OnOk result (copies layout.now memories.new ≡ copies_after (duty_at layout.now (copies layout.now memories.old) (views line lines.old.items) (marks lines.old.items) ports.old served.0).change (copies layout.now memories.old)) }
    ensures ports { OnOk result (ports.new ≡ ports_after ports.old served.0 (duty_at layout.now (copies layout.now memories.old) (views line lines.old.items) (marks lines.old.items) ports.old served.0).taken) }
    ensures bytes { OnOk result (AllAccept (views line lines.old.items) (views line lines.new.items) (on_line served.0 (bytes_of (duty_at layout.now (copies layout.now memories.old) (views line lines.old.items) (marks lines.old.items) ports.old served.0).sent))) }
    ensures sending { OnErr result (may_send layout.now (copies layout.now memories.old) (outside (views line lines.old.items) (marks lines.old.items) ports.old served.0) served.0 ≡ true) }
    ensures err_line { IfErr result (λ e. e.0 ≡ served) }
    ensures err_memories { OnErr result (memories.new ≡ memories.old) }
    ensures err_ports { OnErr result (ports.new ≡ ports.old) }
    ensures err_bytes { OnErr result (AllAccept (views line lines.old.items) (views line lines.new.items) (on_line served.0 [])) }
    ensures fault { result ≡ Err (served, LineError.Fault) → Rose (line_at (views line lines.old.items) served.0).faults (line_at (views line lines.new.items) served.0).faults }
    ensures memory { result ≡ Err (served, LineError.NoMemory) → Rose (line_at (views line lines.old.items) served.0).refusals (line_at (views line lines.new.items) served.0).refusals }
    ensures hung { marks lines.new.items ≡ marks lines.old.items }
    ensures matches { Matches layout.now memories.new }
{
    let at = served.0 as usize;
    let accepted = accepted(lines, at);
    let hung = is_hung(lines, at);
    if may_send(served, accepted, hung, memories, layout) {
        let byte = outbox_byte(served, accepted, memories, layout);
        return match send(lines, at, byte) {
            Ok(()) => Ok(IoNote::Sent(served, byte)),
            Err(error) => Err((served, error)),
        };
    }
    Ok(settle(served, accepted, hung, ports, memories, layout))
}

/// A turn of an I/O element. It does the first duty that applies at the line under its cursor, and moves the cursor to the next
/// line: it sends a byte that is written and not yet accepted; lets the sent words follow; takes a byte in from the port; closes
/// the line. There is a port for each line, and an outlet. It reads a fixed number of words and blocks, and takes memory only in
/// the line's `send`. After an error nothing has changed.
pub fn turn(
    io: &mut IoElement,
    ports: &mut Items<PortState>,
    memories: &mut Memories,
    layout: &Layout,
    lines: &mut Vec<Outlet>,
) -> Result<IoNote, (LineNo, LineError)>
    requires matches { Matches layout.now memories.old }
    requires wired { IsWired layout.now }
    requires readable { AreReadable layout.now (copies layout.now memories.old) }
    requires cursor { IsCursor layout.now io.old }
    requires ports { ArePorts layout.now ports.old }
    requires lines { length layout.now.owners ≤ length lines.old.items }

    // The duty is the defined one, and nothing else changes.
    ensures note { IfOk result (λ note. note ≡ (turn_at layout.now (copies layout.now memories.old) io.old (views line lines.old.items) (marks lines.old.items) ports.old).note) }
    ensures copies { OnOk result (copies layout.now memories.new ≡ copies_after (turn_at layout.now (copies layout.now memories.old) io.old (views line lines.old.items) (marks lines.old.items) ports.old).change (copies layout.now memories.old)) }
    ensures ports { OnOk result (ports.new ≡ ports_after ports.old io.old.cursor (turn_at layout.now (copies layout.now memories.old) io.old (views line lines.old.items) (marks lines.old.items) ports.old).taken) }
    ensures element { OnOk result (io.new ≡ element_after layout.now (copies layout.now memories.old) io.old) }
    ensures bytes { OnOk result (AllAccept (views line lines.old.items) (views line lines.new.items) (on_line io.old.cursor (bytes_of (turn_at layout.now (copies layout.now memories.old) io.old (views line lines.old.items) (marks lines.old.items) ports.old).sent))) }
    ensures nothing { result ≡ Ok IoNote.Nothing ↔ DoesNothing layout.now (copies layout.now memories.old) io.old (outside (views line lines.old.items) (marks lines.old.items) ports.old io.old.cursor) }

    // An error is the line's, of a byte that was to be sent there, and only where a count of that line rose.
    ensures sending { OnErr result (IsSome (turn_at layout.now (copies layout.now memories.old) io.old (views line lines.old.items) (marks lines.old.items) ports.old).sent) }
    ensures err_line { IfErr result (λ e. e.0.0 ≡ io.old.cursor) }
    ensures fault { (l : _) → result ≡ Err (l, LineError.Fault) → Rose (line_at (views line lines.old.items) l.0).faults (line_at (views line lines.new.items) l.0).faults }
    ensures memory { (l : _) → result ≡ Err (l, LineError.NoMemory) → Rose (line_at (views line lines.old.items) l.0).refusals (line_at (views line lines.new.items) l.0).refusals }
    ensures err_memories { OnErr result (memories.new ≡ memories.old) }
    ensures err_ports { OnErr result (ports.new ≡ ports.old) }
    ensures err_element { OnErr result (io.new ≡ io.old) }
    ensures err_bytes { OnErr result (AllAccept (views line lines.old.items) (views line lines.new.items) (on_line io.old.cursor [])) }

    ensures hung { marks lines.new.items ≡ marks lines.old.items }
    ensures matches { Matches layout.now memories.new }
    ensures cursor { IsCursor layout.now io.new }
    ensures ports_kept { ArePorts layout.now ports.new }
{
    if rests(io, memories, layout) {
        return Ok(IoNote::Nothing);
    }
    let note = serve(LineNo(io.cursor), ports, memories, layout, lines)?;
    io.cursor = next_cursor(io.cursor, layout);
    Ok(note)
}
