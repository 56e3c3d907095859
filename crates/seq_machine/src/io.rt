// A turn of an I/O element of the hardware.
ghost use Rattle.std.specs.Prelude.{◌≡◌, ◌<◌, ◌≤◌, [], ℕ, length, IfOk, OnOk, IfErr, OnErr, slice_index_or};
ghost use Rattle.seq_words.specs.Description.{line_count};
ghost use Rattle.seq_words.specs.declared.events.Event.TheVariants as event;
ghost use Rattle.seq_shelf.specs.Outlets.{views, marks};
ghost use Rattle.seq_shelf.specs.Rows.{AllAccept};
ghost use Rattle.seq_turns.specs.Events.{after_io, note};
ghost use Rattle.seq_turns.specs.Served.{noted};
ghost use Rattle.seq_machine.specs.Plain.{Outside, fresh_element, machine_of, outside_of, IsOutside, IsHardware};
ghost use Rattle.seq_machine.specs.Starting.{no_outside};
ghost use Rattle.seq_machine.specs.Serving.{MayServe, sent_by, Sends, stopped_at, StopsAt};

use crate::{Hardware, Note, Stop};
use seq_io::{IoNote, turn};
use seq_shelf::{Line, LineError, Outlet};
use seq_words::{Ioe, LineNo};

// The machine's note for an I/O element's.
fn noted(note: IoNote) -> Note
    ensures { result ≡ noted note }
{
    match note {
        IoNote::Nothing => Note::Nothing,
        IoNote::Sent(line, byte) => Note::Sent(line, byte),
        IoNote::Moved(_) => Note::Moved,
        IoNote::Taken(line) => Note::Taken(line),
    }
}

// How a run stops at an error of a line.
fn stopped_at(line: LineNo, error: LineError) -> Stop
    ensures { result ≡ stopped_at line error }
{
    match error {
        LineError::Fault => Stop::Line(line),
        LineError::NoMemory => Stop::NoMemory,
    }
}

impl Hardware {
    /// A turn of an I/O element, over the lines outside: the table's, with its note. The line under its cursor may fail where a
    /// byte is sent there; then nothing has changed.
    #[inline(never)]
    pub(crate) fn io_turn(&mut self, io: Ioe, lines: &mut Vec<Outlet>) -> Result<Note, Stop>
        requires hardware { IsHardware self.old }
        requires element { io.0 < self.old.desc.ios }
        requires serves { MayServe self.old.desc (machine_of self.old no_outside) io.0 }
        requires lines { line_count self.old.desc ≤ length lines.old.items }
        ensures machine { (o : Outside) → IsOutside (views line lines.old.items) (marks lines.old.items) o → OnOk result (machine_of self.new (outside_of (after_io self.old.desc (machine_of self.old o) io.0)) ≡ after_io self.old.desc (machine_of self.old o) io.0) }
        ensures note { (o : Outside) → IsOutside (views line lines.old.items) (marks lines.old.items) o → IfOk result (λ n. n ≡ note self.old.desc (machine_of self.old o) (event.Io io)) }
        ensures sent { (o : Outside) → IsOutside (views line lines.old.items) (marks lines.old.items) o → OnOk result (AllAccept (views line lines.old.items) (views line lines.new.items) (sent_by self.old.desc (machine_of self.old o) io.0)) }
        ensures outside { (o : Outside) → IsOutside (views line lines.old.items) (marks lines.old.items) o → OnOk result (IsOutside (views line lines.new.items) (marks lines.new.items) (outside_of (after_io self.old.desc (machine_of self.old o) io.0))) }
        ensures sending { (o : Outside) → IsOutside (views line lines.old.items) (marks lines.old.items) o → OnErr result (Sends self.old.desc (machine_of self.old o) io.0) }
        ensures cause { IfErr result (StopsAt (slice_index_or self.old.ios io.0 fresh_element).cursor (views line lines.old.items) (views line lines.new.items)) }
        ensures err { OnErr result (self.new ≡ self.old) }
        ensures err_lines { OnErr result (AllAccept (views line lines.old.items) (views line lines.new.items) (λ l. [])) }
        ensures hung { marks lines.new.items ≡ marks lines.old.items }
        ensures hardware { IsHardware self.new }
        ensures desc { self.new.desc ≡ self.old.desc }
    {
        let element = self.ios.at_mut(io.0 as usize);
        let (ports, memories) = (&mut self.ports, &mut self.memories);
        match turn(element, ports, memories, &self.layout, lines) {
            Ok(note) => Ok(noted(note)),
            Err((line, error)) => Err(stopped_at(line, error)),
        }
    }
}
