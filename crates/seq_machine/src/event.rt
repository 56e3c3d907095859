// What the hardware makes of an event.
ghost use Rattle.std.specs.Prelude.{◌≡◌, ℕ, ◌≤◌, [], length, Option, Some, IfOk, OnOk, IfErr, OnErr, IsSome, List, None};
ghost use Rattle.seq_words.specs.Description.{line_count};
ghost use Rattle.seq_words.specs.declared.events.Event.TheVariants as event;
ghost use Rattle.seq_shelf.specs.Outlets.{views, marks};
ghost use Rattle.seq_shelf.specs.Rows.{AllAccept};
ghost use Rattle.seq_shelf.specs.Told.{Grows, LineView};
ghost use Rattle.seq_turns.specs.Allowed.{Allowed};
ghost use Rattle.seq_turns.specs.Events.{happens, note, check};
ghost use Rattle.seq_stands.specs.Fit.{Fit};
ghost use Rattle.seq_stands.specs.FitNumbers.{NumbersFit};
ghost use Rattle.seq_machine.specs.Plain.{Outside, machine_of, outside_of, IsOutside, IsHardware};
ghost use Rattle.seq_machine.specs.Starting.{no_outside};
ghost use Rattle.seq_machine.specs.Built.{IsBuilt};
ghost use Rattle.seq_machine.specs.Processors.{MayTurn};
ghost use Rattle.seq_machine.specs.Happening.{sent_in, entries_in, entries_of, ChronicleStops, CountsStay};
ghost use Rattle.seq_machine.specs.Checking.{machine_left, StaysUnlessCheck, EndsFor};

use crate::operations::commit_of;
use crate::{Hardware, Note, Stop};
use seq_shelf::{Chronicle, ChronicleError, Line, Outlet};
use seq_words::{Entry, Event, Pe};

// Tells an entry to the chronicle, if there is one.
#[tactic(auto, using(crate::proofs::Unchanged::grows_same))]
#[inline(always)]
fn tell<C: Chronicle>(entry: Option<Entry>, chronicle: &mut C) -> Result<(), Stop>
    ensures ok { OnOk result (Grows (C.chronicle chronicle.old).told (C.chronicle chronicle.new).told (entries_of entry)) }
    ensures err { OnErr result ((C.chronicle chronicle.new).told ≡ (C.chronicle chronicle.old).told) }
    ensures asked { OnErr result (IsSome entry) }
    ensures cause { IfErr result (ChronicleStops (C.chronicle chronicle.old) (C.chronicle chronicle.new)) }
    ensures counts { CountsStay (C.chronicle chronicle.old) (C.chronicle chronicle.new) }
{
    let Some(entry) = entry else {
        return Ok(());
    };
    match chronicle.append(entry.pid, entry.count) {
        Ok(()) => Ok(()),
        Err(ChronicleError::Fault) => Err(Stop::Chronicle),
        Err(ChronicleError::NoMemory) => Err(Stop::NoMemory),
    }
}

impl Hardware {
    // The entry that a processor's next turn commits, if it commits one.
    #[inline(always)]
    fn commit(&self, pe: Pe) -> Option<Entry>
        requires hardware { IsHardware self.now }
        requires may { MayTurn self.now pe.0 }
        ensures { (o : Outside) → entries_of result ≡ entries_in (note self.now.desc (machine_of self.now o) (event.Processor pe)) }
    {
        let processor = self.processors.at(pe.0 as usize);
        commit_of(&processor.hand, &processor.cache)
    }

    // A turn of a processor. What it commits is told to the chronicle first: where that fails, nothing has changed.
    #[inline(always)]
    fn told_turn<C: Chronicle>(&mut self, pe: Pe, chronicle: &mut C) -> Result<Note, Stop>
        requires hardware { IsHardware self.old }
        requires may { MayTurn self.old pe.0 }
        ensures machine { (o : Outside) → OnOk result (machine_of self.new (outside_of (happens self.old.desc (machine_of self.old o) (event.Processor pe))) ≡ happens self.old.desc (machine_of self.old o) (event.Processor pe)) }
        ensures note { (o : Outside) → IfOk result (λ n. n ≡ note self.old.desc (machine_of self.old o) (event.Processor pe)) }
        ensures unchecked { (o : Outside) → OnOk result (check self.old.desc (machine_of self.old o) (event.Processor pe) ≡ None) }
        ensures entries { IfOk result (λ n. Grows (C.chronicle chronicle.old).told (C.chronicle chronicle.new).told (entries_in n)) }
        ensures unsent { IfOk result (λ n. (l : ℕ) → sent_in n l ≡ []) }
        ensures stays { IfErr result (StaysUnlessCheck self.old self.new) }
        ensures stopped { (o : Outside) → IfErr result (λ s. machine_of self.new (outside_of (machine_left self.old.desc (machine_of self.old o) (event.Processor pe) s)) ≡ machine_left self.old.desc (machine_of self.old o) (event.Processor pe) s) }
        ensures err_entries { OnErr result ((C.chronicle chronicle.new).told ≡ (C.chronicle chronicle.old).told) }
        ensures cause { (o : Outside) (before after : List LineView) → IfErr result (EndsFor self.old.desc (machine_of self.old o) (event.Processor pe) before after (C.chronicle chronicle.old) (C.chronicle chronicle.new)) }
        ensures counts { CountsStay (C.chronicle chronicle.old) (C.chronicle chronicle.new) }
        ensures hardware { IsHardware self.new }
        ensures desc { self.new.desc ≡ self.old.desc }
    {
        let entry = self.commit(pe);
        tell(entry, chronicle)?;
        self.processor_turn(pe)
    }

    /// Makes an event, which may be made: the machine is that of the table then, with the table's note. The lines accept the byte of
    /// a note that says so and nothing else, and the chronicle gets the entry of a note that says so. The run ends where the line or
    /// the chronicle that the note would have asked has a fault, or was refused memory: then nothing has changed. It ends at a machine
    /// check too, where an element stops while something stands against it: then the stop stands. So far no line is hung up.
    #[inline(always)]
    pub fn event<C: Chronicle>(
        &mut self,
        event: Event,
        lines: &mut Vec<Outlet>,
        chronicle: &mut C,
    ) -> Result<Note, Stop>
        requires hardware { IsHardware self.old }
        requires fit { Fit self.old.desc (machine_of self.old no_outside) }
        requires numbers { NumbersFit self.old.desc (machine_of self.old no_outside) }
        requires built { IsBuilt event }
        requires allowed { Allowed self.old.desc (machine_of self.old no_outside) event }
        requires lines { line_count self.old.desc ≤ length lines.old.items }
        ensures machine { (o : Outside) → IsOutside (views line lines.old.items) (marks lines.old.items) o → OnOk result (machine_of self.new (outside_of (happens self.old.desc (machine_of self.old o) event)) ≡ happens self.old.desc (machine_of self.old o) event) }
        ensures note { (o : Outside) → IsOutside (views line lines.old.items) (marks lines.old.items) o → IfOk result (λ n. n ≡ note self.old.desc (machine_of self.old o) event) }
        ensures unchecked { (o : Outside) → IsOutside (views line lines.old.items) (marks lines.old.items) o → OnOk result (check self.old.desc (machine_of self.old o) event ≡ None) }
        ensures sent { IfOk result (λ n. AllAccept (views line lines.old.items) (views line lines.new.items) (sent_in n)) }
        ensures entries { IfOk result (λ n. Grows (C.chronicle chronicle.old).told (C.chronicle chronicle.new).told (entries_in n)) }
        ensures outside { (o : Outside) → IsOutside (views line lines.old.items) (marks lines.old.items) o → OnOk result (IsOutside (views line lines.new.items) (marks lines.new.items) (outside_of (happens self.old.desc (machine_of self.old o) event))) }

        // Where the run ends, the stop stands after a machine check, else nothing has changed.
        ensures stays { IfErr result (StaysUnlessCheck self.old self.new) }
        ensures stopped { (o : Outside) → IsOutside (views line lines.old.items) (marks lines.old.items) o → IfErr result (λ s. machine_of self.new (outside_of (machine_left self.old.desc (machine_of self.old o) event s)) ≡ machine_left self.old.desc (machine_of self.old o) event s) }
        ensures err_lines { OnErr result (AllAccept (views line lines.old.items) (views line lines.new.items) (λ l. [])) }
        ensures err_entries { OnErr result ((C.chronicle chronicle.new).told ≡ (C.chronicle chronicle.old).told) }
        ensures cause { (o : Outside) → IsOutside (views line lines.old.items) (marks lines.old.items) o → IfErr result (EndsFor self.old.desc (machine_of self.old o) event (views line lines.old.items) (views line lines.new.items) (C.chronicle chronicle.old) (C.chronicle chronicle.new)) }

        ensures counts { CountsStay (C.chronicle chronicle.old) (C.chronicle chronicle.new) }

        // What the next event needs is kept.
        ensures hung { marks lines.new.items ≡ marks lines.old.items }
        ensures number { length lines.new.items ≡ length lines.old.items }
        ensures hardware { IsHardware self.new }
        ensures desc { self.new.desc ≡ self.old.desc }
        ensures fit { OnOk result (Fit self.new.desc (machine_of self.new no_outside)) }
    {
        match event {
            Event::Processor(pe) => self.told_turn(pe, chronicle),
            Event::Io(io) => self.io_turn(io, lines),
            Event::Input(line, byte) => {
                self.input(line, byte);
                Ok(Note::Made)
            }
            Event::Close(line) => {
                self.close(line);
                Ok(Note::Made)
            }
            Event::Fail(element) => self.fail(element),
            Event::Repair(element) => {
                self.repair(element);
                Ok(Note::Made)
            }
            Event::Upset(pe, half, reg, mask) => {
                self.upset(pe, half, reg, mask);
                Ok(Note::Made)
            }
            Event::Hangup(_) => unreachable!(),
        }
    }
}
