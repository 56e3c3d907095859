// A turn of a processor.
ghost use Rattle.std.specs.Prelude.{◌≡◌, ℕ, ◌<◌, ◌≤◌, ◌^◌, [], false, length, slice_index, None};
ghost use Rattle.seq_words.specs.Description.{IsDescription};
ghost use Rattle.seq_layout.specs.Shapes.{shape_of};
ghost use Rattle.seq_layout.specs.Copies.{Copies, Matches, copies};
ghost use Rattle.seq_locks.specs.Turns.{word_at};
ghost use Rattle.seq_process.specs.declared.running.Running.{Running};
ghost use Rattle.seq_turns.specs.declared.hand.RecoveryAt.{RecoveryAt};
ghost use Rattle.seq_turns.specs.declared.hand.Hand.TheVariants as hand;
ghost use Rattle.seq_turns.specs.Machines.{copies_after};
ghost use Rattle.seq_turns.specs.Machines.Turn.{Moves};
ghost use Rattle.seq_turns.specs.Recoveries.{recovery_move};
ghost use Rattle.seq_turns.specs.Causes.{finds};
ghost use Rattle.seq_turns.specs.Processors.{runs, acquisition, turn};
ghost use Rattle.seq_turns.specs.Events.{happens};
ghost use Rattle.seq_turns.specs.Reading.{lock_word, copied_memory};
ghost use Rattle.seq_machine.specs.Here.{here, turned, change_of};
ghost use Rattle.seq_machine.specs.Needs.{MayBeSaved, IsOperating, NeedsOf, RecoveryNeeds};
ghost use Rattle.seq_machine.specs.Plain.{Outside, IsHardware, processor_of, machine_of, outside_of};
ghost use Rattle.seq_machine.specs.Settling.{held_copies};
ghost use Rattle.seq_machine.specs.Checking.{answer};
ghost use Rattle.seq_machine.specs.Processors.{RunNeeds, TurnNeeds, MayTurn, local_turn, hand_left, cache_left, note_left, processor_after, cursor_after, copied_by};

use crate::causes::found;
use crate::checks::answered;
use crate::operations::operate;
use crate::recovers::recovering;
use crate::runs::{Ran, acquire, run};
use crate::seeks::seek;
use crate::turned::Turned;
use crate::{Hardware, Note, Processor, Stop};
use seq_kernel::Cause;
use seq_layout::Layout;
use seq_memory::Memories;
use seq_turns::Hand;
use seq_words::{Element, Event, MachineDesc, Pe, Seg};
use std::mem;

impl Processor {
    /// Stops: what the processor is about is lost, and so are its changes.
    #[inline(never)]
    pub(crate) fn stop(&mut self)
        ensures hand { self.new.hand ≡ Hand.Down }
        ensures cache { self.new.cache ≡ record self.old.cache { changes = [] } }
    {
        self.hand = Hand::Down;
        self.cache.clear();
    }

    // Takes up what a turn left: the note, or None where the processor stops.
    fn take(&mut self, turned: Turned) -> Option<Note>
        ensures hand { self.new.hand ≡ hand_left turned }
        ensures cache { self.new.cache ≡ cache_left turned self.old.cache }
        ensures note { result ≡ note_left turned }
    {
        match turned {
            Turned::Moved(hand, note) => {
                self.hand = hand;
                Some(note)
            }
            Turned::Stopped => {
                self.stop();
                None
            }
        }
    }

    // A cause is found for the process that the processor runs, which releases the segments of the mask.
    #[inline(never)]
    fn leave(
        &mut self,
        cause: Cause,
        mask: u16,
        pe: Pe,
        incarnation: u64,
        desc: &MachineDesc,
    ) -> Option<Note>
        requires description { IsDescription desc.now }
        requires process { (r : Running) × (self.old.hand ≡ hand.Running r) × MayBeSaved r }
        ensures hand { (r : Running) (p : Copies) → self.old.hand ≡ hand.Running r → self.new.hand ≡ hand_left (turned (finds desc.now (here p self.old.cache incarnation) pe.0 r self.old.cache cause mask)) }
        ensures cache { (r : Running) (p : Copies) → self.old.hand ≡ hand.Running r → self.new.cache ≡ cache_left (turned (finds desc.now (here p self.old.cache incarnation) pe.0 r self.old.cache cause mask)) self.old.cache }
        ensures note { (r : Running) (p : Copies) → self.old.hand ≡ hand.Running r → result ≡ note_left (turned (finds desc.now (here p self.old.cache incarnation) pe.0 r self.old.cache cause mask)) }
    {
        let Hand::Running(running) = &self.hand else {
            unreachable!();
        };
        let turned = found(*running, cause, mask, pe, incarnation, desc);
        self.take(turned)
    }

    // The process that the processor runs acquires a segment: the first turn of the claim of its lock.
    #[inline(never)]
    fn acquire(
        &mut self,
        segment: Seg,
        pe: Pe,
        incarnation: u64,
        memories: &mut Memories,
        layout: &Layout,
        desc: &MachineDesc,
    ) -> Option<Note>
        requires description { IsDescription desc.now }
        requires layout { layout.now ≡ shape_of desc.now }
        requires matches { Matches layout.now memories.old }
        requires segment { segment.0 < length desc.now.segments }
        requires named { word_at (copies layout.now memories.old) (lock_word desc.now segment.0) false ≤ length desc.now.processes }
        requires process { (r : Running) × (self.old.hand ≡ hand.Running r) × MayBeSaved r }
        ensures hand { (r : Running) → self.old.hand ≡ hand.Running r → self.new.hand ≡ hand_left (turned (acquisition desc.now (here (copies layout.now memories.old) self.old.cache incarnation) pe.0 r segment)) }
        ensures cache { (r : Running) → self.old.hand ≡ hand.Running r → self.new.cache ≡ cache_left (turned (acquisition desc.now (here (copies layout.now memories.old) self.old.cache incarnation) pe.0 r segment)) self.old.cache }
        ensures note { (r : Running) → self.old.hand ≡ hand.Running r → result ≡ note_left (turned (acquisition desc.now (here (copies layout.now memories.old) self.old.cache incarnation) pe.0 r segment)) }
        ensures copies { (r : Running) → self.old.hand ≡ hand.Running r → copies layout.now memories.new ≡ copies_after (change_of (acquisition desc.now (here (copies layout.now memories.old) self.old.cache incarnation) pe.0 r segment)) (copies layout.now memories.old) }
        ensures matches { Matches layout.now memories.new }
    {
        let Hand::Running(running) = &self.hand else {
            unreachable!();
        };
        let turned = acquire(*running, segment, pe, incarnation, memories, layout, desc);
        self.take(turned)
    }

    // A turn of a processor that runs a process. The process stays where it stands, unless it leaves the processor.
    #[inline(always)]
    fn run(
        &mut self,
        pe: Pe,
        incarnation: u64,
        memories: &mut Memories,
        layout: &Layout,
        desc: &MachineDesc,
    ) -> Option<Note>
        requires description { IsDescription desc.now }
        requires layout { layout.now ≡ shape_of desc.now }
        requires matches { Matches layout.now memories.old }
        requires runs { (r : Running) × (self.old.hand ≡ hand.Running r) × RunNeeds desc.now (copies layout.now memories.old) r }
        ensures processor { (r : Running) → self.old.hand ≡ hand.Running r → self.new ≡ processor_after (runs desc.now (here (copies layout.now memories.old) self.old.cache incarnation) pe.0 r) self.old }
        ensures note { (r : Running) → self.old.hand ≡ hand.Running r → result ≡ note_left (turned (runs desc.now (here (copies layout.now memories.old) self.old.cache incarnation) pe.0 r)) }
        ensures copies { (r : Running) → self.old.hand ≡ hand.Running r → copies layout.now memories.new ≡ copies_after (change_of (runs desc.now (here (copies layout.now memories.old) self.old.cache incarnation) pe.0 r)) (copies layout.now memories.old) }
        ensures matches { Matches layout.now memories.new }
    {
        let Hand::Running(running) = &mut self.hand else {
            unreachable!();
        };
        match run(running, &mut self.cache, memories, layout, desc) {
            Ran::Goes => Some(Note::Ran(running.pid)),
            Ran::Leaves(cause, mask) => self.leave(cause, mask, pe, incarnation, desc),
            Ran::Acquires(segment) => {
                self.acquire(segment, pe, incarnation, memories, layout, desc)
            }
            Ran::Stops => {
                self.stop();
                None
            }
        }
    }

    // A turn of a processor that is amid an operation.
    #[inline(never)]
    fn operate(
        &mut self,
        pe: Pe,
        incarnation: u64,
        memories: &mut Memories,
        layout: &Layout,
        desc: &MachineDesc,
    ) -> Option<Note>
        requires description { IsDescription desc.now }
        requires layout { layout.now ≡ shape_of desc.now }
        requires matches { Matches layout.now memories.old }
        requires operating { IsOperating self.old.hand }
        requires needs { NeedsOf desc.now (copies layout.now memories.old) self.old.cache self.old.hand }
        ensures processor { self.new ≡ processor_after (turn desc.now (here (copies layout.now memories.old) self.old.cache incarnation) pe.0 self.old.hand) self.old }
        ensures note { result ≡ note_left (turned (turn desc.now (here (copies layout.now memories.old) self.old.cache incarnation) pe.0 self.old.hand)) }
        ensures copies { copies layout.now memories.new ≡ copies_after (change_of (turn desc.now (here (copies layout.now memories.old) self.old.cache incarnation) pe.0 self.old.hand)) (copies layout.now memories.old) }
        ensures matches { Matches layout.now memories.new }
    {
        let hand = mem::replace(&mut self.hand, Hand::Seek);
        let turned = operate(
            hand,
            pe,
            incarnation,
            &mut self.cache,
            memories,
            layout,
            desc,
        );
        self.take(turned)
    }

    // A turn of a processor that recovers a process.
    #[inline(never)]
    fn recover(&mut self, memories: &mut Memories, layout: &Layout, desc: &MachineDesc) -> Note
        requires description { IsDescription desc.now }
        requires layout { layout.now ≡ shape_of desc.now }
        requires matches { Matches layout.now memories.old }
        requires recovers { (r : RecoveryAt) × (self.old.hand ≡ hand.Recovering r) × RecoveryNeeds desc.now (copies layout.now memories.old) r }
        ensures processor { (r : RecoveryAt) (i pe : ℕ) → self.old.hand ≡ hand.Recovering r → self.new ≡ processor_after (Moves (recovery_move desc.now (here (copies layout.now memories.old) self.old.cache i) pe r)) self.old }
        ensures note { (r : RecoveryAt) (i pe : ℕ) → self.old.hand ≡ hand.Recovering r → result ≡ (recovery_move desc.now (here (copies layout.now memories.old) self.old.cache i) pe r).note }
        ensures copies { (r : RecoveryAt) (i pe : ℕ) → self.old.hand ≡ hand.Recovering r → copies layout.now memories.new ≡ copies_after (recovery_move desc.now (here (copies layout.now memories.old) self.old.cache i) pe r).change (copies layout.now memories.old) }
        ensures matches { Matches layout.now memories.new }
    {
        let hand = mem::replace(&mut self.hand, Hand::Seek);
        let Hand::Recovering(recovery) = hand else {
            unreachable!();
        };
        self.hand = recovering(recovery, memories, layout, desc);
        Note::Moved
    }

    /// A turn of a processor: its note, or None where it stops since the halves of its process differ. It copies no memory.
    #[inline(always)]
    pub fn turn(
        &mut self,
        cursor: &mut u8,
        pe: Pe,
        incarnations: &[u64],
        memories: &mut Memories,
        layout: &Layout,
        desc: &MachineDesc,
    ) -> Option<Note>
        requires description { IsDescription desc.now }
        requires layout { layout.now ≡ shape_of desc.now }
        requires matches { Matches layout.now memories.old }
        requires processors { length incarnations.now ≡ desc.now.processors }
        requires processor { pe.0 < desc.now.processors }
        requires incarnation { slice_index incarnations.now pe.0 < 2 ^ 48 }
        requires needs { TurnNeeds desc.now (copies layout.now memories.old) self.old.cache cursor.old self.old.hand }
        ensures processor { self.new ≡ processor_after (local_turn desc.now (copies layout.now memories.old) self.old.cache (slice_index incarnations.now) cursor.old pe.0 self.old.hand) self.old }
        ensures note { result ≡ note_left (turned (local_turn desc.now (copies layout.now memories.old) self.old.cache (slice_index incarnations.now) cursor.old pe.0 self.old.hand)) }
        ensures copies { copies layout.now memories.new ≡ copies_after (change_of (local_turn desc.now (copies layout.now memories.old) self.old.cache (slice_index incarnations.now) cursor.old pe.0 self.old.hand)) (copies layout.now memories.old) }
        ensures cursor { cursor.new ≡ cursor_after (local_turn desc.now (copies layout.now memories.old) self.old.cache (slice_index incarnations.now) cursor.old pe.0 self.old.hand) cursor.old }
        ensures matches { Matches layout.now memories.new }
    {
        let incarnation = incarnations[pe.0 as usize];
        match &self.hand {
            Hand::Down => Some(Note::Nothing),
            Hand::Seek => Some(seek(
                &mut self.hand,
                cursor,
                pe,
                incarnations,
                memories,
                layout,
                desc,
            )),
            Hand::Running(_) => self.run(pe, incarnation, memories, layout, desc),
            Hand::Recovering(_) => Some(self.recover(memories, layout, desc)),
            Hand::Claiming(_, _)
            | Hand::Acquiring(_, _, _)
            | Hand::Flushing(_, _, _, _)
            | Hand::Unlocking(_, _, _, _)
            | Hand::Leaving(_, _) => self.operate(pe, incarnation, memories, layout, desc),
        }
    }
}

impl Hardware {
    // A turn of a processor by which no memory is copied. Where the halves of its process differ, it stops, and all that names it
    // names one that isn't live. The stop may be a machine check.
    #[inline(always)]
    fn own_turn(&mut self, pe: Pe) -> Result<Note, Stop>
        requires hardware { IsHardware self.old }
        requires may { MayTurn self.old pe.0 }
        requires own { copied_by (copied_memory self.old.desc (held_copies self.old)) (processor_of self.old pe.0).hand ≡ None }
        ensures machine { (o : Outside) → machine_of self.new (outside_of (happens self.old.desc (machine_of self.old o) (Event.Processor pe))) ≡ happens self.old.desc (machine_of self.old o) (Event.Processor pe) }
        ensures answer { (o : Outside) → result ≡ answer self.old.desc (machine_of self.old o) (Event.Processor pe) }
        ensures hardware { IsHardware self.new }
        ensures desc { self.new.desc ≡ self.old.desc }
    {
        let at = pe.0 as usize;
        let processor = self.processors.at_mut(at);
        let cursor = self.scan.at_mut(at);
        let note = processor.turn(
            cursor,
            pe,
            self.incarnations.as_slice(),
            &mut self.memories,
            &self.layout,
            &self.desc,
        );
        match note {
            Some(note) => Ok(note),
            None => {
                let stopped = Element::Processor(pe);
                let blocker = self.blocker(stopped);
                let incarnation = self.incarnations.get(at);
                self.incarnations.set(at, incarnation + 1);
                answered(stopped, blocker)
            }
        }
    }

    // The same. A plain turn, of which a run mostly consists, goes by a way of its own.
    #[inline(always)]
    fn plain_or_own_turn(&mut self, pe: Pe) -> Result<Note, Stop>
        requires hardware { IsHardware self.old }
        requires may { MayTurn self.old pe.0 }
        requires own { copied_by (copied_memory self.old.desc (held_copies self.old)) (processor_of self.old pe.0).hand ≡ None }
        ensures machine { (o : Outside) → machine_of self.new (outside_of (happens self.old.desc (machine_of self.old o) (Event.Processor pe))) ≡ happens self.old.desc (machine_of self.old o) (Event.Processor pe) }
        ensures answer { (o : Outside) → result ≡ answer self.old.desc (machine_of self.old o) (Event.Processor pe) }
        ensures hardware { IsHardware self.new }
        ensures desc { self.new.desc ≡ self.old.desc }
    {
        match self.plain_turn(pe) {
            Some(pid) => Ok(Note::Ran(pid)),
            None => self.own_turn(pe),
        }
    }

    /// A turn of a processor. While a memory is to be copied, one that seeks or runs copies the next unit of it, or waits.
    #[inline(always)]
    pub(crate) fn processor_turn(&mut self, pe: Pe) -> Result<Note, Stop>
        requires hardware { IsHardware self.old }
        requires may { MayTurn self.old pe.0 }
        ensures machine { (o : Outside) → machine_of self.new (outside_of (happens self.old.desc (machine_of self.old o) (Event.Processor pe))) ≡ happens self.old.desc (machine_of self.old o) (Event.Processor pe) }
        ensures answer { (o : Outside) → result ≡ answer self.old.desc (machine_of self.old o) (Event.Processor pe) }
        ensures hardware { IsHardware self.new }
        ensures desc { self.new.desc ≡ self.old.desc }
    {
        match self.copied_by(pe) {
            Some(me) => Ok(self.copy_or_hold(me)),
            None => self.plain_or_own_turn(pe),
        }
    }
}
