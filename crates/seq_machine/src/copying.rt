// A memory that was repaired is copied, unit by unit, by the turns of processors that seek or run.
ghost use Rattle.std.specs.Prelude.{◌≡◌, ℕ, ◌<◌, length, slice_index_or, false, is_some};
ghost use Rattle.std.specs.Option.{option_map};
ghost use Rattle.seq_layout.specs.Copies.{Matches, copies};
ghost use Rattle.seq_io.specs.Turns as element_turn;
ghost use Rattle.seq_turns.specs.Reading.{is_copied, is_amid, copied_memory};
ghost use Rattle.seq_turns.specs.Processors.{someone_amid, copies_or_waits};
ghost use Rattle.seq_turns.specs.Events.{after_turn, note_of_turn};
ghost use Rattle.seq_reintegrate.specs.Needs.{CopyingNeeds};
ghost use Rattle.seq_machine.specs.Plain.{Outside, machine_of, processor_of, IsHardware};
ghost use Rattle.seq_machine.specs.Settling.{held_copies};
ghost use Rattle.seq_machine.specs.Processors.{is_copier, copied_by};

use crate::{Hardware, Note};
use seq_layout::Layout;
use seq_memory::{Memories, State};
use seq_reintegrate::{copy_unit, gate};
use seq_turns::Hand;
use seq_words::{Me, Pe};

/// How many processors a machine has at most.
const MOST_PROCESSORS: usize = 8;

// Whether a memory is to be copied.
#[tactic(auto, using(seq_ruling::proofs::States::state_is))]
#[inline(always)]
fn is_copied(at: u8, memories: &Memories, layout: &Layout) -> bool
    requires matches { Matches layout.now memories.now }
    requires memory { at < layout.now.memories }
    ensures { result ≡ is_copied ((copies layout.now memories.now).state at) }
{
    matches!(
        memories.elements.at(at as usize).state,
        State::Stale | State::Copying { .. }
    )
}

// The memory that is to be copied, if there is one.
#[tactic(auto, using(seq_ruling::proofs::Lowest::lowest_none))]
#[inline(always)]
fn copied_memory(memories: &Memories, layout: &Layout) -> Option<Me>
    requires { Matches layout.now memories.now }
    ensures { result ≡ option_map (λ i. record { 0 = i }) (element_turn.copied_memory layout.now (copies layout.now memories.now)) }
{
    for at in 0..layout.memory_count() {
        if is_copied(at, memories, layout) {
            return Some(Me(at));
        }
    }
    None
}

// Whether a processor copies a memory, where one is to be copied.
#[inline(always)]
fn is_copier(hand: &Hand) -> bool
    ensures { result ≡ is_copier hand.now }
{
    matches!(hand, Hand::Seek | Hand::Running(_))
}

// Whether a processor is amid an operation.
fn is_amid(hand: &Hand) -> bool
    ensures { result ≡ is_amid hand.now }
{
    match hand {
        Hand::Down | Hand::Seek | Hand::Running(_) => false,
        Hand::Claiming(_, _)
        | Hand::Acquiring(_, _, _)
        | Hand::Flushing(_, _, _, _)
        | Hand::Unlocking(_, _, _, _)
        | Hand::Leaving(_, _)
        | Hand::Recovering(_) => true,
    }
}

impl Hardware {
    /// The memory that a processor's turn is to copy, if there is one.
    #[inline(always)]
    pub(crate) fn copied_by(&self, pe: Pe) -> Option<Me>
        requires hardware { IsHardware self.now }
        requires processor { pe.0 < self.now.desc.processors }
        ensures { result ≡ option_map (λ i. record { 0 = i }) (copied_by (copied_memory self.now.desc (held_copies self.now)) (processor_of self.now pe.0).hand) }
    {
        if is_copier(&self.processors.at(pe.0 as usize).hand) {
            copied_memory(&self.memories, &self.layout)
        } else {
            None
        }
    }

    // Marks the processors that are amid an operation.
    fn marks(&self) -> [bool; MOST_PROCESSORS]
        requires { IsHardware self.now }
        ensures count { length result ≡ 8 }
        ensures each { (p : ℕ) → p < self.now.desc.processors → slice_index_or result p false ≡ is_amid (processor_of self.now p).hand }
    {
        let mut marks = [false; MOST_PROCESSORS];
        for at in 0..self.processors.len() {
            marks[at] = is_amid(&self.processors.at(at).hand);
        }
        marks
    }

    // Whether a processor is amid an operation.
    fn is_busy(&self) -> bool
        requires { IsHardware self.now }
        ensures { (o : Outside) → result ≡ is_some (someone_amid self.now.desc (machine_of self.now o)) }
    {
        let marks = self.marks();
        gate(&marks[..self.processors.len()]).is_some()
    }

    /// The turn of a processor where this memory is to be copied: the next unit of it is, unless a processor is amid an operation.
    #[inline(never)]
    pub(crate) fn copy_or_hold(&mut self, me: Me) -> Note
        requires hardware { IsHardware self.old }
        requires needs { CopyingNeeds self.old.layout (held_copies self.old) me.0 }
        ensures machine { (o : Outside) (p : ℕ) → machine_of self.new o ≡ after_turn self.old.desc (machine_of self.old o) p (copies_or_waits (machine_of self.old o) p me.0 (someone_amid self.old.desc (machine_of self.old o))) }
        ensures note { (o : Outside) (p : ℕ) → result ≡ note_of_turn p (copies_or_waits (machine_of self.old o) p me.0 (someone_amid self.old.desc (machine_of self.old o))) }
        ensures hardware { IsHardware self.new }
        ensures desc { self.new.desc ≡ self.old.desc }
    {
        if self.is_busy() {
            return Note::Held;
        }
        copy_unit(me, &mut self.memories, &self.layout);
        Note::Copied(me)
    }
}
