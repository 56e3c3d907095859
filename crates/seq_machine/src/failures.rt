// The failures of elements, and their repairs.
ghost use Rattle.std.specs.Prelude.{◌≡◌, ◌<◌};
ghost use Rattle.seq_words.specs.declared.kinds.Element.TheVariants as element;
ghost use Rattle.seq_words.specs.declared.events.Event.TheVariants as event;
ghost use Rattle.seq_turns.specs.Allowed.{FailureAllowed, RepairAllowed};
ghost use Rattle.seq_turns.specs.Events.{is_down, happens};
ghost use Rattle.seq_stands.specs.FitNumbers.{NumbersFit};
ghost use Rattle.seq_machine.specs.Plain.{Outside, machine_of, IsHardware};
ghost use Rattle.seq_machine.specs.Starting.{no_outside};
ghost use Rattle.seq_machine.specs.Settling.{held_copies};
ghost use Rattle.seq_machine.specs.Checking.{MayBeChecked, answer};

use crate::checks::answered;
use crate::{Hardware, Note, Stop};
use seq_turns::Hand;
use seq_words::{Element, Me, Pe};

// Whether a processor is down.
fn is_down(hand: &Hand) -> bool
    ensures { result ≡ is_down hand.now }
{
    matches!(hand, Hand::Down)
}

impl Hardware {
    // A processor fails: it loses what it is about and its changes, and all that names it names one that isn't live. One that is
    // down stays so.
    fn fail_processor(&mut self, pe: Pe) -> Result<Note, Stop>
        requires hardware { IsHardware self.old }
        requires processor { pe.0 < self.old.desc.processors }
        requires numbers { NumbersFit self.old.desc (machine_of self.old no_outside) }
        requires checked { MayBeChecked self.old.desc (held_copies self.old) }
        ensures happens { (o : Outside) → machine_of self.new o ≡ happens self.old.desc (machine_of self.old o) (event.Fail (element.Processor pe)) }
        ensures answer { (o : Outside) → result ≡ answer self.old.desc (machine_of self.old o) (event.Fail (element.Processor pe)) }
        ensures rest { self.new ≡ record self.old { processors = self.new.processors; incarnations = self.new.incarnations } }
        ensures hardware { IsHardware self.new }
    {
        let at = pe.0 as usize;
        if is_down(&self.processors.at(at).hand) {
            return Ok(Note::Made);
        }
        let stopped = Element::Processor(pe);
        let blocker = self.blocker(stopped);
        self.processors.at_mut(at).stop();
        let incarnation = self.incarnations.get(at);
        self.incarnations.set(at, incarnation + 1);
        answered(stopped, blocker)
    }

    // A processor that is down is repaired, and seeks.
    fn repair_processor(&mut self, pe: Pe)
        requires hardware { IsHardware self.old }
        requires allowed { RepairAllowed self.old.desc (machine_of self.old no_outside) (element.Processor pe) }
        ensures happens { (o : Outside) → machine_of self.new o ≡ happens self.old.desc (machine_of self.old o) (event.Repair (element.Processor pe)) }
        ensures rest { self.new ≡ record self.old { processors = self.new.processors } }
        ensures hardware { IsHardware self.new }
    {
        self.processors.at_mut(pe.0 as usize).hand = Hand::Seek;
    }

    // A memory fails, and all that it keeps is lost.
    fn fail_memory(&mut self, me: Me) -> Result<Note, Stop>
        requires hardware { IsHardware self.old }
        requires memory { me.0 < self.old.desc.memories }
        requires checked { MayBeChecked self.old.desc (held_copies self.old) }
        ensures happens { (o : Outside) → machine_of self.new o ≡ happens self.old.desc (machine_of self.old o) (event.Fail (element.Memory me)) }
        ensures answer { (o : Outside) → result ≡ answer self.old.desc (machine_of self.old o) (event.Fail (element.Memory me)) }
        ensures rest { self.new ≡ record self.old { memories = self.new.memories } }
        ensures hardware { IsHardware self.new }
    {
        let stopped = Element::Memory(me);
        let blocker = self.blocker(stopped);
        self.layout.fail(&mut self.memories, me);
        answered(stopped, blocker)
    }

    // A memory that is down is repaired, and is to be copied.
    fn repair_memory(&mut self, me: Me)
        requires hardware { IsHardware self.old }
        requires allowed { RepairAllowed self.old.desc (machine_of self.old no_outside) (element.Memory me) }
        ensures happens { (o : Outside) → machine_of self.new o ≡ happens self.old.desc (machine_of self.old o) (event.Repair (element.Memory me)) }
        ensures rest { self.new ≡ record self.old { memories = self.new.memories } }
        ensures hardware { IsHardware self.new }
    {
        self.layout.repair(&mut self.memories, me);
    }

    /// An element fails. That a processor stops, or a memory fails, may be a machine check.
    #[inline(never)]
    pub(crate) fn fail(&mut self, element: Element) -> Result<Note, Stop>
        requires hardware { IsHardware self.old }
        requires allowed { FailureAllowed self.old.desc (machine_of self.old no_outside) element }
        requires numbers { NumbersFit self.old.desc (machine_of self.old no_outside) }
        requires checked { MayBeChecked self.old.desc (held_copies self.old) }
        ensures happens { (o : Outside) → machine_of self.new o ≡ happens self.old.desc (machine_of self.old o) (event.Fail element) }
        ensures answer { (o : Outside) → result ≡ answer self.old.desc (machine_of self.old o) (event.Fail element) }
        ensures hardware { IsHardware self.new }
        ensures desc { self.new.desc ≡ self.old.desc }
    {
        match element {
            Element::Processor(pe) => self.fail_processor(pe),
            Element::Memory(me) => self.fail_memory(me),
            Element::Io(io) => Ok(self.fail_io(io)),
        }
    }

    /// An element is repaired.
    #[inline(never)]
    pub(crate) fn repair(&mut self, element: Element)
        requires hardware { IsHardware self.old }
        requires allowed { RepairAllowed self.old.desc (machine_of self.old no_outside) element }
        ensures happens { (o : Outside) → machine_of self.new o ≡ happens self.old.desc (machine_of self.old o) (event.Repair element) }
        ensures hardware { IsHardware self.new }
        ensures desc { self.new.desc ≡ self.old.desc }
    {
        match element {
            Element::Processor(pe) => self.repair_processor(pe),
            Element::Memory(me) => self.repair_memory(me),
            Element::Io(io) => self.repair_io(io),
        }
    }
}
