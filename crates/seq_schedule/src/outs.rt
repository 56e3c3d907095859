// When elements are out, by the events alone.
ghost use Rattle.std.specs.Prelude.{◌≤◌};

use crate::known::{Count, Known};
use crate::needed::turns_needed;
use crate::tables::{count_out, each_has, settle_all, someone_works, uncount_all};
use seq_words::{Element, Event, Ioe, MachineDesc, Me, Pe};

/// Which elements are out, and whether a memory was ever out together with another memory or with a processor.
#[derive(Drop)]
pub struct OutState {
    processor_count: u8,
    memory_count: u8,
    io_count: u8,
    // how many turns of each end an out
    needed: u32,
    processors: [Known; 8],
    memories: [Known; 8],
    ios: [Known; 4],
    covered: bool,
    ghost few_processors: { processor_count ≤ 8 },
    ghost few_memories: { memory_count ≤ 8 },
    ghost few_ios: { io_count ≤ 4 },
}

impl OutState {
    ghost use Rattle.std.specs.Prelude.{◌≡◌, ℕ, ◌+◌, ◌*◌, ◌/◌, ◌<◌, ◌↔◌, true, not, ◌&&◌, if◌then◌else◌, List, [], ◌∷◌};
    ghost use Rattle.seq_words.specs.Description.{IsDescription};
    ghost use Rattle.seq_words.specs.Names.{has_name};
    ghost use Rattle.seq_words.specs.declared.events.Event.{Event};
    ghost use Rattle.seq_words.specs.declared.description.MachineDesc.{MachineDesc};
    ghost use Rattle.seq_schedule.specs.Outs.{turns_needed, is_out, IsCovered};
    ghost use Rattle.seq_schedule.specs.Keeping.{told, names_element, Keeps};
    ghost use Rattle.seq_schedule.specs.Steps.{told_reached, told_together, SetsOne, SetsAll, Advances, Settles};
    ghost use Rattle.seq_schedule.specs.Rules.{same_element};
    ghost use Rattle.seq_schedule.specs.Known.{turned, uncounted};
    ghost use Rattle.seq_schedule.specs.declared.known.Count.TheVariants.{First};

    /// No event is made yet: no element is out. It takes no memory.
    pub fn new(desc: &MachineDesc) -> OutState
        requires { IsDescription desc.now }
        ensures { Keeps desc.now [] result }
    {
        OutState {
            processor_count: desc.processors,
            memory_count: desc.memories,
            io_count: desc.ios,
            needed: turns_needed(desc),
            processors: [Known::fresh(); 8],
            memories: [Known::fresh(); 8],
            ios: [Known::fresh(); 4],
            covered: true,
        }
    }

    // What is known of an element.
    fn known(&self, element: Element) -> Known
        requires { has_name element ≡ true }
        ensures { result ≡ told self.now element }
    {
        match element {
            Element::Processor(Pe(number)) => self.processors[number as usize],
            Element::Memory(Me(number)) => self.memories[number as usize],
            Element::Io(Ioe(number)) => self.ios[number as usize],
        }
    }

    fn set(&mut self, element: Element, known: Known)
        requires { has_name element ≡ true }
        ensures { SetsOne self.old self.new element known }
    {
        match element {
            Element::Processor(Pe(number)) => self.processors[number as usize] = known,
            Element::Memory(Me(number)) => self.memories[number as usize] = known,
            Element::Io(Ioe(number)) => self.ios[number as usize] = known,
        }
    }

    // Whether some processor or I/O element isn't failed, and each that isn't has a count of so many turns.
    fn have_reached(&self, count: Count, turns: u32) -> bool
        ensures { result ≡ told_reached self.now count turns }
    {
        (someone_works(&self.processors, self.processor_count)
            || someone_works(&self.ios, self.io_count))
            && each_has(&self.processors, self.processor_count, count, turns)
            && each_has(&self.ios, self.io_count, count, turns)
    }

    // Whether a memory is out together with another memory or with a processor.
    fn are_out_together(&self) -> bool
        ensures { result ≡ told_together self.now }
    {
        let memories = count_out(&self.memories, self.memory_count);
        memories >= 2 || memories >= 1 && count_out(&self.processors, self.processor_count) >= 1
    }

    // All counts begin anew.
    fn uncount(&mut self)
        ensures { SetsAll self.old self.new (λ _ k. uncounted k) }
    {
        uncount_all(&mut self.processors);
        uncount_all(&mut self.memories);
        uncount_all(&mut self.ios);
    }

    // A turn of an element.
    fn take_turn(&mut self, element: Element)
        requires { has_name element ≡ true }
        ensures { SetsOne self.old self.new element (turned (told self.old element) (told_reached self.old First (self.old.needed / 2)) self.old.needed) }
    {
        let begun = self.have_reached(Count::First, self.needed / 2);
        let known = self.known(element).turned(begun, self.needed);
        self.set(element, known);
    }

    // A failure, a repair or an upset of an element: all counts begin anew.
    fn disturb(&mut self, element: Element, known: Known)
        requires { has_name element ≡ true }
        ensures { SetsAll self.old self.new (λ f k. uncounted (if same_element f element then known else k)) }
    {
        self.set(element, known);
        self.uncount();
    }

    // Counts an event, before it ends any out.
    fn advance(&mut self, event: &Event)
        requires { names_element event.now ≡ true }
        ensures { Advances self.old self.new event.now }
    {
        match *event {
            Event::Processor(pe) => self.take_turn(Element::Processor(pe)),
            Event::Io(io) => self.take_turn(Element::Io(io)),
            Event::Fail(element) => self.disturb(element, self.known(element).failed()),
            Event::Repair(element) => self.disturb(element, self.known(element).repaired()),
            Event::Upset(pe, _, _, _) => {
                let element = Element::Processor(pe);
                self.disturb(element, self.known(element).upset());
            }
            Event::Input(..) | Event::Close(_) | Event::Hangup(_) => {}
        }
    }

    // Ends the outs whose counts are met, and looks whether a memory is out together with another element.
    fn settle(&mut self)
        ensures { Settles self.old self.new }
    {
        let firsts = self.have_reached(Count::First, self.needed);
        let both = firsts && self.have_reached(Count::Second, self.needed / 2);
        settle_all(&mut self.processors, both);
        settle_all(&mut self.memories, firsts);
        settle_all(&mut self.ios, firsts);
        self.covered = self.covered && !self.are_out_together();
    }

    /// Counts an event. It takes the same time for every machine and every number of events, and no memory. No count goes above the
    /// number of turns that ends an out.
    pub fn after(&mut self, event: &Event)
        requires { names_element event.now ≡ true }
        ensures { (d : MachineDesc) (events : List Event) → Keeps d events self.old → Keeps d (event.now ∷ events) self.new }
    {
        self.advance(event);
        self.settle();
    }

    /// Whether an element is out.
    pub fn out(&self, element: Element) -> bool
        requires { has_name element ≡ true }
        ensures { (d : MachineDesc) (events : List Event) → Keeps d events self.now → result ≡ is_out d events element }
    {
        self.known(element).is_out()
    }

    /// Whether after none of the events so far a memory was out together with another memory or with a processor.
    pub fn covered(&self) -> bool
        ensures { (d : MachineDesc) (events : List Event) → Keeps d events self.now → (result ≡ true) ↔ IsCovered d events }
    {
        self.covered
    }
}
