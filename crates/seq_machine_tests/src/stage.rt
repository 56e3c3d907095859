// Machines on which scenes are played, and how their events are made.
ghost use Rattle.std.specs.Prelude.{◌≡◌, ◌≢◌, ◌<◌, Bool, true, false, Some, IfOk};
ghost use Rattle.seq_words.specs.Description.{IsBetween, IsSize, IsDescription};
ghost use Rattle.seq_samples.specs.Samples.{process_of_size};
ghost use Rattle.seq_words.specs.declared.kinds.Element.TheVariants as element;
ghost use Rattle.seq_memory.specs.declared.element.State.TheVariants.{Down};
ghost use Rattle.seq_turns.specs.Allowed.{MayArrive, MayClose, FailureAllowed, RepairAllowed, MayStrike, StrikeAllowed, Allowed};
ghost use Rattle.seq_pair.specs.Halves.{other_half};
ghost use Rattle.seq_machine.specs.Plain.{machine_of, IsHardware};
ghost use Rattle.seq_machine.specs.Starting.{no_outside};
ghost use Rattle.seq_machine.specs.Ports.{port_of};
ghost use Rattle.seq_machine.specs.Settling.{held_copies};
ghost use Rattle.seq_machine.specs.Built.{IsBuilt};
ghost use Rattle.seq_machine.specs.Checking.{StaysUnlessCheck};
ghost use Rattle.seq_machine.specs.Ready.{IsReady};

use seq_machine::{Hand, Hardware, Note, Stop};
use seq_memory::State;
use seq_samples::lone_process;
use seq_shelf::{Chronicle, MemChronicle, MemLine, Outlet};
use seq_words::{
    Bytes, Element, Event, Half, Ioe, Items, LineNo, MachineDesc, Me, NoMemory, Pe, ProcessDesc,
    SegmentDesc,
};
use std::alloc::Global;
use std::process::Abort;
use std::test::Fail;

/// What an event comes to.
pub type Outcome = Result<Note, Stop>;

/// An event that is made so many times, and what each comes to.
pub type Row = (Event, u32, Outcome);

/// A machine of two memories with a cache of 16 blocks and journals of 32 bytes.
fn machine(
    processors: u8,
    ios: u8,
    quantum: u32,
    segments: Items<SegmentDesc>,
    processes: Items<ProcessDesc>,
) -> MachineDesc
    ensures { result ≡ record { processors = processors; memories = 2; ios = ios; cache = 16; quantum = quantum; journal = 32; segments = segments; processes = processes } }
{
    MachineDesc {
        processors,
        memories: 2,
        ios,
        cache: 16,
        quantum,
        journal: 32,
        segments,
        processes,
    }
}

/// A process that starts at its first byte, with the lines of one mask and the segments of the other.
fn process(
    alloc: Global,
    size: u32,
    image: &[u8],
    lines: u16,
    grants: u16,
) -> Result<ProcessDesc, NoMemory>
    ensures { IfOk result (λ p. p ≡ process_of_size size image.now lines grants) }
{
    Ok(ProcessDesc {
        size,
        entry: 0,
        image: Bytes::copy_of(alloc, image)?,
        lines,
        grants,
    })
}

/// A machine of so many processors and one I/O element, and of one process, which has line 0.
pub fn alone(
    rt: &impl Abort,
    alloc: Global,
    processors: u8,
    quantum: u32,
    size: u32,
    image: &[u8],
) -> Result<MachineDesc, Fail>
    requires processors { IsBetween 1 8 processors }
    requires quantum { IsBetween 1 10000 quantum }
    requires size { IsSize 65536 size }
    ensures described { IfOk result IsDescription }
{
    assert!(rt; image.len() <= size as usize);
    let only = process(alloc, size, image, 1, 0)?;
    let processes = vec![in alloc; only]?;
    Ok(machine(
        processors,
        1,
        quantum,
        Items::new(alloc),
        Items::from_vec(processes),
    ))
}

/// One process alone on three memories, the last of which keeps nothing of it.
pub fn without_units(alloc: Global) -> Result<MachineDesc, NoMemory>
    ensures { IfOk result IsDescription }
{
    let mut desc = lone_process(alloc)?;
    desc.memories = 3;
    Ok(desc)
}

/// A machine of one processor and two I/O elements, and of one process, which has lines 0 and 1.
pub fn with_two_lines(
    rt: &impl Abort,
    alloc: Global,
    size: u32,
    image: &[u8],
) -> Result<MachineDesc, Fail>
    requires size { IsSize 65536 size }
    ensures described { IfOk result IsDescription }
{
    assert!(rt; image.len() <= size as usize);
    let only = process(alloc, size, image, 3, 0)?;
    let processes = vec![in alloc; only]?;
    Ok(machine(1, 2, 1000, Items::new(alloc), Items::from_vec(processes)))
}

/// A machine of two processors and two I/O elements, with a segment of 32 bytes that two processes of the same image may acquire.
/// The first has line 0.
pub fn sharing(rt: &impl Abort, alloc: Global, size: u32, image: &[u8]) -> Result<MachineDesc, Fail>
    requires size { IsSize 65536 size }
    ensures described { IfOk result IsDescription }
{
    assert!(rt; image.len() <= size as usize);
    let segment = SegmentDesc {
        size: 32,
        first: Bytes::new(alloc),
    };
    let first = process(alloc, size, image, 1, 1)?;
    let second = process(alloc, size, image, 0, 1)?;
    let processes = vec![in alloc; first, second]?;
    let segments = vec![in alloc; segment]?;
    Ok(machine(
        2,
        2,
        1000,
        Items::from_vec(segments),
        Items::from_vec(processes),
    ))
}

// The list of the first call alone, or of no call.
fn failing(alloc: Global, first: bool) -> Result<Bytes, NoMemory> {
    if first {
        Bytes::copy_of(alloc, &[0])
    } else {
        Ok(Bytes::new(alloc))
    }
}

/// A line whose first call of `send` may fail.
pub fn line(alloc: Global, fails: bool) -> Result<MemLine, Fail> {
    let failing = failing(alloc, fails)?;
    Ok(MemLine::new(alloc, failing))
}

/// A chronicle whose first call of `append` may fail.
pub fn chronicle(alloc: Global, fails: bool) -> Result<MemChronicle, Fail> {
    let failing = failing(alloc, fails)?;
    Ok(MemChronicle::new(alloc, failing))
}

// Whether a half may be struck where this one was, if any: not where the other one was.
fn is_free_of(struck: Option<Half>, half: Half) -> bool
    ensures { result ≡ true → struck ≢ Some (other_half half) }
{
    match (struck, half) {
        (None, _) => true,
        (Some(Half::A), Half::A) => true,
        (Some(Half::A), Half::B) => false,
        (Some(Half::B), Half::A) => false,
        (Some(Half::B), Half::B) => true,
    }
}

// Whether a half may be struck of what a hand runs.
fn may_strike(hand: &Hand, half: Half) -> bool
    ensures { result ≡ true → MayStrike half hand.now }
{
    match hand {
        Hand::Running(running) => is_free_of(running.pair.struck, half),
        Hand::Acquiring(running, _, _) => is_free_of(running.pair.struck, half),
        Hand::Flushing(running, _, _, _) => is_free_of(running.pair.struck, half),
        Hand::Unlocking(running, _, _, _) => is_free_of(running.pair.struck, half),
        Hand::Down => true,
        Hand::Seek => true,
        Hand::Claiming(_, _) => true,
        Hand::Leaving(_, _) => true,
        Hand::Recovering(_) => true,
    }
}

/// A machine, a number above how many events it has made, and whether a machine check has ended its run.
#[derive(Drop)]
pub struct Stage {
    pub hardware: Hardware,
    pub made: u64,
    pub ended: bool,
}

/// The most events that a scene makes.
const MOST: u64 = 1_000_000;

// Whether the run ends by a machine check. Else nothing has changed.
fn is_check(stop: &Stop) -> bool
    ensures { (old new : Hardware) → result ≡ false → StaysUnlessCheck old new stop.now → new ≡ old }
{
    matches!(stop, Stop::Check(_, _))
}

impl Stage {
    /// The machine of a description at its start.
    pub fn new(alloc: Global, desc: MachineDesc) -> Result<Stage, Fail>
        requires { IsDescription desc }
        ensures { IfOk result (λ stage. IsReady stage.made stage.hardware) }
    {
        let hardware = Hardware::new(alloc, desc)?;
        Ok(Stage {
            hardware,
            made: 1,
            ended: false,
        })
    }

    // Whether a byte may arrive at a line.
    fn may_arrive(&self, line: LineNo) -> bool
        requires { IsHardware self.now.hardware }
        ensures { result ≡ true → MayArrive self.now.hardware.desc line.0 (port_of self.now.hardware line.0) }
    {
        if line.0 as usize >= self.hardware.ports.len() {
            return false;
        }
        let port = self.hardware.ports.at(line.0 as usize);
        port.arrived < self.hardware.desc().journal && !port.closed
    }

    // Whether the end of a line's input may be told.
    fn may_close(&self, line: LineNo) -> bool
        requires { IsHardware self.now.hardware }
        ensures { result ≡ true → MayClose self.now.hardware.desc line.0 (port_of self.now.hardware line.0) }
    {
        if line.0 as usize >= self.hardware.ports.len() {
            return false;
        }
        !self.hardware.ports.at(line.0 as usize).closed
    }

    // Whether a memory is down.
    #[tactic(auto, using(seq_ruling::proofs::States::state_is))]
    fn is_lost(&self, me: Me) -> bool
        requires hardware { IsHardware self.now.hardware }
        requires memory { me.0 < self.now.hardware.desc.memories }
        ensures lost { result ≡ true → (held_copies self.now.hardware).state me.0 ≡ Down }
        ensures kept { result ≡ false → (held_copies self.now.hardware).state me.0 ≢ Down }
    {
        let memory = self.hardware.memories.elements.at(me.0 as usize);
        matches!(memory.state, State::Down)
    }

    // Whether an I/O element works, where the machine has it.
    fn works(&self, io: Ioe) -> Option<bool>
        requires { IsHardware self.now.hardware }
        ensures { (up : Bool) → result ≡ Some up → (io.0 < self.now.hardware.desc.ios) × (((machine_of self.now.hardware no_outside).io io.0).up ≡ up) }
    {
        if io.0 < self.hardware.desc().ios {
            Some(self.hardware.ios.at(io.0 as usize).up)
        } else {
            None
        }
    }

    // Whether an element may fail.
    fn may_fail(&self, element: Element) -> bool
        requires { IsHardware self.now.hardware }
        ensures allowed { result ≡ true → FailureAllowed self.now.hardware.desc (machine_of self.now.hardware no_outside) element }
    {
        match element {
            Element::Processor(pe) => pe.0 < self.hardware.desc().processors,
            Element::Memory(me) => me.0 < self.hardware.desc().memories && !self.is_lost(me),
            Element::Io(io) => self.works(io) == Some(true),
        }
    }

    // Whether an element may be repaired.
    fn may_repair(&self, element: Element) -> bool
        requires { IsHardware self.now.hardware }
        ensures allowed { result ≡ true → RepairAllowed self.now.hardware.desc (machine_of self.now.hardware no_outside) element }
    {
        match element {
            Element::Processor(pe) => {
                pe.0 < self.hardware.desc().processors
                    && matches!(self.hardware.processors.at(pe.0 as usize).hand, Hand::Down)
            }
            Element::Memory(me) => me.0 < self.hardware.desc().memories && self.is_lost(me),
            Element::Io(io) => self.works(io) == Some(false),
        }
    }

    // Whether a half of what a processor runs may be struck.
    fn may_be_struck(&self, pe: Pe, half: Half, reg: u8) -> bool
        requires { IsHardware self.now.hardware }
        ensures { result ≡ true → StrikeAllowed self.now.hardware.desc (machine_of self.now.hardware no_outside) pe.0 half reg }
    {
        if pe.0 >= self.hardware.desc().processors || reg < 1 || reg > 32 {
            return false;
        }
        may_strike(&self.hardware.processors.at(pe.0 as usize).hand, half)
    }

    // Whether an event may be made.
    fn allows(&self, event: Event) -> bool
        requires { IsHardware self.now.hardware }
        ensures built { result ≡ true → IsBuilt event }
        ensures allowed { result ≡ true → Allowed self.now.hardware.desc (machine_of self.now.hardware no_outside) event }
    {
        match event {
            Event::Processor(pe) => pe.0 < self.hardware.desc().processors,
            Event::Io(io) => io.0 < self.hardware.desc().ios,
            Event::Input(line, _) => self.may_arrive(line),
            Event::Close(line) => self.may_close(line),
            Event::Fail(element) => self.may_fail(element),
            Event::Repair(element) => self.may_repair(element),
            Event::Upset(pe, half, reg, _) => self.may_be_struck(pe, half, reg),
            Event::Hangup(_) => false,
        }
    }

    // Makes an event of a run that hasn't ended.
    fn go<C: Chronicle>(
        &mut self,
        rt: &impl Abort,
        event: Event,
        lines: &mut Vec<Outlet>,
        chronicle: &mut C,
    ) -> Outcome
        requires { IsReady self.old.made self.old.hardware }
        ensures { self.new.ended ≡ false → IsReady self.new.made self.new.hardware }
    {
        assert!(rt; self.made < MOST && self.hardware.ports.len() <= lines.len());
        assert!(rt; self.allows(event));
        match self.hardware.event(event, lines, chronicle) {
            Ok(note) => {
                self.made += 1;
                Ok(note)
            }
            Err(stop) => {
                self.ended = is_check(&stop);
                Err(stop)
            }
        }
    }

    /// Makes an event. After a machine check no more may be made.
    pub fn make<C: Chronicle>(
        &mut self,
        rt: &impl Abort,
        event: Event,
        lines: &mut Vec<Outlet>,
        chronicle: &mut C,
    ) -> Outcome
        requires { self.old.ended ≡ false → IsReady self.old.made self.old.hardware }
        ensures { self.new.ended ≡ false → IsReady self.new.made self.new.hardware }
    {
        assert!(rt; !self.ended);
        self.go(rt, event, lines, chronicle)
    }
}
