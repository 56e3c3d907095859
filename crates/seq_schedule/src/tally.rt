// What a schedule has done so far, as far as later lines depend on it.
ghost use Rattle.std.specs.Prelude.{◌≡◌, ◌<◌, ◌≤◌, ◌+◌, ◌^◌, true, false, get_or, length, slice_set};
ghost use Rattle.seq_words.specs.Names.{has_name};
ghost use Rattle.seq_schedule.specs.Tallying.{no_tally, told_failed, told_struck, with_failed, with_struck, mended, after_event, after_state};

use seq_words::{Element, Event, Half, Ioe, LineNo, Me, Pe};

/// What a schedule has done so far.
#[derive(Drop)]
pub struct Tally {
    /// For each processor whether it is failed.
    pub failed_processors: [bool; 8],
    /// For each memory whether it is failed.
    pub failed_memories: [bool; 8],
    /// For each I/O element whether it is failed.
    pub failed_ios: [bool; 4],
    /// For each processor whether its half a was struck since its last repair.
    pub struck_a: [bool; 8],
    /// The same for its half b.
    pub struck_b: [bool; 8],
    /// For each line whether it is closed.
    pub closed: [bool; 16],
    /// For each line whether it is hung up.
    pub hung: [bool; 16],
    /// For each line how many bytes arrived.
    pub arrived: [u64; 16],
    /// The turns so far.
    pub turns: u64,
}

impl Tally {
    /// Nothing is done yet.
    pub fn new() -> Tally
        ensures { result ≡ no_tally }
    {
        Tally {
            failed_processors: [false; 8],
            failed_memories: [false; 8],
            failed_ios: [false; 4],
            struck_a: [false; 8],
            struck_b: [false; 8],
            closed: [false; 16],
            hung: [false; 16],
            arrived: [0; 16],
            turns: 0,
        }
    }

    /// Whether an element is failed.
    pub fn has_failed(&self, element: Element) -> bool
        requires { has_name element ≡ true }
        ensures { result ≡ told_failed self.now element }
    {
        match element {
            Element::Processor(Pe(number)) => self.failed_processors[number as usize],
            Element::Memory(Me(number)) => self.failed_memories[number as usize],
            Element::Io(Ioe(number)) => self.failed_ios[number as usize],
        }
    }

    /// Whether a half of a processor was struck since the processor's last repair.
    pub fn is_struck(&self, pe: Pe, half: Half) -> bool
        requires { pe.0 < 8 }
        ensures { result ≡ told_struck self.now pe half }
    {
        match half {
            Half::A => self.struck_a[pe.0 as usize],
            Half::B => self.struck_b[pe.0 as usize],
        }
    }

    /// Whether a line is closed.
    pub fn is_closed(&self, line: LineNo) -> bool
        requires { line.0 < 16 }
        ensures { result ≡ get_or self.now.closed line.0 false }
    {
        self.closed[line.0 as usize]
    }

    /// Whether a line is hung up.
    pub fn is_hung(&self, line: LineNo) -> bool
        requires { line.0 < 16 }
        ensures { result ≡ get_or self.now.hung line.0 false }
    {
        self.hung[line.0 as usize]
    }

    /// How many bytes arrived on a line.
    pub fn arrived_on(&self, line: LineNo) -> u64
        requires { line.0 < 16 }
        ensures { result ≡ get_or self.now.arrived line.0 0 }
    {
        self.arrived[line.0 as usize]
    }

    /// Notes that an element fails.
    pub fn fail(&mut self, element: Element)
        requires { has_name element ≡ true }
        ensures { self.new ≡ with_failed self.old element true }
    {
        match element {
            Element::Processor(Pe(number)) => self.failed_processors[number as usize] = true,
            Element::Memory(Me(number)) => self.failed_memories[number as usize] = true,
            Element::Io(Ioe(number)) => self.failed_ios[number as usize] = true,
        }
    }

    /// Notes that an element is repaired: no half of a repaired processor is struck.
    pub fn repair(&mut self, element: Element)
        requires { has_name element ≡ true }
        ensures { self.new ≡ mended self.old element }
    {
        match element {
            Element::Processor(Pe(number)) => {
                self.failed_processors[number as usize] = false;
                self.struck_a[number as usize] = false;
                self.struck_b[number as usize] = false;
            }
            Element::Memory(Me(number)) => self.failed_memories[number as usize] = false,
            Element::Io(Ioe(number)) => self.failed_ios[number as usize] = false,
        }
    }

    /// Notes that a half of a processor is struck.
    pub fn strike(&mut self, pe: Pe, half: Half)
        requires { pe.0 < 8 }
        ensures { self.new ≡ with_struck self.old pe half }
    {
        match half {
            Half::A => self.struck_a[pe.0 as usize] = true,
            Half::B => self.struck_b[pe.0 as usize] = true,
        }
    }

    /// Notes that a line is closed.
    pub fn close(&mut self, line: LineNo)
        requires { line.0 < 16 }
        ensures { self.new ≡ record self.old { closed = slice_set self.old.closed line.0 true } }
    {
        self.closed[line.0 as usize] = true;
    }

    /// Notes that a line is hung up.
    pub fn hang_up(&mut self, line: LineNo)
        requires { line.0 < 16 }
        ensures { self.new ≡ record self.old { hung = slice_set self.old.hung line.0 true } }
    {
        self.hung[line.0 as usize] = true;
    }

    /// Notes that bytes arrive on a line.
    pub fn arrive(&mut self, line: LineNo, count: u64)
        requires there { line.0 < 16 }
        requires room { get_or self.old.arrived line.0 0 + count < 2 ^ 64 }
        ensures { self.new ≡ record self.old { arrived = slice_set self.old.arrived line.0 (get_or self.old.arrived line.0 0 + count) } }
    {
        self.arrived[line.0 as usize] += count;
    }
}
