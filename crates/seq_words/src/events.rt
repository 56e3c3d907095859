use crate::{Element, Half, Ioe, LineNo, Pe, Pid};

/// One event of a schedule, the atomic step of a machine.
#[derive(Clone, Copy, Debug, PartialEq, Eq)]
pub enum Event {
    /// A turn of a processor.
    Processor(Pe),
    /// A turn of an I/O element.
    Io(Ioe),
    /// A byte arrives on the line.
    Input(LineNo, u8),
    /// No further byte will arrive on the line.
    Close(LineNo),
    /// The element stops.
    Fail(Element),
    /// The element, which stopped, is put to work again.
    Repair(Element),
    /// The bits of a register of one half are inverted where the mask has a one: 1 to 31 for x1 to x31, 32 for the pc.
    Upset(Pe, Half, u8, u32),
    /// Nothing is sent on the line any more.
    Hangup(LineNo),
}

/// An entry of a history: the process `pid` takes `count` steps.
#[derive(Clone, Copy, Debug, PartialEq, Eq)]
pub struct Entry {
    pub pid: Pid,
    pub count: u32,
}

/// Why a reader gives no value.
#[derive(Clone, Copy, Debug, PartialEq, Eq)]
pub enum ReadError {
    /// The text violates a rule of its grammar. A place is a line from 1 in a text, and a byte from 0 in a binary file.
    Refused { place: u64, rule: u16 },
    NoMemory,
}
