use seq_words::{Bytes, Element, Event, LineNo};

/// What a line of a schedule stands for.
#[derive(Drop)]
pub enum Script {
    /// One event.
    One(Event),
    /// These bytes arrive on the line, one event each.
    Bytes(LineNo, Bytes),
    /// So many turns of a processor or I/O element, 1 to 10,000,000.
    Turns(Element, u32),
    /// So many rounds, 1 to 10,000,000: in each a turn of each processor, then of each I/O element, in ascending order.
    Rounds(u32),
    /// Rounds until the machine is settled, at most so many, 1 to 10,000,000.
    Finish(u32),
}

/// An item of a schedule.
#[derive(Drop)]
pub struct Item {
    /// The number of its line, from 1.
    pub line: u64,
    pub script: Script,
}
