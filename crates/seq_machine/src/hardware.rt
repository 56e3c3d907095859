use seq_cache::Cache;
use seq_io::{IoElement, PortState};
use seq_layout::Layout;
use seq_memory::Memories;
use seq_turns::Hand;
use seq_words::{Blocker, Element, Items, LineNo, MachineDesc};

/// A processor: what it is about, and the blocks that it has changed since the last checkpoint.
#[derive(Drop)]
pub struct Processor {
    pub hand: Hand,
    pub cache: Cache,
}

/// The machine of a description. `scan` has for each processor the process that it looks at next, `incarnations` how often it has
/// stopped. There is a port for each line.
#[derive(Drop)]
pub struct Hardware {
    pub processors: Items<Processor>,
    pub memories: Memories,
    pub ios: Items<IoElement>,
    pub scan: Items<u8>,
    pub incarnations: Items<u64>,
    pub ports: Items<PortState>,
    pub(crate) desc: MachineDesc,
    pub(crate) layout: Layout,
}

/// Why an event ends the run.
#[derive(Clone, Copy, Debug, PartialEq, Eq)]
pub enum Stop {
    /// A machine check: this element stopped, and what is named after it kept the machine from going on.
    Check(Element, Blocker),
    /// The line has a fault.
    Line(LineNo),
    /// The chronicle has a fault.
    Chronicle,
    /// The line or the chronicle was refused memory.
    NoMemory,
}
