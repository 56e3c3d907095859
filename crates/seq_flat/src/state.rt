use seq_words::{Bytes, Items, LineNo, Pid, Regs, Seg};

/// How a process stands.
#[derive(Clone, Copy, Debug, PartialEq, Eq)]
pub enum End {
    Live,
    /// It called exit with this code.
    Exited(u32),
    /// A trap ended it: the cause and the pc.
    Trapped(u8, u32),
}

/// A process of the flat machine.
#[derive(Drop)]
pub struct ProcessState {
    pub regs: Regs,
    pub end: End,
    /// Its private bytes, from address 0 on.
    pub bytes: Bytes,
}

/// A shared segment of the flat machine.
#[derive(Drop)]
pub struct SegmentState {
    pub bytes: Bytes,
    /// The process that holds it.
    pub owner: Option<Pid>,
}

/// A line of the flat machine, as its owner has used it.
#[derive(Drop)]
pub struct LineState {
    /// How many bytes of the input were read.
    pub read: u64,
    /// The bytes that were written.
    pub output: Bytes,
}

/// The state of the flat machine: plain lists, by the numbers of processes, segments and lines.
#[derive(Drop)]
pub struct FlatState {
    pub processes: Items<ProcessState>,
    pub segments: Items<SegmentState>,
    pub lines: Items<LineState>,
}

/// What the description lets a process use.
#[derive(Clone, Copy, Debug)]
pub struct Rights {
    /// The lines that it owns: bit l stands for line l.
    pub lines: u16,
    /// The segments that it may acquire: bit s stands for segment s.
    pub grants: u16,
}

/// Why a process can take no step.
#[derive(Clone, Copy, Debug, PartialEq, Eq)]
pub enum Waits {
    /// Another process holds the segment.
    Lock(Seg, Pid),
    /// The next byte of the line hasn't arrived, and the line isn't closed.
    Input(LineNo),
    /// It has ended, or the description has no such process.
    Ended,
}

/// Why a step wasn't made.
#[derive(Clone, Copy, Debug, PartialEq, Eq)]
pub enum StepError {
    /// The process isn't enabled.
    Waits(Waits),
    NoMemory,
}
