// Elements of every kind, and what a machine check names.
use crate::{Ioe, Me, Pe, Pid};

/// An element of the machine.
#[derive(Clone, Copy, Debug, PartialEq, Eq)]
pub enum Element {
    Processor(Pe),
    Memory(Me),
    Io(Ioe),
}

/// Why a machine can't go on when an element stops: a memory that isn't in service, or a process that awaits recovery.
#[derive(Clone, Copy, Debug, PartialEq, Eq)]
pub enum Blocker {
    Memory(Me),
    Process(Pid),
}
