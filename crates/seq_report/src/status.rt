ghost use Rattle.std.specs.Prelude.{◌≡◌};
ghost use Rattle.seq_report.specs.Numbers.{number_of};
ghost use Rattle.seq_report.specs.Texts.{is_reported, is_single};

use seq_words::{Blocker, Element, LineNo};

/// How a command ended.
#[derive(Clone, Copy, Debug, PartialEq, Eq)]
pub enum Status {
    Done,
    /// The words are no form of a command.
    Usage,
    /// A file violates a rule: the file's number in the order of loading from 0, the place, the rule.
    Refused {
        file: u32,
        place: u64,
        rule: u16,
    },
    /// There is no file with this number in the order of loading.
    Absent {
        file: u32,
    },
    /// An event of the schedule's item on this line was a machine check: the element stopped, and the cause kept the machine
    /// from going on.
    MachineCheck {
        line: u64,
        stopped: Element,
        cause: Blocker,
    },
    /// The schedule's `finish` on this line made all its rounds, and the machine isn't settled.
    OutOfTurns {
        line: u64,
    },
    ShelfFault,
    /// A text wasn't printed whole.
    SinkFault,
    ChronicleFault,
    LineFault {
        line: LineNo,
    },
    NoMemory,
}

/// The number with which the program ends.
pub fn number(status: &Status) -> u8
    ensures { result ≡ number_of status.now }
{
    match status {
        Status::Done => 0,
        Status::Usage => 2,
        Status::Refused { .. } => 3,
        Status::Absent { .. } => 3,
        Status::MachineCheck { .. } => 4,
        Status::OutOfTurns { .. } => 5,
        Status::ShelfFault => 6,
        Status::SinkFault => 6,
        Status::ChronicleFault => 6,
        Status::LineFault { .. } => 7,
        Status::NoMemory => 8,
    }
}

/// Whether a run ended so: then there is a report.
pub fn is_reported(status: &Status) -> bool
    ensures { result ≡ is_reported status.now }
{
    match status {
        Status::Done => true,
        Status::MachineCheck { .. } => true,
        Status::OutOfTurns { .. } => true,
        Status::LineFault { .. } => true,
        Status::ChronicleFault => true,
        _ => false,
    }
}

/// Whether there is a line of this status alone.
pub fn is_single(status: &Status) -> bool
    ensures { result ≡ is_single status.now }
{
    match status {
        Status::Refused { .. } => true,
        Status::Absent { .. } => true,
        Status::ShelfFault => true,
        _ => false,
    }
}
