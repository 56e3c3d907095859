use seq_machine::Stop;

/// How the course of a schedule ended.
#[derive(Clone, Copy, Debug, PartialEq, Eq)]
pub enum Ending {
    /// Every event was made, and the machine was settled at the end of each `finish`.
    Done,
    /// The `finish` on this line made all its rounds, and the machine isn't settled.
    OutOfTurns { line: u64 },
    /// An event of the item on this line ended the run: a machine check, of which the stop stands, or one that wasn't made, since a
    /// line or the chronicle has a fault or was refused memory.
    Stopped { line: u64, stop: Stop },
}
