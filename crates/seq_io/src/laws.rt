ghost use Rattle.seq_io.specs.Bounds.{MachinesAreWired};

/// In the machine of a description each line has its owner's context and outbox, its words and its journal.
pub fn machines_are_wired()
    ensures { MachinesAreWired }
{}
