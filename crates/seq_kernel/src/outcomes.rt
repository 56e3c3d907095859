use seq_words::{Element, LineNo, Me, Pid, Seg};

/// What a process waits for.
#[derive(Clone, Copy, Debug, PartialEq, Eq)]
pub enum Reason {
    /// The process holds the segment's lock.
    Lock(Seg, Pid),
    /// The line has no further byte: so many have arrived in its journal.
    Input(LineNo, u64),
    /// The line's outbox has no room: so many bytes have been sent from it.
    Outbox(LineNo, u64),
}

/// Why a process is to be flushed.
#[derive(Clone, Copy, Debug, PartialEq, Eq)]
pub enum Cause {
    /// It gave this segment up.
    Release(Seg),
    /// It called exit.
    Exit,
    /// A trap ended it.
    Trap,
    /// It called commit.
    Commit,
    /// It called yield.
    Yield,
    /// It waits.
    Wait(Reason),
    /// The cache has no room for what it would change.
    Room,
    /// It has taken as many steps as it may between its claim and its release.
    Quantum,
}

/// What a turn of a running process comes to.
#[derive(Clone, Copy, Debug, PartialEq, Eq)]
pub enum Outcome {
    /// A step was taken, and the process goes on.
    Done,
    /// It acquires this segment, which its lock decides. Nothing has changed.
    Claim(Seg),
    /// It is to be flushed. A step was taken, but for Room, where nothing has changed.
    NeedsFlush(Cause),
    /// It waits, and nothing has changed.
    Waits(Reason),
    /// The halves differ, and nothing has changed.
    Diverged,
}

/// What an event of the machine came to.
#[derive(Clone, Copy, Debug, PartialEq, Eq)]
pub enum Note {
    /// A turn of an element that has nothing to do.
    Nothing,
    /// A processor's turn while a memory is to be copied and an operation is going on.
    Held,
    /// A processor looked at this process, and begins no claim of it.
    Looked(Pid),
    /// The process took a step, and goes on.
    Ran(Pid),
    /// The process is to be flushed or left, for this cause.
    Found(Pid, Cause),
    /// A turn of an operation.
    Moved,
    /// A unit was copied to this memory, or the memory was put in service.
    Copied(Me),
    /// The process committed a checkpoint, after so many steps.
    Committed(Pid, u32),
    /// The byte was sent on the line.
    Sent(LineNo, u8),
    /// The line's port gave up a byte.
    Taken(LineNo),
    /// The element stopped.
    Stopped(Element),
    /// The event that is no turn was made.
    Made,
}
