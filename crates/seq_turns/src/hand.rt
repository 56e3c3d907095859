use seq_flush::{Close, First, Flush, Mark, Second};
use seq_kernel::Cause;
use seq_locks::{Claim, Primary, Release, Shadow};
use seq_process::Running;
use seq_recover::{Claimed, Closing, Copying, Locks, Recovery};
use seq_words::{Pid, Seg};

/// A flush at one of its stages.
#[derive(Drop)]
pub enum FlushAt {
    Mark(Flush<Mark>),
    First(Flush<First>),
    Second(Flush<Second>),
    Close(Flush<Close>),
}

/// A release at one of its stages.
#[derive(Drop, Debug)]
pub enum ReleaseAt {
    Shadow(Release<Shadow>),
    Primary(Release<Primary>),
}

/// A recovery at one of its stages.
#[derive(Drop, Debug)]
pub enum RecoveryAt {
    Claimed(Recovery<Claimed>),
    Copying(Recovery<Copying>),
    Locks(Recovery<Locks>),
    Closing(Recovery<Closing>),
}

/// What a processor is about. A mask has a bit for each segment that the cause has still to release.
#[derive(Drop)]
pub enum Hand {
    /// It has stopped.
    Down,
    /// It looks for a process to run.
    Seek,
    /// It has claimed the primary of the process's status word.
    Claiming(Pid, Claim<Shadow>),
    /// It runs the process.
    Running(Running),
    /// It has claimed the primary of the segment's lock word for the process.
    Acquiring(Running, Seg, Claim<Shadow>),
    /// It flushes the process.
    Flushing(Running, Cause, u16, FlushAt),
    /// It releases the lowest segment of the mask.
    Unlocking(Running, Cause, u16, ReleaseAt),
    /// It releases the process's status word.
    Leaving(Pid, ReleaseAt),
    /// It recovers a process.
    Recovering(RecoveryAt),
}
