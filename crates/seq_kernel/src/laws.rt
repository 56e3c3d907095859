// One turn on the hardware is one step of the flat machine, and keeps what the next one needs.
ghost use Rattle.seq_kernel.specs.Refinement.{StepsAreFlat, ClaimsAskFor, AsksInAllShown, GrantsAreFlat};
ghost use Rattle.seq_kernel.specs.Kept.{StepsKeepBounds, StepsKeepCache, OwnBlocksAreBeside, GrantsKeepBounds, StrikesKeepBounds};
ghost use Rattle.seq_kernel.specs.Counted.{TurnsAreCounted, UnusedStay};
ghost use Rattle.seq_kernel.specs.Owners.{StepsChangeBytesOrOwner};

/// Wherever a turn takes a step, it is the flat machine's step of the same process. A segment that it gives up has the bytes of
/// the flat state still.
pub fn steps_are_flat()
    ensures { StepsAreFlat }
{}

/// A turn that claims a segment is that of a process whose half that isn't struck asks for it, in every flat state that it shows.
/// Once the lock is held, its acquire is the flat machine's step, where nobody owns the segment; a strike since then is nothing
/// to it.
pub fn grants_are_flat()
    ensures claims { ClaimsAskFor }
    ensures shown { AsksInAllShown }
    ensures granted { GrantsAreFlat }
{}

/// Where a turn takes no step, nothing has changed. The bounds hold under which the next turn may be taken, where the process
/// lives and has steps left. x0 of each half that isn't struck stays 0. A strike at a half keeps all that too, where the other
/// isn't struck.
pub fn steps_keep_bounds()
    ensures steps { StepsKeepBounds }
    ensures strikes { StrikesKeepBounds }
{}

/// A step counts once, and a process lives on but where exit or a trap ends it. No turn adds to what it holds, nor touches
/// positions of lines that it doesn't have: where they are 0, they stay so.
pub fn turns_are_counted()
    ensures counted { TurnsAreCounted }
    ensures unused { UnusedStay }
{}

/// A step of the flat machine changes the bytes of a segment or its owner, and not both.
pub fn steps_change_bytes_or_owner()
    ensures { StepsChangeBytesOrOwner }
{}

/// The cache stays within its capacity and in order. Each changed block is one of the process past its context, or of a
/// segment that it holds, or held until this turn.
pub fn steps_keep_cache()
    ensures { StepsKeepCache }
{}

/// An acquire that its lock grants keeps the bounds too, and the changed blocks stay the process's own.
pub fn grants_keep_bounds()
    ensures { GrantsKeepBounds }
{}

/// The process's own blocks are blocks of extents, and none of them is a block of its context.
pub fn own_blocks_are_beside()
    ensures { OwnBlocksAreBeside }
{}
