//! What each processor knows of the blocks of the memories is kept. The functions do nothing: what they say is in their contracts.
ghost use Rattle.seq_invariant.specs.BlockFrame.{MovesKeepBlocks, FlushesWriteInside, ExtentsRest};
ghost use Rattle.seq_invariant.specs.BlockTurns.{HandsStay, HandsStayAtCommits, CommitsStayInside, FlushesKeep, CommitsKeep, ReleasesKeep, StepsKeep, AcquiresKeep, ContextsAreCommitted, ClaimsKeep};
ghost use Rattle.seq_invariant.specs.BlockInputs.{InputsKeep, StrikesKeep, CommitsAreWritten};
ghost use Rattle.seq_invariant.specs.BlockRecovered.{CopyingKeeps};
ghost use Rattle.seq_invariant.specs.BlockRest.{StartStands, FreeAreasHold};
ghost use Rattle.seq_invariant.specs.BlockService.{ServiceKeepsBlocks};
ghost use Rattle.seq_invariant.specs.BlockApart.{HandsAreApart, FlushesCommitAlone, ContextsOwn};
ghost use Rattle.seq_invariant.specs.BlockStops.{StopsKeepBlocks, LossesKeepBlocks};

/// What a hand knows of its area stays whatever others do outside it, their commits included.
pub fn hands_stay()
    ensures stay { HandsStay }
    ensures commits { HandsStayAtCommits }
    ensures inside { CommitsStayInside }
{}

/// A move of a processor within its own extents keeps what stands of all blocks.
/// A flush writes within them, and outside its passes they are at rest.
pub fn moves_keep_blocks()
    ensures moves { MovesKeepBlocks }
    ensures flushes { FlushesWriteInside }
    ensures rest { ExtentsRest }
{}

/// Every turn of a flush keeps what its hand knows; the commit makes it what is committed.
pub fn flushes_keep()
    ensures turns { FlushesKeep }
    ensures commit { CommitsKeep }
    ensures written { CommitsAreWritten }
{}

/// Every turn of a release of a lock keeps what its hand knows.
pub fn releases_keep()
    ensures { ReleasesKeep }
{}

/// Every turn of a running process keeps what its hand knows.
pub fn steps_keep()
    ensures { StepsKeep }
{}

/// So does the second turn of an acquire; with it the segment comes into the area of the process.
pub fn acquires_keep()
    ensures { AcquiresKeep }
{}

/// A process that may be taken up has the context that was committed, and the second turn of its claim takes it up.
pub fn claims_keep()
    ensures contexts { ContextsAreCommitted }
    ensures owners { ContextsOwn }
    ensures turns { ClaimsKeep }
{}

/// What stands of all blocks is kept where a processor stops, where a memory fails while no process is left,
/// and where copies come back into service while nobody is amid an operation.
pub fn failures_keep_blocks()
    ensures stops { StopsKeepBlocks }
    ensures losses { LossesKeepBlocks }
    ensures service { ServiceKeepsBlocks }
{}

/// More input, and a strike of a half whose other half isn't struck, keep what a hand knows.
pub fn inputs_and_strikes_keep()
    ensures inputs { InputsKeep }
    ensures strikes { StrikesKeep }
{}

/// Every turn of a recovery that copies keeps what it copies from, and after the last of them the process is at rest.
pub fn copying_keeps()
    ensures { CopyingKeeps }
{}

/// It stands of the start. Where nobody has anything to do in an area, both copies there hold what was committed.
pub fn free_areas_hold()
    ensures start { StartStands }
    ensures free { FreeAreasHold }
{}

/// Words and locks keep the extents of hands apart; so a flush commits in an area in which nobody else owns a segment.
pub fn hands_are_apart()
    ensures hands { HandsAreApart }
    ensures commits { FlushesCommitAlone }
{}
