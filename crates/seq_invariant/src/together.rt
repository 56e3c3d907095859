//! What stands of words and blocks gives what the lines need. The functions do nothing: what they say is in their contracts.
ghost use Rattle.seq_invariant.specs.BlockLines.{BlocksGiveLines, FlushesAreToCommit, SteadyMachinesHold};
ghost use Rattle.seq_invariant.specs.JoinedKept.{HistoryRunsOn, LinesStandOn, InsideStandsOn, IoKeepsBlocks};

/// The first copies of steady processes hold what is committed, and hands are within their bounds.
pub fn blocks_give_lines()
    ensures { BlocksGiveLines }
{}

/// A flush before its commit is to commit the state that its process's steps lead to, with what it has written put out.
pub fn flushes_are_to_commit()
    ensures { FlushesAreToCommit }
{}

/// Where every process is steady, all first copies hold what is committed.
pub fn steady_machines_hold()
    ensures { SteadyMachinesHold }
{}

/// The history is a flat run after every event that may be made, also after one that ends the run.
pub fn history_runs_on()
    ensures { HistoryRunsOn }
{}

/// After every event that may be made the lines stand on, over the flat state along the history as it is then.
pub fn lines_stand_on()
    ensures { LinesStandOn }
{}

/// And hands have to do with segments of the description alone.
pub fn inside_stands_on()
    ensures { InsideStandsOn }
{}

/// A turn of an I/O element keeps what stands of the blocks.
pub fn io_keeps_blocks()
    ensures { IoKeepsBlocks }
{}
