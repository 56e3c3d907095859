//! The machine's state at every moment, part by part. The functions do nothing: what they say is in their contracts.
ghost use Rattle.seq_invariant.specs.AreasHold.{RestingAreasHoldAlways, FirstPassHoldsAlways, SecondPassHoldsAlways};
ghost use Rattle.seq_invariant.specs.FlushAreas.{FlushAreasAgree};
ghost use Rattle.seq_invariant.specs.LeftAreas.{LeftAreasHoldAlways};
ghost use Rattle.seq_invariant.specs.Moments.{RunsShow};
ghost use Rattle.seq_invariant.specs.Parts.{MemoriesServeAlways, StatusWordsNameAlways, StatusWordsHaveFormatAlways, LinesCountAlways};
ghost use Rattle.seq_invariant.specs.Processes.{LocksNameAlways, NoneIsLeftAlways, RunningIsAheadAlways};

/// At most one memory isn't in service, and one that is being copied is equal to the other copy behind its next unit.
pub fn memories_serve()
    ensures { MemoriesServeAlways }
{}

/// Status words have the format, and name who has the process in its hand; both copies are equal but amid a turn of two.
pub fn status_words_name()
    ensures { StatusWordsNameAlways }
{}

/// Both copies of each status word have the format, also while the process awaits recovery, and name no incarnation above the
/// present one.
pub fn status_words_have_format()
    ensures { StatusWordsHaveFormatAlways }
{}

/// Journals, ports, closed words, accepted and sent bytes, and the room of outboxes.
pub fn lines_count()
    ensures { LinesCountAlways }
{}

/// A lock word is free where nobody owns or holds the segment; else it names whose the segment is.
pub fn locks_name()
    ensures { LocksNameAlways }
{}

/// Amid a recovery no lock word behind the cursor is left to be cleared.
pub fn none_is_left()
    ensures { NoneIsLeftAlways }
{}

/// Who runs a process has it as it is after the steps that aren't committed.
pub fn running_is_ahead()
    ensures { RunningIsAheadAlways }
{}

/// An area at rest holds the committed state on every copy in service.
pub fn resting_areas_hold()
    ensures { RestingAreasHoldAlways }
{}

/// What copies hold amid a flush before its commit.
pub fn first_pass_holds()
    ensures { FirstPassHoldsAlways }
{}

/// What copies hold amid a flush after its commit.
pub fn second_pass_holds()
    ensures { SecondPassHoldsAlways }
{}

/// The extents of a flush are those that its process has by the lock words.
pub fn flush_areas_agree()
    ensures { FlushAreasAgree }
{}

/// What copies hold of a process that awaits recovery, by the kind of its ruling word and behind the cursor of the copying.
pub fn left_areas_hold()
    ensures { LeftAreasHoldAlways }
{}

/// All of it together, after every list of events from the start that may be made and of which none ends the run.
pub fn runs_show()
    ensures { RunsShow }
{}
